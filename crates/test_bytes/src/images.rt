//! The fault table and the reads on small files.

use crate::asserts::{holds, same, same_at};
use crate::small_files::{RET_FILE, edited};
use elf_image::{ElfError, Image, Section, Span};
use std::alloc::{AllocError, Global};
use std::process::Abort;
use std::test::Fail;

/// The name of the fault that the parse answers, or `-` if it accepts the file.
fn verdict(alloc: Global, bytes: Vec<u8>) -> &'static str {
    match Image::parse(alloc, bytes) {
        Ok(_) => "-",
        Err(ElfError::Malformed(fault)) => fault.name(),
        Err(ElfError::Memory) => "memory",
    }
}

/// The file with FF (hexadecimal) in the eight bytes from an offset on.
fn with_last_address(alloc: Global, at: usize) -> Result<Vec<u8>, AllocError> {
    let mut bytes = Vec::from_slice(alloc, &RET_FILE)?;
    for (i, place) in bytes.iter_mut().enumerate() {
        if i >= at && i - at < 8 {
            *place = 0xFF;
        }
    }
    Ok(bytes)
}

/// A file of `blocks` blocks of 4,096 zero bytes and `more` bytes besides.
fn zeros(alloc: Global, blocks: usize, more: &[u8]) -> Result<Vec<u8>, AllocError> {
    let block = [0u8; 4096];
    let mut bytes = Vec::new(alloc);
    for _ in 0..blocks {
        bytes.extend_from_slice(&block)?;
    }
    bytes.extend_from_slice(more)?;
    Ok(bytes)
}

#[test]
fn sizes(rt: HostRuntime) -> Result<(), Fail> {
    let alloc = rt.alloc();
    same(&rt, &verdict(alloc, Vec::new(alloc)), &"Short");
    same(&rt, &verdict(alloc, zeros(alloc, 0, &[0; 63])?), &"Short");
    same(&rt, &verdict(alloc, zeros(alloc, 0, &[0; 64])?), &"Magic");
    same(&rt, &verdict(alloc, zeros(alloc, 16_384, &[])?), &"Magic");
    same(
        &rt,
        &verdict(alloc, zeros(alloc, 16_384, &[0])?),
        &"TooLarge",
    );
    same(
        &rt,
        &verdict(alloc, Vec::from_slice(alloc, &RET_FILE)?),
        &"-",
    );
    same(
        &rt,
        &verdict(alloc, Vec::from_slice(alloc, &RET_FILE[..263])?),
        &"SectionTable",
    );
    Ok(())
}

/// Each fault alone: the bytes that differ, and the name of the fault.
static SINGLE_FAULTS: [(&[(usize, u8)], &str); 22] = [
    (&[(3, 0x47)], "Magic"),
    (&[(4, 1)], "Class"),
    (&[(5, 2)], "Data"),
    (&[(6, 0)], "Version"),
    (&[(20, 2)], "Version"),
    (&[(18, 0x3E)], "Machine"),
    (&[(16, 1)], "Type"),
    (&[(16, 3)], "-"),
    (&[(52, 0x3F)], "HeaderSize"),
    (&[(56, 1)], "ProgramTable"),
    (&[(32, 0x48), (54, 0x38), (56, 1)], "-"),
    (&[(32, 0xD1), (54, 0x38), (56, 1)], "ProgramTable"),
    (&[(32, 0x48), (54, 0x38), (56, 1), (72, 3)], "Interp"),
    (
        &[(16, 3), (32, 0x48), (54, 0x38), (56, 1), (72, 3)],
        "Interp",
    ),
    (&[(60, 0)], "NoSections"),
    (&[(58, 0x3F)], "SectionTable"),
    (&[(168, 0xFF)], "SectionRange"),
    (&[(152, 1)], "CodeParity"),
    (&[(208, 6), (216, 2), (218, 1), (232, 4)], "CodeOverlap"),
    (&[(24, 4)], "Entry"),
    (&[(24, 1)], "Entry"),
    (&[(204, 2)], "-"),
];

/// Two neighbours of the fault table at once: the first is named.
static NEIGHBOURING_FAULTS: [(&[(usize, u8)], &str); 14] = [
    (&[(0, 0), (4, 1)], "Magic"),
    (&[(4, 1), (5, 2)], "Class"),
    (&[(5, 2), (6, 0)], "Data"),
    (&[(6, 0), (18, 0x3E)], "Version"),
    (&[(18, 0x3E), (16, 1)], "Machine"),
    (&[(16, 1), (52, 0x3F)], "Type"),
    (&[(52, 0x3F), (56, 1)], "HeaderSize"),
    (&[(32, 0xD0), (54, 0x37), (56, 1), (208, 3)], "ProgramTable"),
    (
        &[(32, 0x48), (54, 0x38), (56, 1), (72, 3), (60, 0)],
        "Interp",
    ),
    (&[(60, 0), (58, 0x3F)], "NoSections"),
    (&[(58, 0x3F), (168, 0xFF)], "SectionTable"),
    (&[(208, 6), (216, 1), (218, 1), (232, 4)], "CodeParity"),
    (
        &[(208, 6), (216, 2), (218, 1), (232, 4), (24, 8)],
        "CodeOverlap",
    ),
    (&[(24, 4), (204, 2)], "Entry"),
];

/// Where a field is as large as it may be, and one beyond.
static LIMITS: [(&[(usize, u8)], &str); 6] = [
    // SHT_NOBITS has no bytes in the file, and an empty SHT_PROGBITS still has an offset.
    (&[(204, 8), (233, 0xFF)], "-"),
    (&[(225, 0xFF)], "SectionRange"),
    // Empty code: its address is judged, and it overlaps nothing.
    (&[(208, 6), (216, 1)], "CodeParity"),
    (&[(208, 6), (216, 2), (218, 1)], "-"),
    // Code that joins without a gap.
    (&[(208, 6), (216, 4), (218, 1), (232, 4)], "-"),
    // A section without SHF_ALLOC may be anywhere.
    (
        &[
            (208, 0),
            (223, 0xFF),
            (222, 0xFF),
            (221, 0xFF),
            (220, 0xFF),
            (219, 0xFF),
            (218, 0xFF),
            (217, 0xFF),
            (216, 0xFF),
            (232, 4),
        ],
        "-",
    ),
];

fn expect_verdicts(
    rt: &impl Abort,
    alloc: Global,
    cases: &[(&[(usize, u8)], &str)],
) -> Result<(), Fail> {
    for (number, (edits, want)) in cases.iter().enumerate() {
        let bytes = edited(alloc, &RET_FILE, edits)?;
        same_at(rt, &number, &verdict(alloc, bytes), want);
    }
    Ok(())
}

#[test]
fn first_faults(rt: HostRuntime) -> Result<(), Fail> {
    expect_verdicts(&rt, rt.alloc(), SINGLE_FAULTS.as_slice())?;
    expect_verdicts(&rt, rt.alloc(), NEIGHBOURING_FAULTS.as_slice())?;
    expect_verdicts(&rt, rt.alloc(), LIMITS.as_slice())
}

/// Addresses at the end of the address space.
#[test]
fn last_addresses(rt: HostRuntime) -> Result<(), Fail> {
    let alloc = rt.alloc();
    // The table of sections there.
    same(
        &rt,
        &verdict(alloc, with_last_address(alloc, 40)?),
        &"SectionTable",
    );
    // Code of four bytes at the last address, and an empty section there.
    same(
        &rt,
        &verdict(alloc, with_last_address(alloc, 152)?),
        &"SectionWrap",
    );
    same(&rt, &verdict(alloc, with_last_address(alloc, 216)?), &"-");
    Ok(())
}

/// A value that threads may share.
fn shared<T: Sync>(_value: &T) {}

/// Addresses, the start of the code section that each lies in, and the halfword there.
type Code = (u64, Option<u64>, Option<u16>);

static RET_CODE: [Code; 8] = [
    (0xFFFE, None, None),
    (0x10000, Some(0x10000), Some(0x8067)),
    (0x10001, None, None),
    (0x10002, Some(0x10000), Some(0)),
    (0x10003, None, None),
    (0x10004, None, None),
    (u64::MAX - 1, None, None),
    (u64::MAX, None, None),
];

fn expect_code(rt: &impl Abort, image: &Image, cases: &[Code]) {
    for &(a, start, half) in cases {
        same_at(rt, &a, &image.is_code(a), &start.is_some());
        same_at(rt, &a, &image.section_start(a), &start);
        same_at(rt, &a, &image.half_at(a), &half);
    }
}

#[test]
fn reads(rt: HostRuntime) -> Result<(), Fail> {
    let image = Image::parse(rt.alloc(), Vec::from_slice(rt.alloc(), &RET_FILE)?)?;
    shared(&image);
    same(&rt, &image.entry(), &0x10000);
    expect_code(&rt, &image, RET_CODE.as_slice());
    for a in [0xFFFE, 0x10001, 0x10002, 0x10004, u64::MAX] {
        same_at(&rt, &a, &image.word_at(a), &None);
    }
    same(&rt, &image.word_at(0x10000), &Some(0x8067));
    holds(&rt, image.is_read_only(0x10003));
    holds(&rt, !image.is_read_only(0x10004));
    holds(&rt, !image.is_read_only(0x20000));
    same(&rt, &image.data_word(0x10000), &Some(0x8067));
    same(&rt, &image.data_word(0x10001), &None);
    Ok(())
}

#[test]
fn tables(rt: HostRuntime) -> Result<(), Fail> {
    let image = Image::parse(rt.alloc(), Vec::from_slice(rt.alloc(), &RET_FILE)?)?;
    same(&rt, &image.section_count(), &3);
    let code = Section {
        name: 0,
        kind: 1,
        flags: 6,
        address: 0x10000,
        offset: 64,
        size: 4,
        link: 0,
        entry_size: 0,
    };
    for i in 0..image.section_count() {
        let section = image.section(i);
        same(&rt, &section.is_code(), &(i == 1));
        same(&rt, &(section == code), &(i == 1));
    }
    same(
        &rt,
        &image.bytes(Span { at: 64, len: 4 }),
        &[0x67, 0x80, 0, 0].as_slice(),
    );
    Ok(())
}

/// Read-only sections that share addresses: the first in table order that has all four bytes
/// counts, though the second is wider.
#[test]
fn overlapping_data(rt: HostRuntime) -> Result<(), Fail> {
    let alloc = rt.alloc();
    let image = Image::parse(
        alloc,
        edited(alloc, &RET_FILE, &[(218, 1), (224, 0), (232, 8)])?,
    )?;
    same(&rt, &image.data_word(0x10000), &Some(0x0000_8067));
    same(&rt, &image.data_word(0x10002), &Some(0x0102_464C));
    same(&rt, &image.data_word(0x10004), &Some(0x0001_0102));
    same(&rt, &image.data_word(0x10005), &None);
    holds(&rt, image.is_read_only(0x10007));
    holds(&rt, !image.is_read_only(0x10008));
    Ok(())
}

/// The bytes of data from an address on: in each of two read-only sections beside each other, and
/// in two that share addresses, where four are given.
#[test]
fn data_from(rt: HostRuntime) -> Result<(), Fail> {
    let alloc = rt.alloc();
    let beside = edited(
        alloc,
        &RET_FILE,
        &[(168, 8), (216, 8), (218, 1), (224, 0), (232, 8)],
    )?;
    let image = Image::parse(alloc, beside)?;
    same(&rt, &image.data_from(0x10000), &&RET_FILE[64..72]);
    same(&rt, &image.data_from(0x10003), &&RET_FILE[67..72]);
    same(&rt, &image.data_from(0x10005), &[].as_slice());
    same(&rt, &image.data_from(0x10008), &&RET_FILE[..8]);
    same(&rt, &image.data_from(0x10010), &[].as_slice());
    let overlapping = edited(alloc, &RET_FILE, &[(218, 1), (224, 0), (232, 8)])?;
    let image = Image::parse(alloc, overlapping)?;
    same(&rt, &image.data_from(0x10000), &&RET_FILE[64..68]);
    same(&rt, &image.data_from(0x10002), &&RET_FILE[2..6]);
    Ok(())
}

/// The file with three code sections instead of its own: of each the address, and the offset and
/// the number of its bytes, which are those of the file.
fn with_code(alloc: Global, sections: [(u32, u8, u8); 3]) -> Result<Vec<u8>, AllocError> {
    let mut bytes = edited(alloc, &RET_FILE, &[(60, 4)])?;
    bytes.truncate(136);
    for (address, offset, size) in sections {
        let mut header = [0u8; 64];
        header[4] = 1;
        header[8] = 6;
        header[16..20].copy_from_slice(&address.to_le_bytes());
        header[24] = offset;
        header[32] = size;
        bytes.extend_from_slice(&header)?;
    }
    Ok(bytes)
}

static WIDTHS_CODE: [Code; 11] = [
    (0xFFFE, None, None),
    (0x10000, Some(0x10000), Some(0x457F)),
    (0x10002, Some(0x10000), Some(0x464C)),
    (0x10006, Some(0x10000), Some(0x0001)),
    (0x10008, None, None),
    (0x1000E, None, None),
    (0x10010, Some(0x10010), Some(0x0102)),
    (0x10012, Some(0x10010), Some(0x0001)),
    (0x1FFFE, None, None),
    (0x20000, Some(0x20000), Some(0x8067)),
    (0x20010, None, None),
];

/// The words of the first two sections, and which addresses may be read.
fn expect_words(rt: &impl Abort, image: &Image) {
    same(rt, &image.word_at(0x10004), &Some(0x0001_0102));
    same(rt, &image.word_at(0x10006), &None);
    same(rt, &image.data_word(0x10001), &Some(0x0246_4C45));
    same(rt, &image.data_word(0x10005), &None);
    same(rt, &image.data_word(0x10010), &Some(0x0001_0102));
    for (a, start, _) in WIDTHS_CODE.as_slice() {
        same_at(rt, &a, &image.is_read_only(*a), &start.is_some());
    }
}

/// Sections of different widths: the widest is the first, the second or the last in memory.
#[test]
fn sections_of_different_widths(rt: HostRuntime) -> Result<(), Fail> {
    for sections in [
        [(0x20000, 64, 2), (0x10000, 0, 8), (0x10010, 4, 4)],
        [(0x20000, 64, 2), (0x10000, 0, 8), (0x10010, 4, 12)],
        [(0x20000, 64, 16), (0x10000, 0, 8), (0x10010, 4, 4)],
    ] {
        let image = Image::parse(rt.alloc(), with_code(rt.alloc(), sections)?)?;
        expect_code(&rt, &image, WIDTHS_CODE.as_slice());
        expect_words(&rt, &image);
    }
    Ok(())
}
