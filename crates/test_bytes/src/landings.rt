//! Landing pads by frames and exception tables (`landing_pads`). What is wanted of each row was worked
//! out by another reader of the same sections, in another language.

use crate::asserts::{same, same_at};
use crate::small_files::{RET_FILE, edited};
use elf_image::Image;
use landing_pads::Landings;
use std::alloc::{AllocError, Global};
use std::process::Abort;
use std::test::Fail;

/// A section: the place of its name, its type, its flags, its address, and its bytes.
type Made<'a> = (u8, u32, u8, u32, &'a [u8]);

/// The addresses of the first frames, of the tables, and of the further frames.
const FRAMES_AT: u32 = 0x2_0000;

const TABLES_AT: u32 = 0x2_1000;

const MORE_AT: u32 = 0x2_2000;

/// The names of sections: those of frames begin at 1, that of tables at 11.
const NAMES: &[u8] = b"\0.eh_frame\0.eh_frame_hdr\0";

/// A common record with the letters `zPLR` (28 bytes), and the frames of functions at 10000 and 10100
/// (hexadecimal), whose tables stand at 21000 and 21020.
const FRAMES: [u8; 76] = [
    0x18, 0, 0, 0, 0, 0, 0, 0, 1, 0x7A, 0x50, 0x4C, 0x52, 0, 1, 0x7C, 1, 7, 0x9B, 0, 0, 0, 0, 0x1B,
    0x1B, 0, 0, 0, 0x14, 0, 0, 0, 0x20, 0, 0, 0, 0xDC, 0xFF, 0xFE, 0xFF, 0x10, 0, 0, 0, 4, 0xD3,
    0x0F, 0, 0, 0, 0, 0, 0x14, 0, 0, 0, 0x38, 0, 0, 0, 0xC4, 0, 0xFF, 0xFF, 0x10, 0, 0, 0, 4, 0xDB,
    0x0F, 0, 0, 0, 0, 0,
];

/// The two tables.
const TABLES: [u8; 40] = [
    0xFF, 0xFF, 1, 0x0C, 0, 4, 0x40, 0, 4, 4, 0, 0, 8, 2, 0x50, 1, 0, 0, 0, 0, 0, 0, 0, 0, 0, 0, 0,
    0, 0, 0, 0, 0, 0xFF, 0xFF, 1, 4, 0, 8, 0x20, 0,
];

/// The file with four further sections in place of its empty one, of which the last has the names.
fn with_sections(alloc: Global, sections: &[Made<'_>; 4]) -> Result<Vec<u8>, AllocError> {
    let mut bytes = edited(alloc, &RET_FILE, &[(60, 6), (62, 5)])?;
    bytes.truncate(200);
    let mut offset: u32 = 456;
    for (name, kind, flags, address, content) in sections {
        let mut header = [0u8; 64];
        let size = u32::try_from(content.len()).unwrap_or(0);
        header[0] = *name;
        header[4..8].copy_from_slice(&kind.to_le_bytes());
        header[8] = *flags;
        header[16..20].copy_from_slice(&address.to_le_bytes());
        header[24..28].copy_from_slice(&offset.to_le_bytes());
        header[32..36].copy_from_slice(&size.to_le_bytes());
        bytes.extend_from_slice(&header)?;
        offset = offset.wrapping_add(size);
    }
    for (_, _, _, _, content) in sections {
        bytes.extend_from_slice(content)?;
    }
    Ok(bytes)
}

/// The file with frames and tables.
fn file<'a>(
    alloc: Global,
    frames: &'a [u8],
    tables: &'a [u8],
    more: &'a [u8],
) -> Result<Vec<u8>, AllocError> {
    let sections: [Made<'a>; 4] = [
        (1, 1, 2, FRAMES_AT, frames),
        (11, 1, 2, TABLES_AT, tables),
        (1, 1, 2, MORE_AT, more),
        (0, 3, 0, 0, NAMES),
    ];
    with_sections(alloc, &sections)
}

/// Judges which pads calls have that end at some addresses; 0 is none.
fn expect(
    rt: &impl Abort,
    alloc: Global,
    case: usize,
    bytes: Vec<u8>,
    calls: [u64; 3],
    want: [u64; 3],
) -> Result<(), Fail> {
    let image = Image::parse(alloc, bytes)?;
    let landings = Landings::of(alloc, &image)?;
    for (call, pad) in calls.iter().zip(want.iter()) {
        same_at(rt, &(case, *call), &landings.at(*call).unwrap_or(0), pad);
    }
    Ok(())
}

/// Calls that end in the two ranges of the first frame, and in that of the second.
const IN_FRAMES: [u64; 3] = [0x1_0003, 0x1_0009, 0x1_0107];

/// Other bytes at places of the frames, and the pads of those calls.
static EDITS: [(&[(usize, u8)], [u64; 3]); 36] = [
    // As it is.
    (&[], [0x1_0040, 0x1_0050, 0x1_0120]),
    // The common record: a length past the records, a link, a version, a length of 64 bits.
    (&[(0, 0xF0)], [0, 0, 0]),
    (&[(4, 1)], [0, 0, 0]),
    (&[(8, 2)], [0, 0, 0]),
    (&[(8, 3)], [0x1_0040, 0x1_0050, 0x1_0120]),
    (&[(0, 0xFF), (1, 0xFF), (2, 0xFF), (3, 0xFF)], [0, 0, 0]),
    // Its letters: none of `z`, one that is not known, none before the zero, one without bytes.
    (&[(9, 0x79)], [0, 0, 0]),
    (&[(11, 0x58)], [0, 0, 0]),
    (&[(9, 0)], [0, 0, 0]),
    (&[(12, 0x42)], [0, 0, 0]),
    // Its factors: longer, and a register of two bytes in version 1 and 3.
    (&[(14, 0x81)], [0, 0, 0]),
    (&[(8, 3), (16, 0x81)], [0, 0, 0]),
    // Its pointer to a routine: omitted, aligned, of no number, of two bytes.
    (&[(18, 0xFF)], [0, 0, 0]),
    (&[(18, 0x5B)], [0, 0, 0]),
    (&[(18, 0xDB)], [0, 0, 0]),
    (&[(18, 0x0F)], [0, 0, 0]),
    (&[(18, 0x9A)], [0, 0, 0]),
    // Its encoding of tables: omitted, absolute, relative to text, indirect, unsigned.
    (&[(23, 0xFF)], [0, 0, 0]),
    (&[(23, 0x0B)], [0, 0, 0]),
    (&[(23, 0x2B)], [0, 0, 0]),
    (&[(23, 0x9B)], [0, 0, 0]),
    (&[(23, 0x13)], [0x1_0040, 0x1_0050, 0x1_0120]),
    // Its encoding of code: relative to data, of two bytes, unsigned.
    (&[(24, 0x3B)], [0, 0, 0]),
    (&[(24, 0x1A)], [0, 0, 0]),
    (&[(24, 0x13)], [0, 0, 0]),
    // The first frame: a link too long, to another record, and none; one byte too short; no table.
    (&[(32, 0x24)], [0, 0, 0x1_0120]),
    (&[(33, 0x80)], [0, 0, 0x1_0120]),
    (&[(32, 0x1C)], [0, 0, 0x1_0120]),
    (&[(32, 0)], [0, 0, 0x1_0120]),
    (&[(28, 0x10)], [0, 0, 0x1_0120]),
    (&[(45, 0), (46, 0)], [0, 0, 0x1_0120]),
    // It is longer, so the second lies in it; it is not whole, so no record follows.
    (&[(28, 0x2C)], [0x1_0040, 0x1_0050, 0]),
    (&[(28, 0x2D)], [0, 0, 0]),
    // Its table: at an address of no section, and at the last byte of the section.
    (&[(47, 1)], [0, 0, 0x1_0120]),
    (&[(45, 0xFC)], [0, 0, 0x1_0120]),
    // Its size is passed over, whatever it is.
    (&[(40, 0xFF), (43, 0xFF)], [0x1_0040, 0x1_0050, 0x1_0120]),
];

#[test]
fn frames(rt: HostRuntime) -> Result<(), Fail> {
    let alloc = rt.alloc();
    for (case, (edits, want)) in EDITS.iter().enumerate() {
        let frames = edited(alloc, &FRAMES, edits)?;
        let bytes = file(alloc, &frames, &TABLES, &[])?;
        expect(&rt, alloc, case, bytes, IN_FRAMES, *want)?;
    }
    Ok(())
}

/// Calls by which tables differ.
const IN_TABLE: [u64; 3] = [0x1_0003, 0x1_0009, 0x1_0017];

/// Tables of the function at 10000, and the pads of those calls.
static ROWS: [(&[u8], [u64; 3]); 41] = [
    // Entries in each encoding, and in one of none.
    (
        b"\xFF\xFF\0K\0\0\0\0\0\0\0\0\x04\0\0\0\0\0\0\0@\0\0\0\0\0\0\0\0\x08\0\0\0\0\0\0\0\x02\0\0\0\0\0\0\0P\0\0\0\0\0\0\0\x01\x10\0\0\0\0\0\0\0\x08\0\0\0\0\0\0\0`\0\0\0\0\0\0\0\0",
        [0x1_0040, 0x1_0050, 0x1_0060],
    ),
    (
        b"\xFF\xFF\x01\x0C\0\x04@\0\x08\x02P\x01\x10\x08`\0",
        [0x1_0040, 0x1_0050, 0x1_0060],
    ),
    (
        b"\xFF\xFF\x02\x15\0\0\x04\0@\0\0\x08\0\x02\0P\0\x01\x10\0\x08\0`\0\0",
        [0x1_0040, 0x1_0050, 0x1_0060],
    ),
    (
        b"\xFF\xFF\x03'\0\0\0\0\x04\0\0\0@\0\0\0\0\x08\0\0\0\x02\0\0\0P\0\0\0\x01\x10\0\0\0\x08\0\0\0`\0\0\0\0",
        [0x1_0040, 0x1_0050, 0x1_0060],
    ),
    (
        b"\xFF\xFF\x04K\0\0\0\0\0\0\0\0\x04\0\0\0\0\0\0\0@\0\0\0\0\0\0\0\0\x08\0\0\0\0\0\0\0\x02\0\0\0\0\0\0\0P\0\0\0\0\0\0\0\x01\x10\0\0\0\0\0\0\0\x08\0\0\0\0\0\0\0`\0\0\0\0\0\0\0\0",
        [0x1_0040, 0x1_0050, 0x1_0060],
    ),
    (
        b"\xFF\xFF\x09\x0F\0\x04\xC0\0\0\x08\x02\xD0\0\x01\x10\x08\xE0\0\0",
        [0x1_0040, 0x1_0050, 0x1_0060],
    ),
    (
        b"\xFF\xFF\x0A\x15\0\0\x04\0@\0\0\x08\0\x02\0P\0\x01\x10\0\x08\0`\0\0",
        [0x1_0040, 0x1_0050, 0x1_0060],
    ),
    (
        b"\xFF\xFF\x0B'\0\0\0\0\x04\0\0\0@\0\0\0\0\x08\0\0\0\x02\0\0\0P\0\0\0\x01\x10\0\0\0\x08\0\0\0`\0\0\0\0",
        [0x1_0040, 0x1_0050, 0x1_0060],
    ),
    (
        b"\xFF\xFF\x0CK\0\0\0\0\0\0\0\0\x04\0\0\0\0\0\0\0@\0\0\0\0\0\0\0\0\x08\0\0\0\0\0\0\0\x02\0\0\0\0\0\0\0P\0\0\0\0\0\0\0\x01\x10\0\0\0\0\0\0\0\x08\0\0\0\0\0\0\0`\0\0\0\0\0\0\0\0",
        [0x1_0040, 0x1_0050, 0x1_0060],
    ),
    (
        b"\xFF\xFF\x05\x0C\0\x04@\0\x08\x02P\x01\x10\x08`\0",
        [0, 0, 0],
    ),
    (
        b"\xFF\xFF\x11\x0C\0\x04@\0\x08\x02P\x01\x10\x08`\0",
        [0, 0, 0],
    ),
    (
        b"\xFF\xFF\xFF\x0C\0\x04@\0\x08\x02P\x01\x10\x08`\0",
        [0, 0, 0],
    ),
    // Below the start, by numbers with a sign; and 2^64 more by one of ten bytes.
    (
        b"\xFF\xFF\x0B\x1A\0\0\0\0\x04\0\0\0\xF0\xFF\xFF\xFF\0\x08\0\0\0\x02\0\0\0\xE0\xFF\xFF\xFF\x01",
        [0x0_FFF0, 0x0_FFE0, 0],
    ),
    (b"\xFF\xFF\x09\x04\0\x04p\0", [0x0_FFF0, 0, 0]),
    (
        b"\xFF\xFF\x01\x13\0\x04\xC0\x80\x80\x80\x80\x80\x80\x80\x80\x80\x80\x7F\0\x08\x02P\0",
        [0x1_0040, 0x1_0050, 0],
    ),
    // A base of its own: absolute, from its place, 0, and in no encoding.
    (
        b"\x03\0\0\x03\0\xFF\x01\x0C\0\x04@\0\x08\x02P\x01\x10\x08`\0",
        [0x3_0040, 0x3_0050, 0x3_0060],
    ),
    (
        b"\x1B\0\x01\0\0\xFF\x01\x0C\0\x04@\0\x08\x02P\x01\x10\x08`\0",
        [0x2_1141, 0x2_1151, 0x2_1161],
    ),
    (
        b"\x1B\0\0\0\0\xFF\x01\x0C\0\x04@\0\x08\x02P\x01\x10\x08`\0",
        [0x0_0040, 0x0_0050, 0x0_0060],
    ),
    (
        b"\x0F\0\0\0\0\xFF\x01\x0C\0\x04@\0\x08\x02P\x01\x10\x08`\0",
        [0, 0, 0],
    ),
    (
        b"\x9B\0\x01\0\0\xFF\x01\x0C\0\x04@\0\x08\x02P\x01\x10\x08`\0",
        [0, 0, 0],
    ),
    // A table of types, however far; and one whose distance has no end.
    (
        b"\xFF\x9B\x10\x01\x0C\0\x04@\0\x08\x02P\x01\x10\x08`\0",
        [0x1_0040, 0x1_0050, 0x1_0060],
    ),
    (
        b"\xFF\0\x90\x80\x80\0\x01\x0C\0\x04@\0\x08\x02P\x01\x10\x08`\0",
        [0x1_0040, 0x1_0050, 0x1_0060],
    ),
    (
        b"\xFF\x9B\x80\x80\x80\x80\x80\x80\x80\x80\x80\x80\x80\x80",
        [0, 0, 0],
    ),
    // Sizes: up to the end of the section, past it, and nothing.
    (
        b"\xFF\xFF\x01\x0C\0\x04@\0\x08\x02P\x01\x10\x08`\0",
        [0x1_0040, 0x1_0050, 0x1_0060],
    ),
    (
        b"\xFF\xFF\x01\x0D\0\x04@\0\x08\x02P\x01\x10\x08`\0",
        [0, 0, 0],
    ),
    (
        b"\xFF\xFF\x01\0\0\x04@\0\x08\x02P\x01\x10\x08`\0",
        [0, 0, 0],
    ),
    (
        b"\xFF\xFF\x01\x8C\x80\x80\x80\x80\x80\x80\x80\x80\x02\0\x04@\0\x08\x02P\x01\x10\x08`\0",
        [0x1_0040, 0x1_0050, 0x1_0060],
    ),
    // An entry that is not whole within the size: those before it count.
    (
        b"\xFF\xFF\x01\x0B\0\x04@\0\x08\x02P\x01\x10\x08`\0",
        [0x1_0040, 0x1_0050, 0],
    ),
    (
        b"\xFF\xFF\x01\x05\0\x04@\0\x08\x02P\x01\x10\x08`\0",
        [0x1_0040, 0, 0],
    ),
    (
        b"\xFF\xFF\x01\x03\0\x04@\0\x08\x02P\x01\x10\x08`\0",
        [0, 0, 0],
    ),
    // Nothing at all; a head alone.
    (b"", [0, 0, 0]),
    (b"\xFF", [0, 0, 0]),
    (b"\xFF\xFF", [0, 0, 0]),
    (b"\xFF\xFF\x01", [0, 0, 0]),
    // A later beginning hides the earlier range, ended or not; one with the pad 0 does not.
    (b"\xFF\xFF\x01\x08\0@@\0\x08\x01P\0", [0x1_0040, 0, 0]),
    (b"\xFF\xFF\x01\x08\x08\x01P\0\0@@\0", [0x1_0040, 0, 0]),
    (
        b"\xFF\xFF\x01\x08\0@@\0\x08\x01\0\0",
        [0x1_0040, 0x1_0040, 0x1_0040],
    ),
    // Of equal beginnings the first counts, whatever its length.
    (b"\xFF\xFF\x01\x08\0\x0A@\0\0@P\0", [0x1_0040, 0x1_0040, 0]),
    (
        b"\xFF\xFF\x01\x08\0@P\0\0\x0A@\0",
        [0x1_0050, 0x1_0050, 0x1_0050],
    ),
    // A range of no length, and one of nearly all addresses.
    (b"\xFF\xFF\x01\x04\0\0@\0", [0, 0, 0]),
    (
        b"\xFF\xFF\x01\x0D\0\xFF\xFF\xFF\xFF\xFF\xFF\xFF\xFF\xFF\x01@\0",
        [0x1_0040, 0x1_0040, 0x1_0040],
    ),
];

#[test]
fn tables(rt: HostRuntime) -> Result<(), Fail> {
    let alloc = rt.alloc();
    for (case, (table, want)) in ROWS.iter().enumerate() {
        let bytes = file(alloc, &FRAMES, table, &[])?;
        expect(&rt, alloc, case, bytes, IN_TABLE, *want)?;
    }
    Ok(())
}

/// What stands after the version of a common record, and whether a frame that names it is read. Its
/// encodings of code and of tables must be 1B (hexadecimal).
static COMMONS: [(&[u8], bool); 20] = [
    // The letters in other orders, one twice, and with those that have no bytes.
    (b"zRL\0\x01|\x01\x02\x1B\x1B", true),
    (b"zLR\0\x01|\x01\x02\x1B\x1B", true),
    (b"zLPR\0\x01|\x01\x07\x1B\x9B\0\0\0\0\x1B", true),
    (b"zRLRL\0\x01|\x01\x04\0\0\x1B\x1B", true),
    (b"zRLRL\0\x01|\x01\x04\x1B\x1B\0\0", false),
    (b"zSRBLG\0\x01|\x01\x02\x1B\x1B", true),
    (b"zPPLR\0\x01|\x01\x09\xFF\x01\x80\x80\x01\x1B\x1B", true),
    // Without an `L` or an `R`.
    (b"zR\0\x01|\x01\x01\x1B", false),
    (b"zL\0\x01|\x01\x01\x1B", false),
    (b"z\0\x01|\x01\0", false),
    // A letter that is not known, whose bytes would fit; a `z` again; bytes that are not all there.
    (b"zRLX\0\x01|\x01\x02\x1B\x1B", false),
    (b"zRLz\0\x01|\x01\x02\x1B\x1B", false),
    (b"zRL\0\x01|\x01\x02\x1B", false),
    (b"zRL\0\x01|\x01", false),
    (b"zRL\0\x01\xFC", false),
    (b"zRL", false),
    (b"", false),
    (b"RLz\0\x01|\x01\x02\x1B\x1B", false),
    // The size of the letters' bytes is passed over, and so are long factors.
    (b"zRL\0\x01|\x01\xFF\xFF\0\x1B\x1B", true),
    (
        b"zRL\0\x81\x80\x80\x80\x80\x80\x80\x80\x80\x80\x80\0\xFC\xFF\xFF\xFF\xFF\xFF\xFF\xFF\xFF\xFF\xFF\x7F\x01\x02\x1B\x1B",
        true,
    ),
];

/// Frames of one common record of version 1, with this after the version.
fn frames_of(alloc: Global, after: &[u8]) -> Result<Vec<u8>, AllocError> {
    let size = u32::try_from(after.len()).unwrap_or(0).wrapping_add(5);
    let at = FRAMES_AT.wrapping_add(size).wrapping_add(4);
    let mut bytes = Vec::from_slice(alloc, &size.to_le_bytes())?;
    bytes.extend_from_slice(b"\0\0\0\0\x01")?;
    bytes.extend_from_slice(after)?;
    bytes.extend_from_slice(&0x15u32.to_le_bytes())?;
    bytes.extend_from_slice(&size.wrapping_add(8).to_le_bytes())?;
    bytes.extend_from_slice(&0x1_0000u32.wrapping_sub(at.wrapping_add(8)).to_le_bytes())?;
    bytes.extend_from_slice(b"\x10\0\0\0\x04")?;
    bytes.extend_from_slice(&TABLES_AT.wrapping_sub(at.wrapping_add(17)).to_le_bytes())?;
    bytes.extend_from_slice(b"\0\0\0\0")?;
    Ok(bytes)
}

#[test]
fn common_records(rt: HostRuntime) -> Result<(), Fail> {
    let alloc = rt.alloc();
    for (case, (after, is_read)) in COMMONS.iter().enumerate() {
        let frames = frames_of(alloc, after)?;
        let pad = if *is_read { 0x1_0040 } else { 0 };
        let bytes = file(alloc, &frames, &TABLES, &[])?;
        expect(
            &rt,
            alloc,
            case,
            bytes,
            [0x1_0003, 0x1_0004, 0x1_0107],
            [pad, 0, 0],
        )?;
    }
    Ok(())
}

/// The frames with a record of no length before them, in the further section alone, and in both: of
/// equal beginnings the first section's count.
#[test]
fn two_sections(rt: HostRuntime) -> Result<(), Fail> {
    let alloc = rt.alloc();
    let empty: &[u8] = b"\0\0\0\0";
    // Frames at 22000 say of the function at 12000 what those at 20000 say of that at 10000, by
    // tables at 23000, which are not there, unless their pointers are moved to 21000.
    let moved = edited(alloc, &FRAMES, &[(46, 0xEF), (47, 0xFF), (48, 0xFF)])?;
    let calls = [0x1_0003, 0x1_2003, 0x1_2009];
    let bytes = file(alloc, empty, &TABLES, &moved)?;
    expect(&rt, alloc, 0, bytes, calls, [0, 0x1_2040, 0x1_2050])?;
    let bytes = file(alloc, &FRAMES, &TABLES, &moved)?;
    expect(&rt, alloc, 1, bytes, calls, [0x1_0040, 0x1_2040, 0x1_2050])?;
    let mut after = Vec::from_slice(alloc, empty)?;
    after.extend_from_slice(&FRAMES)?;
    // Four bytes further on, all pointers are four more: to the functions, and to the tables.
    let mut tables = Vec::from_slice(alloc, empty)?;
    tables.extend_from_slice(&TABLES)?;
    let bytes = file(alloc, &after, &tables, &[])?;
    let calls = [0x1_0007, 0x1_000D, 0x1_010B];
    expect(&rt, alloc, 2, bytes, calls, [0x1_0044, 0x1_0054, 0x1_0124])
}

/// Sections that are not of frames, or not read: by name, type and flags; and names that are none.
#[test]
fn other_sections(rt: HostRuntime) -> Result<(), Fail> {
    let alloc = rt.alloc();
    let rows: [(Made<'static>, Made<'static>, Made<'static>, bool); 12] = [
        (
            (1, 1, 2, FRAMES_AT, &FRAMES),
            (0, 1, 2, TABLES_AT, &TABLES),
            (0, 3, 0, 0, NAMES),
            true,
        ),
        (
            (1, 1, 6, FRAMES_AT, &FRAMES),
            (0, 1, 6, TABLES_AT, &TABLES),
            (0, 3, 0, 0, NAMES),
            true,
        ),
        (
            (1, 1, 3, FRAMES_AT, &FRAMES),
            (0, 1, 2, TABLES_AT, &TABLES),
            (0, 3, 0, 0, NAMES),
            false,
        ),
        (
            (1, 1, 0, FRAMES_AT, &FRAMES),
            (0, 1, 2, TABLES_AT, &TABLES),
            (0, 3, 0, 0, NAMES),
            false,
        ),
        (
            (1, 7, 2, FRAMES_AT, &FRAMES),
            (0, 1, 2, TABLES_AT, &TABLES),
            (0, 3, 0, 0, NAMES),
            false,
        ),
        (
            (11, 1, 2, FRAMES_AT, &FRAMES),
            (0, 1, 2, TABLES_AT, &TABLES),
            (0, 3, 0, 0, NAMES),
            false,
        ),
        (
            (2, 1, 2, FRAMES_AT, &FRAMES),
            (0, 1, 2, TABLES_AT, &TABLES),
            (0, 3, 0, 0, NAMES),
            false,
        ),
        (
            (200, 1, 2, FRAMES_AT, &FRAMES),
            (0, 1, 2, TABLES_AT, &TABLES),
            (0, 3, 0, 0, NAMES),
            false,
        ),
        (
            (1, 1, 2, FRAMES_AT, &FRAMES),
            (0, 1, 3, TABLES_AT, &TABLES),
            (0, 3, 0, 0, NAMES),
            false,
        ),
        (
            (1, 1, 2, FRAMES_AT, &FRAMES),
            (0, 1, 0, TABLES_AT, &TABLES),
            (0, 3, 0, 0, NAMES),
            false,
        ),
        (
            (1, 1, 2, FRAMES_AT, &FRAMES),
            (0, 1, 2, TABLES_AT, &TABLES),
            (0, 1, 0, 0, NAMES),
            false,
        ),
        (
            (1, 1, 2, FRAMES_AT, &FRAMES),
            (0, 1, 2, TABLES_AT, &TABLES),
            (0, 3, 0, 0, b"\0.eh_frame"),
            false,
        ),
    ];
    for (case, (frames, tables, names, is_read)) in rows.iter().enumerate() {
        let bytes = with_sections(
            alloc,
            &[*frames, *tables, (0, 0, 0, 0, b"".as_slice()), *names],
        )?;
        let want = if *is_read {
            [0x1_0040, 0x1_0050, 0x1_0120]
        } else {
            [0; 3]
        };
        expect(&rt, alloc, case, bytes, IN_FRAMES, want)?;
    }
    // No section has the number of the names.
    let mut bytes = file(alloc, &FRAMES, &TABLES, &[])?;
    if let Some(index) = bytes.get_mut(62) {
        *index = 6;
    }
    expect(&rt, alloc, 12, bytes, IN_FRAMES, [0; 3])?;
    // A file without frames has no pads.
    let image = Image::parse(alloc, Vec::from_slice(alloc, &RET_FILE)?)?;
    same(&rt, &Landings::of(alloc, &image)?.at(0x1_0003), &None);
    Ok(())
}
