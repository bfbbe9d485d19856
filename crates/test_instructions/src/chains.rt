//! Sections that join, of even and odd sizes, and a word that two sections share.

ghost use Rattle.std.specs.Prelude.{◌≡◌};

use crate::asserts::{holds, same, same_at};
use chain_index::{ChainEnds, ChainIndex, one_chain_end};
use elf_image::{ElfError, Image};
use rv_flow::{flow_of_bytes, raw_flow};
use std::alloc::Global;
use std::process::Abort;
use std::test::Fail;

/// Six code sections, not in the order of their addresses. At 10000 (hexadecimal): `addi x0, x0, 0`
/// and two `c.nop`. At 10008: `c.nop` and `addi x0, x0, 0`. At 1000E: `c.nop` and the lower half of
/// `addi x0, x0, 0`. Its upper half is the first of the section at 10012; then come `c.nop` and a
/// single byte. At 10018: `c.jr x1`. At 10020: `c.nop`.
const FILE: [u8; 480] = [
    0x7F, 0x45, 0x4C, 0x46, 2, 1, 1, 0, 0, 0, 0, 0, 0, 0, 0, 0, 2, 0, 0xF3, 0, 1, 0, 0, 0, 0, 0, 1,
    0, 0, 0, 0, 0, 0, 0, 0, 0, 0, 0, 0, 0, 0x60, 0, 0, 0, 0, 0, 0, 0, 0, 0, 0, 0, 0x40, 0, 0, 0, 0,
    0, 0x40, 0, 6, 0, 0, 0, 0x13, 0, 0, 0, 1, 0, 1, 0, 1, 0, 0x13, 0, 0, 0, 1, 0, 0x13, 0, 0, 0, 1,
    0, 1, 0x82, 0x80, 1, 0, 0, 0, 0, 0, 0, 0, 0, 0, 0, 1, 0, 0, 0, 6, 0, 0, 0, 0, 0, 0, 0, 0xE, 0,
    1, 0, 0, 0, 0, 0, 0x4E, 0, 0, 0, 0, 0, 0, 0, 4, 0, 0, 0, 0, 0, 0, 0, 0, 0, 0, 0, 0, 0, 0, 0, 1,
    0, 0, 0, 0, 0, 0, 0, 0, 0, 0, 0, 0, 0, 0, 0, 0, 0, 0, 0, 1, 0, 0, 0, 6, 0, 0, 0, 0, 0, 0, 0, 0,
    0, 1, 0, 0, 0, 0, 0, 0x40, 0, 0, 0, 0, 0, 0, 0, 8, 0, 0, 0, 0, 0, 0, 0, 0, 0, 0, 0, 0, 0, 0, 0,
    1, 0, 0, 0, 0, 0, 0, 0, 0, 0, 0, 0, 0, 0, 0, 0, 0, 0, 0, 0, 1, 0, 0, 0, 6, 0, 0, 0, 0, 0, 0, 0,
    0x20, 0, 1, 0, 0, 0, 0, 0, 0x59, 0, 0, 0, 0, 0, 0, 0, 2, 0, 0, 0, 0, 0, 0, 0, 0, 0, 0, 0, 0, 0,
    0, 0, 1, 0, 0, 0, 0, 0, 0, 0, 0, 0, 0, 0, 0, 0, 0, 0, 0, 0, 0, 0, 1, 0, 0, 0, 6, 0, 0, 0, 0, 0,
    0, 0, 8, 0, 1, 0, 0, 0, 0, 0, 0x48, 0, 0, 0, 0, 0, 0, 0, 6, 0, 0, 0, 0, 0, 0, 0, 0, 0, 0, 0, 0,
    0, 0, 0, 1, 0, 0, 0, 0, 0, 0, 0, 0, 0, 0, 0, 0, 0, 0, 0, 0, 0, 0, 0, 1, 0, 0, 0, 6, 0, 0, 0, 0,
    0, 0, 0, 0x18, 0, 1, 0, 0, 0, 0, 0, 0x57, 0, 0, 0, 0, 0, 0, 0, 2, 0, 0, 0, 0, 0, 0, 0, 0, 0, 0,
    0, 0, 0, 0, 0, 1, 0, 0, 0, 0, 0, 0, 0, 0, 0, 0, 0, 0, 0, 0, 0, 0, 0, 0, 0, 1, 0, 0, 0, 6, 0, 0,
    0, 0, 0, 0, 0, 0x12, 0, 1, 0, 0, 0, 0, 0, 0x52, 0, 0, 0, 0, 0, 0, 0, 5, 0, 0, 0, 0, 0, 0, 0, 0,
    0, 0, 0, 0, 0, 0, 0, 1, 0, 0, 0, 0, 0, 0, 0, 0, 0, 0, 0, 0, 0, 0, 0,
];

/// Code addresses, where their chains end, and where control goes straight on to.
const CASES: [(u64, u64, Option<u64>); 13] = [
    (0x10000, 0x10010, Some(0x10004)),
    (0x10002, 0x10002, None),
    (0x10004, 0x10010, Some(0x10006)),
    (0x10006, 0x10010, Some(0x10008)),
    (0x10008, 0x10010, Some(0x1000A)),
    (0x1000A, 0x10010, Some(0x1000E)),
    (0x1000C, 0x1000C, None),
    (0x1000E, 0x10010, Some(0x10010)),
    (0x10010, 0x10010, None),
    (0x10012, 0x10012, None),
    (0x10014, 0x10014, None),
    (0x10018, 0x10018, None),
    (0x10020, 0x10020, None),
];

/// The image of the file with this many bytes of code at 10020 (hexadecimal), up to 10. After its
/// `c.nop` they are zeros, which are no instruction.
fn image(alloc: Global, last_size: u8) -> Result<Image, ElfError> {
    let mut bytes = Vec::from_slice(alloc, &FILE)?;
    if let Some(place) = bytes.get_mut(256) {
        *place = last_size;
    }
    Image::parse(alloc, bytes)
}

fn expect_ends(
    rt: &impl Abort,
    image: &Image,
    index: &ChainIndex,
    cases: &[(u64, u64, Option<u64>)],
)
    requires { index.now ≡ image.now }
{
    for &(a, end, next) in cases {
        assert!(rt; image.is_code(a));
        same_at(rt, &a, &index.term(a), &end);
        same_at(rt, &a, &index.next(a), &next);
        assert!(rt; index.is_code(a));
        let read = index.bytes_at(a);
        same_at(rt, &a, &Some(read.half), &image.half_at(a));
        same_at(rt, &a, &read.word, &image.word_at(a));
        same_at(
            rt,
            &a,
            &flow_of_bytes(image, a, read).flow,
            &raw_flow(image, a),
        );
    }
}

/// The index may be shared between threads.
fn shared<T: Sync>(_value: &T) {}

#[test]
fn chains_end_across_sections(rt: HostRuntime) -> Result<(), Fail> {
    let image = image(rt.alloc(), 2)?;
    let index = ChainIndex::new(rt.alloc(), &image)?;
    shared(&index);
    expect_ends(&rt, &image, &index, CASES.as_slice());
    Ok(())
}

/// The widest section is the last in memory, and no longer the first.
#[test]
fn widest_section_elsewhere(rt: HostRuntime) -> Result<(), Fail> {
    let image = image(rt.alloc(), 10)?;
    let index = ChainIndex::new(rt.alloc(), &image)?;
    let last = [
        (0x10020, 0x10022, Some(0x10022)),
        (0x10022, 0x10022, None),
        (0x10028, 0x10028, None),
    ];
    expect_ends(&rt, &image, &index, &CASES[..12]);
    expect_ends(&rt, &image, &index, last.as_slice());
    Ok(())
}

/// The file has 13 halfwords of code: four at 10000 (hexadecimal), three at 10008, two at 1000E,
/// two at 10012, and one each at 10018 and 10020.
#[test]
fn bounds_cut_evenly(rt: HostRuntime) -> Result<(), Fail> {
    let image = image(rt.alloc(), 2)?;
    let index = ChainIndex::new(rt.alloc(), &image)?;
    holds(&rt, index.bounds(rt.alloc(), 1)?.is_empty());
    same(
        &rt,
        &index.bounds(rt.alloc(), 2)?.as_slice(),
        &[0x1000C].as_slice(),
    );
    let bounds = index.bounds(rt.alloc(), 4)?;
    same(
        &rt,
        &bounds.as_slice(),
        &[0x10006, 0x1000C, 0x10012].as_slice(),
    );
    same(&rt, &index.bounds(rt.alloc(), 64)?.len(), &63);
    Ok(())
}

/// This many workers give what one does; for sections as short as these no thread is started.
#[test]
fn more_workers(rt: HostRuntime) -> Result<(), Fail> {
    let image = image(rt.alloc(), 2)?;
    for workers in [1, 2, 64] {
        let reaches = ChainEnds::new_by(&rt, rt.alloc(), &image, workers)?;
        let index = ChainIndex::of(&image, reaches);
        expect_ends(&rt, &image, &index, CASES.as_slice());
    }
    Ok(())
}

/// The address, the offset and the size of a section of 150,000 bytes at 20000 (hexadecimal), at
/// the end of the file above: 75,000 halfwords, for which threads are started.
const LONG_RUN: [u8; 24] = [
    0, 0, 2, 0, 0, 0, 0, 0, 0xE0, 1, 0, 0, 0, 0, 0, 0, 0xF0, 0x49, 2, 0, 0, 0, 0, 0,
];

/// Those of a section of 33 bytes that joins it.
const ITS_REST: [u8; 24] = [
    0xF0, 0x49, 4, 0, 0, 0, 0, 0, 0xD0, 0x4B, 2, 0, 0, 0, 0, 0, 33, 0, 0, 0, 0, 0, 0, 0,
];

/// An image with one long run at 20000 (hexadecimal), over two sections that join: `addi x0, x0, 0`
/// and `c.nop` by turns, 75,016 halfwords. The second section has the last 16 of them, and a single
/// byte after them. The last halfword is the lower half of an instruction that is not there whole.
fn long_run(alloc: Global) -> Result<Image, ElfError> {
    let mut bytes = Vec::new(alloc);
    let parts = [
        &FILE[..240],
        LONG_RUN.as_slice(),
        &FILE[264..368],
        ITS_REST.as_slice(),
        &FILE[392..],
    ];
    for part in parts {
        bytes.extend_from_slice(part)?;
    }
    for _ in 0..25_006 {
        bytes.extend_from_slice(&[0x13, 0, 0, 0, 1, 0])?;
    }
    Image::parse(alloc, bytes)
}

/// The run goes over several ranges, which begin at either instruction and in the middle of the one
/// of four bytes.
#[test]
fn long_run_in_stretches(rt: HostRuntime) -> Result<(), Fail> {
    let image = long_run(rt.alloc())?;
    for workers in [1, 2, 3, 4, 7, 64] {
        let reaches = ChainEnds::new_by(&rt, rt.alloc(), &image, workers)?;
        let index = ChainIndex::of(&image, reaches);
        for i in 0..75_016u64 {
            let a = 0x20000 + 2 * i;
            let end = if i % 3 == 1 { a } else { 0x44A0E };
            assert!(rt; image.is_code(a));
            same_at(&rt, &(a, workers), &index.term(a), &end);
        }
    }
    Ok(())
}

#[test]
fn laws_hold() {
    one_chain_end();
}
