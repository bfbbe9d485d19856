//! The live registers of worked programs, told by hand from the definition.

use crate::all_calls::{Wanted, has_lives, lives_of_file};
use crate::asserts::holds_at;
use crate::files::{named_file, plain_file};
use big_case::big_file;
use std::test::Fail;

/// Code at 10000 (hexadecimal), and the blocks of its one function with their masks.
type Worked = (&'static [u32], &'static [Wanted]);

/// Programs of one function.
static ONE_FUNCTION: [Worked; 8] = [
    // Row 40: x10 is written, and the return reads x1 and leaves all others live.
    (&[0x0000_0513, 0x0000_8067], &[(0x10000, 0xFFFF_FBFE)]),
    // Row 41: a jump to itself reads nothing.
    (&[0x0000_006F], &[(0x10000, 0)]),
    // x10 is read before it is written; the jump to the function's own entry stays inside.
    (&[0xFFF5_0513, 0xFFDF_F06F], &[(0x10000, 0x400)]),
    // A branch that reads x10 and x11, a loop, and a way out over a store of x12 that x11 holds the
    // address of, before execution stops.
    (
        &[0x00B5_0463, 0x0000_006F, 0x00C5_A023, 0x0010_0073],
        &[(0x10000, 0x1C00), (0x10004, 0), (0x10008, 0x1800)],
    ),
    // CSRRSI reads no register, though the field of its source says 5; it writes x10.
    (&[0x0012_E573, 0x0000_006F], &[(0x10000, 0), (0x10004, 0)]),
    // CSRRS reads x5.
    (
        &[0x0012_A573, 0x0000_006F],
        &[(0x10000, 0x20), (0x10004, 0)],
    ),
    // ECALL reads all registers, but x10 was written before.
    (
        &[0x0000_0513, 0x0000_0073, 0x0000_006F],
        &[(0x10000, 0xFFFF_FBFE), (0x10008, 0)],
    ),
    // An unknown jump through x6, which is written before, leaves all others live.
    (
        &[0x0000_0317, 0x0003_3303, 0x0003_0067],
        &[(0x10000, 0xFFFF_FFBE)],
    ),
];

#[test]
fn masks_of_one_function(rt: HostRuntime) -> Result<(), Fail> {
    for &(code, lives) in ONE_FUNCTION.iter() {
        has_lives(&rt, plain_file(&rt, code)?, &[lives])?;
    }
    Ok(())
}

/// Row 10: a call writes x1, and leaves all others live; the branch before it hands on what is live
/// at the return.
#[test]
fn call_leaves(rt: HostRuntime) -> Result<(), Fail> {
    let code = [
        0x0005_0463,
        0x0080_00EF,
        0x0000_8067,
        0xFF5F_F0EF,
        0x0000_8067,
    ];
    let first: &[Wanted] = &[
        (0x10000, 0xFFFF_FFFE),
        (0x10004, 0xFFFF_FFFC),
        (0x10008, 0xFFFF_FFFE),
    ];
    let second: &[Wanted] = &[(0x1000C, 0xFFFF_FFFC), (0x10010, 0xFFFF_FFFE)];
    has_lives(&rt, plain_file(&rt, &code)?, &[first, second])
}

/// A fall into the entry of another function and a jump to it leave; a jump to the function's own
/// entry does not.
#[test]
fn other_entry_leaves(rt: HostRuntime) -> Result<(), Fail> {
    // x10 and x11 are written, and the program falls into the second function.
    let falls = [0x0000_0513, 0x0000_0593, 0x0000_0013, 0x0000_006F];
    has_lives(
        &rt,
        named_file(&rt, &falls)?,
        &[&[(0x10000, 0xFFFF_F3FE)], &[(0x1000C, 0)]],
    )?;
    // The second function jumps to the first one, which reads nothing.
    let jumps = [0x0000_006F, 0x0000_0013, 0x0000_0013, 0xFF5F_F06F];
    has_lives(
        &rt,
        named_file(&rt, &jumps)?,
        &[&[(0x10000, 0)], &[(0x1000C, 0xFFFF_FFFE)]],
    )
}

/// A program of several pieces, which the workers share.
#[test]
fn several_pieces(rt: HostRuntime) -> Result<(), Fail> {
    let all = lives_of_file(&rt, big_file(rt.alloc(), 1000)?)?;
    let mut blocks: usize = 0;
    for lives in all.iter() {
        blocks = blocks.saturating_add(lives.as_slice().len());
    }
    holds_at(&rt, &blocks, blocks > 5000);
    Ok(())
}
