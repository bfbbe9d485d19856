//! The code and the read-only data of the rows.

ghost use Rattle.std.specs.Prelude.{◌≡◌, ◌≤◌, ◌⊎◌, IfOk};
ghost use Rattle.cfg_vectors.specs.Rows.{IsRow, row_code, row_13_code, row_31_code, row_rodata};

use crate::Memory;
use crate::bytes::{halves, words};
use std::alloc::Global;

/// The code of a row, at the address 10000 (hexadecimal). Row 16 has one for each part.
#[tactic(auto, unfolding(crate::specs::Rows::row_code))]
pub(crate) fn row_code(alloc: Global, row: u32, part: u32) -> Result<Vec<u8>, Memory>
    requires { IsRow row part }
    ensures { IfOk result (λ code. code.items ≡ row_code row part) }
{
    match row {
        1 => words(alloc, &[0x00008067]),
        5 => words(alloc, &[0x00008067, 0x00008067]),
        6 => words(alloc, &[0x00000013, 0xFFF50513, 0xFE051EE3, 0x00008067]),
        7 => words(alloc, &[0x00010013, 0x00008067]),
        8 => words(alloc, &[0x00010013, 0xFE051FE3, 0x00008067]),
        9 => words(alloc, &[0x000000EF, 0x00008067]),
        10 => words(
            alloc,
            &[0x00050463, 0x008000EF, 0x00008067, 0xFF5FF0EF, 0x00008067],
        ),
        11 => words(alloc, &[0x00100097, 0x000080E7, 0x00100097, 0x00008067]),
        12 => words(alloc, &[0x04050063, 0x0000006F]),
        13 | 29 => one_table(alloc),
        14 => compressed_table(alloc),
        15 => two_tables(alloc),
        16 => row_16_code(alloc, part),
        28 => late_streams(alloc),
        30 => words(
            alloc,
            &[
                0x008000EF, 0x00008067, 0x008000EF, 0x00008067, 0xFF1FF0EF, 0x00008067,
            ],
        ),
        31 => many_splits(alloc),
        32 => open_table(alloc),
        33 => wide_table(alloc),
        34 => two_open_tables(alloc),
        _ => words(alloc, &[0x00050463, 0xFFDFF06F, 0x00008067, 0xFF5FF06F]),
    }
}

/// The code of rows 13 and 29: a jump through a table.
fn one_table(alloc: Global) -> Result<Vec<u8>, Memory>
    ensures { IfOk result (λ code. code.items ≡ row_13_code) }
{
    words(
        alloc,
        &[
            0x00700793, 0x02A7E263, 0x00020737, 0x00251513, 0x00E50533, 0x00052783, 0x00E787B3,
            0x00078067, 0x00008067, 0x00008067, 0x00008067, 0x00008067,
        ],
    )
}

/// The code of row 14: the same in compressed instructions.
#[tactic(auto, unfolding(crate::specs::Rows::row_code))]
fn compressed_table(alloc: Global) -> Result<Vec<u8>, Memory>
    ensures { IfOk result (λ code. code.items ≡ row_code 14 0) }
{
    halves(
        alloc,
        &[
            0x479D, 0xEA63, 0x00A7, 0x0737, 0x0002, 0x050A, 0x953A, 0x411C, 0x97BA, 0x8782, 0x8082,
            0x8082,
        ],
    )
}

/// The code of row 15: two jumps through tables that overlap.
#[tactic(auto, unfolding(crate::specs::Rows::row_code))]
fn two_tables(alloc: Global) -> Result<Vec<u8>, Memory>
    ensures { IfOk result (λ code. code.items ≡ row_code 15 0) }
{
    words(
        alloc,
        &[
            0x00300793, 0x02A7E063, 0x00020737, 0x00251513, 0x00E50533, 0x00052783, 0x00E787B3,
            0x00078067, 0x00008067, 0x00008067, 0x00100793, 0x02A7E263, 0x00020737, 0x00870713,
            0x00251513, 0x00E50533, 0x00052783, 0x00E787B3, 0x00078067, 0x00008067, 0x00008067,
            0x00008067,
        ],
    )
}

/// The code of a part of row 16: one instruction at which execution stops.
#[tactic(auto, unfolding(crate::specs::Rows::row_code))]
fn row_16_code(alloc: Global, part: u32) -> Result<Vec<u8>, Memory>
    requires { part ≤ 3 }
    ensures { IfOk result (λ code. code.items ≡ row_code 16 part) }
{
    match part {
        0 => halves(alloc, &[0x0001]),
        1 => halves(alloc, &[0x0013]),
        2 => words(alloc, &[0xC0001073]),
        _ => words(alloc, &[0x00000000]),
    }
}

/// The code of row 28: two streams of instructions that meet late.
#[tactic(auto, unfolding(crate::specs::Rows::row_code))]
fn late_streams(alloc: Global) -> Result<Vec<u8>, Memory>
    ensures { IfOk result (λ code. code.items ≡ row_code 28 0) }
{
    halves(
        alloc,
        &[
            0x0013, 0x0013, 0x0013, 0x0013, 0x0013, 0x0013, 0x0013, 0x0013, 0x0001, 0x8082,
        ],
    )
}

/// The code of row 31: 300 instructions that go on, and a return.
fn many_splits(alloc: Global) -> Result<Vec<u8>, Memory>
    ensures { IfOk result (λ code. code.items ≡ row_31_code) }
{
    let mut code = halves(alloc, &[0x0001; 300])?;
    code.extend_from_slice(&halves(alloc, &[0x8082])?)?;
    Ok(code)
}

/// The code of row 32: a jump through a table without a bound test.
#[tactic(auto, unfolding(crate::specs::Rows::row_code))]
fn open_table(alloc: Global) -> Result<Vec<u8>, Memory>
    ensures { IfOk result (λ code. code.items ≡ row_code 32 0) }
{
    words(
        alloc,
        &[
            0x00020737, 0x00251513, 0x00E50533, 0x00052783, 0x00E787B3, 0x00078067, 0x00008067,
            0x00008067,
        ],
    )
}

/// The code of row 33: a jump through a table of addresses, eight bytes each.
#[tactic(auto, unfolding(crate::specs::Rows::row_code))]
fn wide_table(alloc: Global) -> Result<Vec<u8>, Memory>
    ensures { IfOk result (λ code. code.items ≡ row_code 33 0) }
{
    words(
        alloc,
        &[
            0x00100793, 0x02A7E063, 0x00020737, 0x00351513, 0x00E50533, 0x00053783, 0x00078067,
            0x00008067, 0x00008067, 0x00008067,
        ],
    )
}

/// The code of row 34: two jumps through tables without a bound test, one inside the other.
#[tactic(auto, unfolding(crate::specs::Rows::row_code))]
fn two_open_tables(alloc: Global) -> Result<Vec<u8>, Memory>
    ensures { IfOk result (λ code. code.items ≡ row_code 34 0) }
{
    words(
        alloc,
        &[
            0x00020737, 0x00251513, 0x00E50533, 0x00052783, 0x00E787B3, 0x00078067, 0x00008067,
            0x00008067, 0x00020737, 0x00470713, 0x00251513, 0x00E50533, 0x00052783, 0x00E787B3,
            0x00078067, 0x00008067,
        ],
    )
}

/// The read-only data of a row, at the address 20000 (hexadecimal).
#[tactic(auto, unfolding(crate::specs::Rows::row_rodata))]
pub(crate) fn row_rodata(alloc: Global, row: u32) -> Result<Vec<u8>, Memory>
    ensures { IfOk result (λ rodata. rodata.items ≡ row_rodata row) }
{
    match row {
        13 => words(
            alloc,
            &[
                0xFFFF0020, 0xFFFF0020, 0xFFFF0020, 0xFFFF0020, 0xFFFF0020, 0xFFFF0020, 0xFFFF0020,
                0xFFFF0024, 0xFFFF002C,
            ],
        ),
        14 => words(
            alloc,
            &[
                0xFFFF0014, 0xFFFF0014, 0xFFFF0014, 0xFFFF0014, 0xFFFF0014, 0xFFFF0014, 0xFFFF0014,
                0xFFFF0014,
            ],
        ),
        15 => words(alloc, &[0xFFFF0020, 0xFFFF0020, 0xFFFF004C, 0xFFFF004C]),
        29 => words(
            alloc,
            &[
                0xFFFF0014, 0xFFFF001C, 0xFFFF0020, 0xFFFF0020, 0xFFFF0020, 0xFFFF0020, 0xFFFF0020,
                0xFFFF0020,
            ],
        ),
        32 => words(alloc, &[0xFFFF0018, 0xFFFF001C, 0x00000000]),
        33 => words(alloc, &[0x0001001C, 0x00000000, 0x00010020, 0x00000000]),
        34 => words(alloc, &[0xFFFF0018, 0xFFFF0038, 0x00000000]),
        _ => Ok(Vec::new(alloc)),
    }
}
