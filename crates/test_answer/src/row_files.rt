//! Each row's file against that of another tool, by its length and a hash of its bytes.

ghost use Rattle.std.specs.Prelude.{IsTrue};
ghost use Rattle.cfg_vectors.specs.Rows.{IsRow};

use crate::asserts::same_at;
use cfg_vectors::row_file;
use std::process::Abort;
use std::test::Fail;

/// A row, a part, the length of their file, and the hash of its bytes.
pub(crate) static FILES: [(u32, u32, usize, u64); 27] = [
    (1, 0, 264, 0xE532FABC1DF97F36),
    (5, 0, 528, 0x7293D68FBFD241F9),
    (5, 1, 448, 0x4EFE9D6B509BD2CB),
    (5, 2, 448, 0x7C499FEBA7A6FEFF),
    (5, 3, 448, 0x87391AA11F0D2443),
    (6, 0, 272, 0x7371429540F1D497),
    (7, 0, 448, 0x63C1247D13C74C19),
    (8, 0, 272, 0xFE492AB112FFDA7F),
    (9, 0, 264, 0x694320C05BD96F63),
    (10, 0, 280, 0xC69ED6312E3DEFED),
    (11, 0, 272, 0x9DB0082A82003F45),
    (12, 0, 264, 0x760E0EBE955B7906),
    (13, 0, 344, 0x172753AD48088D9D),
    (14, 0, 312, 0xE9DE17D315A2F35A),
    (15, 0, 544, 0x8E26954D9985750E),
    (16, 0, 264, 0x7B9121589847DE1E),
    (16, 1, 264, 0x5CB535940ADFB5CC),
    (16, 2, 264, 0xB05203FC28D6EDFA),
    (16, 3, 264, 0x6F70E56AD2EDA8FD),
    (17, 0, 456, 0xC128354C851ED736),
    (28, 0, 464, 0x885F51C845164BED),
    (29, 0, 336, 0xD531D764ED255389),
    (30, 0, 280, 0x5E815B6F148121B7),
    (31, 0, 8848, 0xCEF9CA7C9DF53CB6),
    (32, 0, 304, 0xC0ACC7E2FF9C0EA9),
    (33, 0, 312, 0x57A10EE702F73E2B),
    (34, 0, 520, 0x5CB833612114C48E),
];

/// Each byte added to 31 times what came before, modulo 2^64.
fn hash(bytes: &[u8]) -> u64 {
    let mut hash: u64 = 0;
    for byte in bytes {
        hash = hash.wrapping_mul(31).wrapping_add((*byte).into());
    }
    hash
}

fn is_row(row: u32, part: u32) -> bool
    ensures { IsTrue result → IsRow row part }
{
    let listed = row == 1 || (5 <= row && row <= 17) || (28 <= row && row <= 34);
    let parted = part == 0 || ((row == 5 || row == 16) && part <= 3);
    listed && parted
}

/// The file of a row; a number that is none of a row fails the test.
pub(crate) fn file_of(
    rt: &(impl Abort + AllocGlobal),
    row: u32,
    part: u32,
) -> Result<Vec<u8>, Fail> {
    assert!(rt; is_row(row, part));
    Ok(row_file(rt.alloc(), row, part)?)
}

#[test]
fn gives_every_row(rt: HostRuntime) -> Result<(), Fail> {
    for &(row, part, len, sum) in FILES.iter() {
        let file = file_of(&rt, row, part)?;
        same_at(&rt, &(row, part), &file.len(), &len);
        same_at(&rt, &(row, part), &hash(&file), &sum);
    }
    Ok(())
}
