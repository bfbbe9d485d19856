//! Made files against those of another program, which was written from the layout alone.

use crate::asserts::same_at;
use big_case::big_file;
use std::test::Fail;

/// The words that the slots of the program of four functions begin with.
static SLOTS_OF_FOUR: [&[u32]; 6] = [
    &[
        0x0000_0097,
        0x0800_80E7,
        0x0000_0097,
        0x0F80_80E7,
        0xFFF5_0513,
        0xFE05_1EE3,
        0x0000_8067,
    ],
    &[
        0x0000_0097,
        0x1000_80E7,
        0x0000_0097,
        0x1780_80E7,
        0xFFF5_0513,
        0x0015_8593,
        0xFE05_1EE3,
        0x0000_8067,
    ],
    &[
        0x0000_0097,
        0x1000_80E7,
        0x0000_0097,
        0x0F80_80E7,
        0x0005_0663,
        0x0000_0097,
        0x16C0_80E7,
        0x0000_8067,
    ],
    &[
        0x0000_0097,
        0x0800_80E7,
        0x0000_0097,
        0x0780_80E7,
        0x0040_0793,
        0x02A7_E663,
        0x01FF_0717,
        0xE687_0713,
        0x0025_1513,
        0x00E5_0533,
        0x0005_2783,
        0x00E7_87B3,
        0x0007_8067,
        0x0000_8067,
        0x0000_8067,
        0x0010_0513,
        0x0000_8067,
    ],
    &[0x0000_8067],
    &[0x0000_006F],
];

/// Its table, which stands after its code.
static TABLE_OF_FOUR: [u32; 4] = [0xFE01_01B4, 0xFE01_01B8, 0xFE01_01BC, 0xFE01_01C0];

/// How many functions a program has, the length of its file, and the hash of its bytes.
static CASES: [(u32, usize, u64); 5] = [
    (4, 1040, 0x42FD_7098_457C_EF9E),
    (5, 1168, 0xAEEE_AF2F_B2DA_EC82),
    (7, 1424, 0x6FC6_2C2A_A92E_2F80),
    (8, 1568, 0xD748_07C8_3B65_2103),
    (5000, 660512, 0xC26C_D4C0_9EB1_AC66),
];

/// Each byte added to 31 times what came before, modulo 2^64.
fn hash(bytes: &[u8]) -> u64 {
    let mut hash: u64 = 0;
    for byte in bytes {
        hash = hash.wrapping_mul(31).wrapping_add((*byte).into());
    }
    hash
}

/// The word at an offset; zero past the end.
fn word_at(bytes: &[u8], at: usize) -> u32 {
    let mut word: u32 = 0;
    for k in 0..4 {
        let byte = bytes.get(at.wrapping_add(3 - k)).copied().unwrap_or(0);
        word = word.wrapping_mul(256).wrapping_add(byte.into());
    }
    word
}

#[test]
fn makes_the_words_of_four_functions(rt: HostRuntime) -> Result<(), Fail> {
    let file = big_file(rt.alloc(), 4)?;
    for (i, words) in SLOTS_OF_FOUR.iter().enumerate() {
        for k in 0..32 {
            let want = words.get(k).copied().unwrap_or(0);
            same_at(&rt, &(i, k), &word_at(&file, 64 + 128 * i + 4 * k), &want);
        }
    }
    for (k, want) in TABLE_OF_FOUR.iter().enumerate() {
        same_at(&rt, &k, &word_at(&file, 64 + 128 * 6 + 4 * k), want);
    }
    Ok(())
}

#[test]
fn makes_whole_files(rt: HostRuntime) -> Result<(), Fail> {
    for &(n, len, sum) in CASES.iter() {
        assert!(rt; 4 <= n && n <= 100_000);
        let file = big_file(rt.alloc(), n)?;
        same_at(&rt, &n, &file.len(), &len);
        same_at(&rt, &n, &hash(&file), &sum);
    }
    Ok(())
}
