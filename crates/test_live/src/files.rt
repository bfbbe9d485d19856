//! The files of worked programs.

use cfg_vectors::row_file;
use std::process::Abort;
use std::test::Fail;

/// Where the code of a row's file stands.
const CODE_AT: usize = 64;

/// Row 30's file, which has no symbols, with these words in place of its first ones. Its code
/// stands at 10000 (hexadecimal), where the program starts, and has six words.
pub(crate) fn plain_file(rt: &impl AllocGlobal, words: &[u32]) -> Result<Vec<u8>, Fail> {
    Ok(with_code(row_file(rt.alloc(), 30, 0)?, words))
}

/// Row 17's file, which has a symbol at 1000C (hexadecimal), with these words in place of its
/// first ones. Its code stands at 10000, where the program starts, and has four words.
pub(crate) fn named_file(rt: &impl AllocGlobal, words: &[u32]) -> Result<Vec<u8>, Fail> {
    Ok(with_code(row_file(rt.alloc(), 17, 0)?, words))
}

/// The file with these words in place of the first ones of its code.
fn with_code(mut file: Vec<u8>, words: &[u32]) -> Vec<u8> {
    let mut at = CODE_AT;
    for &word in words.iter() {
        put_word(&mut file, at, word);
        at = at.saturating_add(4);
    }
    file
}

/// Writes the four bytes of a word to a place of a file.
fn put_word(file: &mut [u8], at: usize, word: u32) {
    for (place, byte) in file.iter_mut().skip(at).zip(word.to_le_bytes()) {
        *place = byte;
    }
}
