//! The bytes of the file of a case.

ghost use Rattle.std.specs.Prelude.{IsTrue};
ghost use Rattle.cfg_vectors.specs.Rows.{IsRow};

use anyhow::{Context, Result, bail};
use cfg_vectors::row_file;
use std::alloc::Global;

/// Whether these are a row that has a file, and one of its parts.
fn is_row(row: u32, part: u32) -> bool
    ensures { IsTrue result → IsRow row part }
{
    let listed = row == 1 || (5 <= row && row <= 17) || (28 <= row && row <= 34);
    let parted = part == 0 || ((row == 5 || row == 16) && part <= 3);
    listed && parted
}

/// The file that these words name: `row R P` or `zeros N`.
pub(crate) fn file_of(alloc: Global, words: &str) -> Result<Vec<u8>> {
    match words.split_once(' ') {
        Some(("row", row)) => file_of_row(alloc, row),
        Some(("zeros", count)) => {
            let count = count.parse::<usize>().context("how many zeros")?;
            Ok(Vec::from_elem(alloc, 0, count)?)
        }
        _ => bail!("a file is that of a row, or has zeros"),
    }
}

/// The file of a row and a part.
fn file_of_row(alloc: Global, words: &str) -> Result<Vec<u8>> {
    let (row, part) = words.split_once(' ').context("a row and a part")?;
    let row = row.parse::<u32>().context("the number of a row")?;
    let part = part.parse::<u32>().context("the number of a part")?;
    if !is_row(row, part) {
        bail!("no such row has a file");
    }
    Ok(row_file(alloc, row, part)?)
}

/// Writes the bytes that these words say, `AT B..`, into a file.
pub(crate) fn put_bytes(file: &mut [u8], words: &str) -> Result<()> {
    let (at, bytes) = words.split_once(' ').context("an offset, and bytes")?;
    let mut at = at.parse::<usize>().context("an offset")?;
    for byte in bytes.split(' ') {
        let byte = u8::from_str_radix(byte, 16).context("a byte")?;
        put(file, at, &[byte])?;
        at = at.saturating_add(1);
    }
    Ok(())
}

/// Writes the words that these words say, `AT W..`, into a file, the lowest byte of each first.
pub(crate) fn put_words(file: &mut [u8], words: &str) -> Result<()> {
    let (at, numbers) = words.split_once(' ').context("an offset, and words")?;
    let mut at = at.parse::<usize>().context("an offset")?;
    for number in numbers.split(' ') {
        let number = u32::from_str_radix(number, 16).context("a word")?;
        put(file, at, &number.to_le_bytes())?;
        at = at.saturating_add(4);
    }
    Ok(())
}

/// Writes these bytes from an offset on.
fn put(file: &mut [u8], at: usize, bytes: &[u8]) -> Result<()> {
    if at > file.len() || bytes.len() > file.len() - at {
        bail!("bytes past the end of the file");
    }
    for (place, byte) in file.iter_mut().skip(at).zip(bytes) {
        *place = *byte;
    }
    Ok(())
}
