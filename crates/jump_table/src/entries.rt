//! The entries of a jump table.

ghost use Rattle.std.specs.Prelude.{◌≡◌, ◌+◌, ◌^◌, ◌<◌, Some, slice_get};
ghost use Rattle.jump_table.specs.Table.{IsTableOf, word_extended, doubleword};
ghost use Rattle.jump_table.specs.Table.{entry_at, target_by_entry, entry_target};
ghost use Rattle.jump_table.specs.Table.{targets_from, count_of, table_targets};

use crate::table::Table;
use crate::words::Words;
use elf_image::Image;

/// The target of entry number `i`, from 0, of a table of this image: a code address.
///
/// Only this entry is read: one data word, or two if entries are doublewords.
pub fn entry_target(image: &Image, table: &Table, i: u32) -> u64
    requires found { IsTableOf image.now table.now }
    requires inside { i < table.now.count }
    ensures { slice_get (table_targets image.now table.now) i ≡ Some result }
{
    target_at(image, table.base, table.width, table.add, i).unwrap()
}

/// How many entries of a table at `base` have a target, one after another from the first, at most
/// `bound`.
pub(crate) fn count_entries(image: &Image, base: u64, width: u8, add: u64, bound: u32) -> u32
    ensures { result ≡ count_of (targets_from image.now base width add 0 bound) }
{
    let words = Words::new(image, base);
    for i in 0..bound {
        if target_in(&words, width, add, i).is_none() {
            return i;
        }
    }
    bound
}

/// The target of entry number `i` of a table at `base`, if it is read-only data and leads into the
/// code.
pub(crate) fn target_at(image: &Image, base: u64, width: u8, add: u64, i: u32) -> Option<u64>
    ensures { result ≡ entry_target image.now base width add i }
{
    target_in(&Words::new(image, base), width, add, i)
}

/// The target of entry number `i` of a table of these words, if there is one.
#[inline(always)]
fn target_in(words: &Words, width: u8, add: u64, i: u32) -> Option<u64>
    ensures { result ≡ entry_target words.now.image.now words.now.base width add i }
{
    let at = u64::from(width) * u64::from(i);
    words.base.checked_add(at)?;
    let target = target_by_entry(add, entry_at(words, width, at)?);
    if words.image.is_code(target) {
        Some(target)
    } else {
        None
    }
}

// The entry that begins `at` bytes after the first: a word, sign extended, or a doubleword, of which
// each half is read by itself.
#[inline(always)]
fn entry_at(words: &Words, width: u8, at: u64) -> Option<u64>
    requires { words.now.base + at < 2 ^ 64 }
    ensures { result ≡ entry_at words.now.image.now width (words.now.base + at) }
{
    let low = words.word(at)?;
    if width == 8 {
        Some(doubleword(low, words.word(at + 4)?))
    } else {
        Some(word_extended(low))
    }
}

// The doubleword of two words.
fn doubleword(low: u32, high: u32) -> u64
    ensures { result ≡ doubleword low high }
{
    u64::from(high) << 32 | u64::from(low)
}

// The entry plus what is added, with bit 0 cleared.
fn target_by_entry(add: u64, entry: u64) -> u64
    ensures { result ≡ target_by_entry add entry }
{
    entry.wrapping_add(add) / 2 * 2
}

// The word, sign extended.
fn word_extended(word: u32) -> u64
    ensures { result ≡ word_extended word }
{
    i64::from(word.cast_signed()).cast_unsigned()
}
