//! Exception tables (Itanium C++ ABI, "Exception Handling Tables"; the layout is that of the
//! language-specific data area of GCC).

ghost use Rattle.std.specs.Prelude.{◌≡◌, ◌<◌, ◌++◌, [], ◌∷◌, length, IfSome, OnOk};
ghost use Rattle.std.specs.Option.{option_map};
ghost use Rattle.landing_pads.specs.Table as spec;
ghost use Rattle.landing_pads.specs.Inner.{place_of, read_of};

use crate::common::OMITTED;
use crate::cursor::Cursor;
use crate::frame::Frame;
use crate::range::Range;
use elf_image::Image;
use std::alloc::AllocError;

/// An entry of a table, as it stands there.
#[derive(Clone, Copy, Debug, PartialEq, Eq)]
pub(crate) struct Entry {
    /// Where its range begins, in bytes from the start of the function.
    pub(crate) from: u64,
    /// The length of the range in bytes.
    pub(crate) len: u64,
    /// Where its pad is, in bytes from the base of the table; 0 if it has none.
    pub(crate) to: u64,
}

/// Where landing pads count from, if the function begins at `start`.
#[tactic(auto, unfolding(crate::specs::Table::base))]
fn base(start: u64, cursor: Cursor<'_>) -> Option<(u64, Cursor<'_>)>
    ensures { read_of result ≡ spec.base start (place_of cursor.entry) }
{
    let (encoding, rest) = cursor.byte()?;
    if encoding == OMITTED {
        Some((start, rest))
    } else {
        rest.pointer(encoding)
    }
}

/// The distance of the table of types is passed over.
#[tactic(auto, unfolding(crate::specs::Table::types))]
fn types(cursor: Cursor<'_>) -> Option<Cursor<'_>>
    ensures { option_map place_of result ≡ spec.types (place_of cursor.entry) }
{
    let (encoding, rest) = cursor.byte()?;
    if encoding == OMITTED {
        return Some(rest);
    }
    let (_, rest) = rest.uleb128()?;
    Some(rest)
}

/// The bytes of the entries, after their size.
fn sized(cursor: Cursor<'_>) -> Option<Cursor<'_>>
    ensures { option_map place_of result ≡ spec.sized (place_of cursor.entry) }
{
    let (size, rest) = cursor.uleb128()?;
    rest.first(size)
}

/// The encoding of the entries, and their bytes.
#[tactic(auto, unfolding(crate::specs::Table::entry_bytes))]
fn entry_bytes(cursor: Cursor<'_>) -> Option<(u8, Cursor<'_>)>
    ensures { read_of result ≡ spec.entry_bytes (place_of cursor.entry) }
{
    let (encoding, rest) = cursor.byte()?;
    if encoding / 16 != 0 {
        return None;
    }
    let entries = sized(rest)?;
    Some((encoding, entries))
}

/// The base of pads, the encoding of the entries, and their bytes.
#[tactic(auto, unfolding(crate::specs::Table::head))]
fn head(start: u64, cursor: Cursor<'_>) -> Option<(u64, u8, Cursor<'_>)>
    ensures { option_map (λ h. (h.0, h.1, place_of h.2)) result
        ≡ spec.head start (place_of cursor.entry) }
{
    let (base, rest) = base(start, cursor)?;
    let rest = types(rest)?;
    let (encoding, entries) = entry_bytes(rest)?;
    Some((base, encoding, entries))
}

/// One entry.
#[tactic(auto, unfolding(crate::specs::Table::entry))]
fn read_entry(encoding: u8, cursor: Cursor<'_>) -> Option<(Entry, Cursor<'_>)>
    ensures value { read_of result ≡ spec.entry encoding (place_of cursor.entry) }
    ensures shorter { IfSome result
        (λ r. length r.1.bytes.now < length cursor.entry.bytes.now) }
{
    let (from, rest) = cursor.number(encoding)?;
    let (len, rest) = rest.number(encoding)?;
    let (to, rest) = rest.number(encoding)?;
    let (_, rest) = rest.uleb128()?;
    Some((Entry { from, len, to }, rest))
}

/// The range of an entry of the code from `start` on.
fn range_of(start: u64, base: u64, e: Entry) -> Range
    ensures { result ≡ spec.range_of start base e }
{
    Range {
        begin: start.wrapping_add(e.from),
        len: e.len,
        pad: base.wrapping_add(e.to),
    }
}

/// Puts the range of an entry, if it has a pad, after those that are there.
fn push_entry(start: u64, base: u64, e: Entry, ranges: &mut Vec<Range>) -> Result<(), AllocError>
    ensures { OnOk result
        (ranges.new.items ≡ ranges.old.items ++ spec.ranges_of start base (e ∷ [])) }
{
    if e.to != 0 {
        ranges.push(range_of(start, base, e))?;
    }
    Ok(())
}

/// Puts the ranges of all entries after those that are there.
fn push_entries(
    start: u64,
    base: u64,
    encoding: u8,
    entries: Cursor<'_>,
    ranges: &mut Vec<Range>,
) -> Result<(), AllocError>
    ensures { OnOk result (ranges.new.items ≡ ranges.old.items
        ++ spec.ranges_of start base (spec.entries encoding (place_of entries.entry))) }
{
    let mut rest = entries;
    while let Some((e, after)) = read_entry(encoding, rest) {
        push_entry(start, base, e, ranges)?;
        rest = after;
    }
    Ok(())
}

/// Puts the ranges of a table after those that are there.
#[tactic(auto, unfolding(crate::specs::Table::table_ranges))]
fn push_table(start: u64, table: Cursor<'_>, ranges: &mut Vec<Range>) -> Result<(), AllocError>
    ensures { OnOk result (ranges.new.items
        ≡ ranges.old.items ++ spec.table_ranges start (place_of table.entry)) }
{
    match head(start, table) {
        Some((base, encoding, entries)) => push_entries(start, base, encoding, entries, ranges),
        None => Ok(()),
    }
}

/// Puts the ranges of a frame after those that are there.
/// Time: O(n) in the bytes of its table.
#[tactic(auto, unfolding(crate::specs::Table::frame_ranges))]
pub(crate) fn push_frame(
    image: &Image,
    frame: Frame,
    ranges: &mut Vec<Range>,
) -> Result<(), AllocError>
    ensures { OnOk result
        (ranges.new.items ≡ ranges.old.items ++ spec.frame_ranges image.now frame) }
{
    if frame.table == 0 {
        return Ok(());
    }
    let Some(bytes) = image.bytes_from(frame.table) else {
        return Ok(());
    };
    let address = frame.table;
    push_table(frame.start, Cursor { address, bytes }, ranges)
}
