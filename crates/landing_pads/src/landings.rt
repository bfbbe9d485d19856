//! The landing pads of an image.

ghost use Rattle.std.specs.Prelude.{◌≡◌, ℕ, None, IfOk, IsTrue};
ghost use Rattle.landing_pads.specs.Pad.{pad_at, pad_in, ranges, AreByBegin};

use crate::Memory;
use crate::frames::ranges_of;
use crate::range::{Range, nearest};
use elf_image::Image;
use std::alloc::Global;
use std::marker::Model;

/// The landing pads of an image. To a contract it is the list of the file's bytes.
#[derive(Drop)]
pub struct Landings<'a> {
    image: &'a Image,
    /// The ranges in the order of their beginnings, those of one beginning as they stand in the file.
    ranges: Vec<Range>,
}

impl<'a> Model for Landings<'a> {
    ghost use Rattle.std.specs.Prelude.{List, ℕ};

    ghost Value = { List ℕ };

    ghost use Rattle.landing_pads.specs.Pad.{ranges as ranges_of_file, AreByBegin};

    ghost view = { λ l. l.image.now };

    ghost invariant = { λ l. AreByBegin (ranges_of_file l.image.now) l.ranges.items };
}

impl<'a> Landings<'a> {
    /// The landing pads of an image. The only error is that memory ran out.
    ///
    /// Time: O(n log n + t + r log r) for n bytes of frames, r ranges, and t bytes of tables, where a
    /// table counts for each frame that names it. Memory: 24 bytes a range. By the definition a table
    /// that many frames name has other ranges for each. So in a hostile file both can grow with the
    /// square of its size; in files of compilers each table has one frame.
    pub fn of(alloc: Global, image: &'a Image) -> Result<Landings<'a>, Memory>
        ensures { IfOk result (λ l. l ≡ image.now) }
    {
        let ranges = by_begin(alloc, image)?;
        Ok(Landings { image, ranges })
    }

    /// The pad of the call whose last byte stands at `b`: by the ranges alone, so whether there is
    /// code at it is not asked.
    /// Time: O(log n) for n ranges. Memory: none.
    pub fn at(&self, b: u64) -> Option<u64>
        ensures { result ≡ pad_at self.now b }
    {
        let r = nearest(&self.ranges, b)?;
        pad_in(b, r)
    }

    /// Whether there is no range, so that no call has a pad.
    /// Time: O(1). Memory: none.
    #[inline]
    pub fn is_empty(&self) -> bool
        ensures { IsTrue result → (b : ℕ) → pad_at self.now b ≡ None }
    {
        self.ranges.is_empty()
    }

    /// All ranges in the order of their beginnings, those of one beginning as they stand in the file.
    pub fn ranges(&self) -> &[Range]
        ensures { AreByBegin (ranges self.now) result.now }
    {
        &self.ranges
    }
}

/// The pad of a range that begins at `b` or before, if it has the byte at `b`.
fn pad_in(b: u64, r: Range) -> Option<u64>
    ensures { result ≡ pad_in b r }
{
    if b.saturating_sub(r.begin) < r.len {
        Some(r.pad)
    } else {
        None
    }
}

/// The ranges in the order of their beginnings.
fn by_begin(alloc: Global, image: &Image) -> Result<Vec<Range>, Memory>
    ensures { IfOk result (λ v. AreByBegin (ranges image.now) v.items) }
{
    let mut found = ranges_of(alloc, image)?;
    found.sort_by_key(|r| r.begin)?;
    Ok(found)
}
