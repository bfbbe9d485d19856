//! Ranges of addresses.

ghost use Rattle.std.specs.Prelude.{◌≡◌, ◌≤◌, ◌∷◌, ◌||◌, IfOk, OnOk, IsTrue, max};
ghost use Rattle.std.specs.List.{list_any};
ghost use Rattle.std.specs.List.Sorted.{IsPermutation, IsNonDecreasingBy};
ghost use Rattle.rv_machine.specs.Inner.Extents.{is_inside, AreWhole, AreApart, StartBy};
ghost use Rattle.rv_machine.specs.Inner.Extents.{CoverSame};

use elf_image::Section;
use std::alloc::{AllocError, Global};

/// The addresses from `start` on, up to `end` and without it.
#[derive(Clone, Copy, Debug, PartialEq, Eq)]
pub(crate) struct Extent {
    pub(crate) start: u64,
    pub(crate) end: u64,
}

impl Extent {
    ghost use Rattle.std.specs.Prelude.{false};
    ghost use Rattle.elf_image.specs.FaultTests.{is_wrapping};
    ghost use Rattle.rv_machine.specs.FileMemory.{is_loaded};
    ghost use Rattle.rv_machine.specs.Inner.Extents.{section_extent};

    /// The addresses of a section that takes up memory.
    pub(crate) fn of_section(section: &Section) -> Extent
        requires loaded { IsTrue (is_loaded section.now) }
        requires in_memory { is_wrapping section.now ≡ false }
        ensures { result ≡ section_extent section.now }
    {
        Extent {
            start: section.address,
            end: section.address + section.size,
        }
    }
}

/// The same addresses as ranges that are apart from each other, in rising order.
/// Time: O(n log n) in the ranges. Memory: 32 bytes a range.
pub(crate) fn united(alloc: Global, extents: Vec<Extent>) -> Result<Vec<Extent>, AllocError>
    requires whole { AreWhole extents.items }
    ensures whole { IfOk result (λ v. AreWhole v.items) }
    ensures apart { IfOk result (λ v. AreApart v.items) }
    ensures same { IfOk result (λ v. CoverSame v.items extents.items) }
{
    let sorted = sorted_by_start(extents);
    let mut united = Vec::new(alloc);
    for i in 0..sorted.len() {
        add(&mut united, sorted[i])?;
    }
    Ok(united)
}

/// The ranges in the order of their starts.
fn sorted_by_start(mut extents: Vec<Extent>) -> Vec<Extent>
    ensures permutation { IsPermutation extents.items result.items }
    ensures sorted { IsNonDecreasingBy (λ e. e.start) result.items }
{
    extents.sort_unstable_by_key(|e| e.start);
    extents
}

/// Adds a range that starts no earlier than the others: it is joined to the last if it touches it.
fn add(united: &mut Vec<Extent>, next: Extent) -> Result<(), AllocError>
    requires start { StartBy next.start united.old.items }
    requires next { next.start ≤ next.end }
    requires whole { AreWhole united.old.items }
    requires apart { AreApart united.old.items }
    ensures start { OnOk result (StartBy next.start united.new.items) }
    ensures whole { OnOk result (AreWhole united.new.items) }
    ensures apart { OnOk result (AreApart united.new.items) }
    ensures same { OnOk result (CoverSame united.new.items (next ∷ united.old.items)) }
{
    match united.pop() {
        None => united.push(next)?,
        Some(last) if next.start <= last.end => united.push(joined(last, next))?,
        Some(last) => {
            united.push(last)?;
            united.push(next)?;
        }
    }
    Ok(())
}

/// Both ranges, of which the second starts no earlier than the first, and touches it.
fn joined(first: Extent, second: Extent) -> Extent
    ensures start { result.start ≡ first.start }
    ensures end { result.end ≡ max first.end second.end }
{
    Extent {
        start: first.start,
        end: first.end.max(second.end),
    }
}
