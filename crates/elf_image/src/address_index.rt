//! Sections kept to be searched by address: in logarithmic time if none shares an address with
//! another, and else one after the other.

ghost use Rattle.std.specs.Prelude.{◌≡◌, ℕ, ◌+◌, ◌<◌, ◌≤◌, nat_le, not, length, IsTrue, IfOk, Some};
ghost use Rattle.std.specs.Prelude.{IsSome, is_some};
ghost use Rattle.std.specs.Bool.{MatchBool};
ghost use Rattle.std.specs.Option.{option_copied};
ghost use Rattle.std.specs.List.{find, All};
ghost use Rattle.std.specs.List.Sorted.{IsPermutation, IsNonDecreasingBy};
ghost use Rattle.elf_image.specs.Sections.{holds_bytes};
ghost use Rattle.elf_image.specs.FaultTests.{any_pair, shares_address};
ghost use Rattle.elf_image.specs.Inner.AddressIndex.{IsLaidOut, HasOverhang, FindsSame};

use crate::section::Section;
use std::alloc::{AllocError, Global};

/// Sections that are not empty: in the order of their addresses if none shares an address with
/// another, which is how a linker makes them, and else in the order in which they were given.
#[derive(Drop)]
pub(crate) struct AddressIndex {
    sections: Vec<Section>,
    /// The place of the widest of them, where most addresses lie; 0 if there is none.
    widest: usize,
    is_laid_out: bool,
    ghost laid_out: { IsTrue is_laid_out → IsLaidOut sections.items },
}

impl AddressIndex {
    /// Prepares the sections.
    pub(crate) fn new(alloc: Global, sections: Vec<Section>) -> Result<AddressIndex, AllocError>
        requires { All (λ s. 0 < s.size) sections.items }
        ensures same { IfOk result (λ index. FindsSame index.sections.items sections.items) }
        ensures overlap { IfOk result
            (λ index. not index.is_laid_out ≡ any_pair shares_address sections.items) }
    {
        let sorted = sorted_by_address(alloc, &sections)?;
        if is_laid_out(&sorted) {
            return Ok(AddressIndex {
                widest: widest(&sorted),
                sections: sorted,
                is_laid_out: true,
            });
        }
        Ok(AddressIndex {
            widest: widest(&sections),
            sections,
            is_laid_out: false,
        })
    }

    /// Whether two of the sections share an address.
    pub(crate) fn overlap(&self) -> bool
        ensures { result ≡ not self.now.is_laid_out }
    {
        !self.is_laid_out
    }

    /// The first section that has the `n` bytes from address `a` on.
    /// Time: O(1) in the widest of k sections, else O(log k); O(k) if two share an address.
    #[inline]
    pub(crate) fn find(&self, a: u64, n: u64) -> Option<&Section>
        requires { 0 < n }
        ensures { option_copied result ≡ find (holds_bytes a n) self.now.sections.items }
    {
        if self.is_laid_out {
            find_laid_out(&self.sections, self.widest, a, n)
        } else {
            find_first(&self.sections, a, n)
        }
    }

    /// Whether a section has the `n` bytes from address `a` on.
    /// Time: as [`find`](Self::find), with no call if the widest has them.
    #[inline(always)]
    pub(crate) fn has(&self, a: u64, n: u64) -> bool
        requires { 0 < n }
        ensures { result ≡ is_some (find (holds_bytes a n) self.now.sections.items) }
    {
        self.is_in_widest(a, n) || self.find(a, n).is_some()
    }

    /// Whether the widest section has the `n` bytes from address `a` on.
    #[inline(always)]
    fn is_in_widest(&self, a: u64, n: u64) -> bool
        ensures { IsTrue result → IsSome (find (holds_bytes a n) self.now.sections.items) }
    {
        match self.sections.get(self.widest) {
            Some(s) => s.holds_bytes(a, n),
            None => false,
        }
    }

    /// How many bytes from `a` on can be read of `s`, the first section that has the `n` bytes at
    /// `a`: a search for `n` of them finds `s` again. They go up to the end of `s` if no two
    /// sections share an address; else they are those `n` alone.
    pub(crate) fn found_from(&self, s: &Section, a: u64, n: u64) -> u64
        requires some { 0 < n }
        requires found { find (holds_bytes a n) self.now.sections.items ≡ Some s.now }
        requires start { s.now.address ≤ a }
        requires end { a + n ≤ s.now.address + s.now.size }
        ensures first { n ≤ result }
        ensures within { a + result ≤ s.now.address + s.now.size }
        ensures same { (i : ℕ) → i + n ≤ result
            → find (holds_bytes (a + i) n) self.now.sections.items ≡ Some s.now }
    {
        if self.is_laid_out {
            s.size - (a - s.address)
        } else {
            n
        }
    }
}

/// The sections in the order of their addresses.
fn sorted_by_address(alloc: Global, sections: &[Section]) -> Result<Vec<Section>, AllocError>
    ensures permutation { IfOk result (λ v. IsPermutation sections.now v.items) }
    ensures sorted { IfOk result (λ v. IsNonDecreasingBy (λ s. s.address) v.items) }
{
    let mut sorted = Vec::from_slice(alloc, sections)?;
    sorted.sort_unstable_by_key(|s| s.address);
    Ok(sorted)
}

/// Whether one section ends where another begins, or before.
fn ends_before(s: &Section, t: &Section) -> bool
    ensures { result ≡ nat_le (s.now.address + s.now.size) t.now.address }
{
    s.address <= t.address && s.size <= t.address - s.address
}

/// Whether each section ends where the next begins, or before.
fn is_laid_out(sections: &[Section]) -> bool
    ensures { MatchBool result (IsLaidOut sections.now) (HasOverhang sections.now) }
{
    sections.is_sorted_by(|s, t| ends_before(s, t))
}

/// Looks through all sections.
fn find_first(sections: &[Section], a: u64, n: u64) -> Option<&Section>
    ensures { option_copied result ≡ find (holds_bytes a n) sections.now }
{
    sections.iter().find(|s| s.holds_bytes(a, n))
}

/// The place of the widest section; 0 if there is none.
fn widest(sections: &[Section]) -> usize {
    sections
        .iter()
        .enumerate()
        .max_by_key(|(_, s)| s.size)
        .map_or(0, |(place, _)| place)
}

/// Looks at the section at the place `likely` first. Any place is right: at most one section has
/// the bytes.
#[inline]
fn find_laid_out(sections: &[Section], likely: usize, a: u64, n: u64) -> Option<&Section>
    requires some { 0 < n }
    requires laid_out { IsLaidOut sections.now }
    ensures { option_copied result ≡ find (holds_bytes a n) sections.now }
{
    match sections.get(likely) {
        Some(s) if s.holds_bytes(a, n) => Some(s),
        _ => find_before(sections, a, n),
    }
}

/// Looks at one section alone: the last that begins at `a` or before.
fn find_before(sections: &[Section], a: u64, n: u64) -> Option<&Section>
    requires some { 0 < n }
    requires laid_out { IsLaidOut sections.now }
    ensures { option_copied result ≡ find (holds_bytes a n) sections.now }
{
    let after = sections.partition_point(|s| s.address <= a);
    if after == 0 {
        return None;
    }
    let last = &sections[after - 1];
    if last.holds_bytes(a, n) {
        Some(last)
    } else {
        None
    }
}
