//! A chunk of an address map: 64 pages, whose addresses with their values lie in one block.

ghost use Rattle.std.specs.Prelude.{◌≡◌, ◌≤◌, ℕ, not, length, slice_index_or};
ghost use Rattle.std.specs.Prelude.{Some, IsSome, OnOk, OnErr, IfOk};
ghost use Rattle.std.specs.Prelude.{IfSome, IfNone};
ghost use Rattle.std.specs.Borrow.{sem};
ghost use Rattle.std.specs.Option.{option_copied};
ghost use Rattle.std.specs.Ordering.{nat_cmp};
ghost use Rattle.std.specs.FinMap as maps;
ghost use Rattle.address_map.specs.inner.Lent.{lends_of_chunk};
ghost use Rattle.address_map.specs.Found.{IsFoundAmong};
ghost use Rattle.address_map.specs.Read.{IsRead, IsReadInto};
ghost use Rattle.address_map.specs.Least.{IsLeast};
ghost use Rattle.address_map.specs.Keys.{with_new, IsKeyAbove};
ghost use Rattle.address_map.specs.inner.Grouped.{page_of, AreTogether};

use crate::entry::{Entry, append, least_in_page, one_more, page, place_in_page};
use crate::look::{Look, Reading};
use std::alloc::{AllocError, Global};
use std::marker::Model;

/// The addresses of 64 pages with their values, in the order in which they came. Those of a page
/// are found one after the other, from the last one on.
#[derive(Drop)]
pub(crate) struct Chunk<T> {
    alloc: Global,
    /// Of each page, by its place, how many entries there are up to its last one; 0 if it has none.
    /// Empty, if there are no addresses.
    upto: Vec<u32>,
    entries: Vec<Entry<T>>,
}

impl<T> Model for Chunk<T> {
    ghost use Rattle.std.specs.FinMap as maps;
    ghost use Rattle.std.specs.Ordering.{nat_cmp};
    ghost use Rattle.std.specs.Coded.{coded_ℕ};
    ghost use Rattle.address_map.specs.inner.Entries.{pairs, AreLinked};

    ghost Value = { maps.FinMap nat_cmp T };

    ghost coded = { maps.code coded_ℕ T.code };

    ghost view = { λ c. maps.from_entries (pairs c.entries.items) };

    ghost invariant = { λ c. AreLinked c.upto.items c.entries.items };
}

/// How many pages a chunk has.
const PAGES: usize = 64;

impl<T> Chunk<T> {
    /// A chunk without addresses. It takes no memory before one is added.
    pub(crate) fn new(alloc: Global) -> Self
        ensures { result ≡ maps.empty }
    {
        Chunk {
            alloc,
            upto: Vec::new(alloc),
            entries: Vec::new(alloc),
        }
    }

    /// The value at `k`.
    #[inline]
    pub(crate) fn get(&self, k: u64) -> Option<&T>
        ensures { option_copied result ≡ maps.get self.now k }
    {
        match place_in_page(self.upto.as_slice(), self.entries.as_slice(), k) {
            Some(place) => Some(&self.entries[place].value),
            None => None,
        }
    }

    /// The value at `k`, for writing.
    #[inline]
    pub(crate) fn value_mut(&mut self, k: u64) -> &mut T
        requires { IsSome (maps.get self.old k) }
        ensures* writes_back { sem 𝓛 (lends_of_chunk T.row self.entry k result) }
        ensures value { maps.get self.old k ≡ Some result.now }
    {
        let place = place_in_page(self.upto.as_slice(), self.entries.as_slice(), k).unwrap();
        let entry = &mut self.entries[place];
        &mut entry.value
    }

    /// Adds `k` with this value, if it is not there. Answers whether it is new. More than 2^32 - 1
    /// addresses would be answered as want of memory; 64 pages have 2^18.
    pub(crate) fn add(&mut self, k: u64, value: T) -> Result<bool, AllocError>
    where
        T: Drop,
        ensures added { OnOk result (self.new ≡ with_new self.old k value) }
        ensures answer { IfOk result (λ new. new ≡ not (maps.contains_key self.old k)) }
        ensures unchanged { OnErr result (self.new ≡ self.old) }
    {
        if place_in_page(self.upto.as_slice(), self.entries.as_slice(), k).is_some() {
            return Ok(false);
        }
        let upto = one_more(self.entries.len())?;
        fill(self.alloc, &mut self.upto)?;
        let place = page(k);
        let entry = Entry {
            key: k,
            value,
            before: self.upto[place],
        };
        append(self.alloc, &mut self.entries, entry)?;
        self.upto[place] = upto;
        Ok(true)
    }

    /// The least address above `a` in the page of `a`.
    pub(crate) fn after_in_page(&self, a: u64) -> Option<u64>
        ensures { IsLeast (λ k. IsKeyAbove self.now (Some a) k × (page_of k ≡ page_of a)) result }
    {
        self.least_above(page(a), Some(a))
    }

    /// The least address above `a`, or the least of all if there is no `a`; none lies in a page
    /// before the one at `start`.
    pub(crate) fn after(&self, start: usize, a: Option<u64>) -> Option<u64>
        requires together { AreTogether self.now }
        requires ahead { (x : ℕ) → IsKeyAbove self.now a x → start ≤ page_of x }
        ensures { IsLeast (IsKeyAbove self.now a) result }
    {
        for page in start..self.upto.len() {
            if let Some(k) = self.least_above(page, a) {
                return Some(k);
            }
        }
        None
    }

    /// The least address above `a`, or the least of all if there is no `a`, in the page.
    fn least_above(&self, page: usize, a: Option<u64>) -> Option<u64>
        ensures { IsLeast (λ k. IsKeyAbove self.now a k × (page_of k ≡ page)) result }
    {
        least_in_page(self.upto.as_slice(), self.entries.as_slice(), page, a)
    }

    /// Something that the look finds at an address, in no order; `None` if it finds nothing at any.
    pub(crate) fn find_by<A, L: Look<T, A>>(&self, look: &L) -> Option<A>
        ensures some { IfSome result (IsFoundAmong (L.finds look.now) self.now) }
        ensures none { IfNone result
            ((found : A) → ¬ IsFoundAmong (L.finds look.now) self.now found) }
    {
        for entry in self.entries.as_slice() {
            if let Some(found) = look.look_at(entry.key, &entry.value) {
                return Some(found);
            }
        }
        None
    }

    /// Adds what each address is read as to the items, in no order.
    pub(crate) fn read_into<A: Drop, G: Reading<T, A>>(
        &self,
        reading: &G,
        items: &mut Vec<A>,
    ) -> Result<(), AllocError>
        ensures { OnOk result
            (IsReadInto (G.item reading.now) self.now items.old.items items.new.items) }
    {
        for entry in self.entries.as_slice() {
            items.push(reading.read(entry.key, &entry.value))?;
        }
        Ok(())
    }
}

/// Makes the table of the pages, if there is none yet.
#[inline]
fn fill(alloc: Global, upto: &mut Vec<u32>) -> Result<(), AllocError>
    ensures same { (p : ℕ) → slice_index_or upto.new.items p 0
        ≡ slice_index_or upto.old.items p 0 }
    ensures all { OnOk result (64 ≤ length upto.new.items) }
{
    if upto.len() < PAGES {
        make_table(alloc, upto)?;
    }
    Ok(())
}

/// The same, where the table has yet to be made.
#[cold]
#[inline(never)]
fn make_table(alloc: Global, upto: &mut Vec<u32>) -> Result<(), AllocError>
    ensures same { (p : ℕ) → slice_index_or upto.new.items p 0
        ≡ slice_index_or upto.old.items p 0 }
    ensures all { OnOk result (64 ≤ length upto.new.items) }
{
    if upto.len() < PAGES {
        upto.reserve_exact(PAGES - upto.len())?;
    }
    for _page in upto.len()..PAGES {
        upto.push(0)?;
    }
    Ok(())
}
