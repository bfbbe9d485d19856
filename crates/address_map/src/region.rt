//! A region of an address map: 256 chunks next to each other, found at once.

ghost use Rattle.std.specs.Prelude.{◌≡◌, ◌≤◌, ℕ, not, length, slice_index_or, if◌then◌else◌, ◌==◌};
ghost use Rattle.std.specs.Prelude.{Some, IsSome, IsTrue, OnOk, OnErr, IfOk, IfSome, IfNone};
ghost use Rattle.std.specs.Borrow.{sem};
ghost use Rattle.std.specs.Option.{option_copied};
ghost use Rattle.std.specs.Ordering.{nat_cmp};
ghost use Rattle.std.specs.FinMap as maps;
ghost use Rattle.address_map.specs.inner.Lent.{lends_of_region};
ghost use Rattle.address_map.specs.Found.{IsFoundAmong};
ghost use Rattle.address_map.specs.Read.{IsRead, IsReadInto};
ghost use Rattle.address_map.specs.Least.{IsLeast, IsAbove};
ghost use Rattle.address_map.specs.Keys.{with_new};
ghost use Rattle.address_map.specs.inner.Grouped.{place_of, region_of};
ghost use Rattle.address_map.specs.Keys.{IsKeyAbove};
ghost use Rattle.address_map.specs.inner.Grouped.{IsNextByPlace, IsFrom, AreInRegion};

use crate::chunk::Chunk;
use crate::entry::page;
use crate::look::{Look, Reading};
use std::alloc::{AllocError, Global};
use std::marker::Model;

/// The chunks of one region of 64 MiB, by their place in it, up to the last one that has addresses.
#[derive(Drop)]
pub(crate) struct Region<T> {
    alloc: Global,
    chunks: Vec<Chunk<T>>,
}

impl<T> Model for Region<T> {
    ghost use Rattle.std.specs.FinMap as maps;
    ghost use Rattle.std.specs.Ordering.{nat_cmp};
    ghost use Rattle.std.specs.Coded.{coded_ℕ};
    ghost use Rattle.address_map.specs.Joined.{joined};
    ghost use Rattle.address_map.specs.inner.Grouped.{place_of, AreParts};

    ghost Value = { maps.FinMap nat_cmp T };

    ghost coded = { maps.code coded_ℕ T.code };

    ghost view = { λ r. joined r.chunks.items };

    ghost invariant = { λ r. AreParts place_of r.chunks.items };
}

/// The number of the region that `k` lies in.
pub(crate) fn region_number(k: u64) -> u64
    ensures { result ≡ region_of k }
{
    k / 67_108_864
}

/// The place of the chunk of `k` in its region.
fn place(k: u64) -> usize
    ensures { result ≡ place_of k }
{
    (k / 262_144 % 256) as usize
}

impl<T> Region<T> {
    /// A region without addresses. It takes no memory before one is added.
    pub(crate) fn new(alloc: Global) -> Self
        ensures { result ≡ maps.empty }
    {
        Region {
            alloc,
            chunks: Vec::new(alloc),
        }
    }

    /// Whether there are no chunks.
    pub(crate) fn is_empty(&self) -> bool
        ensures { IsTrue result → self.now ≡ maps.empty }
    {
        self.chunks.is_empty()
    }

    /// The value at `k`.
    #[inline]
    pub(crate) fn get(&self, k: u64) -> Option<&T>
        ensures { option_copied result ≡ maps.get self.now k }
    {
        let place = place(k);
        if place < self.chunks.len() {
            self.chunks[place].get(k)
        } else {
            None
        }
    }

    /// The value at `k`, for writing.
    #[inline]
    pub(crate) fn value_mut(&mut self, k: u64) -> &mut T
        requires { IsSome (maps.get self.old k) }
        ensures* writes_back { sem 𝓛 (lends_of_region T.row self.entry k result) }
        ensures value { maps.get self.old k ≡ Some result.now }
    {
        let chunk = &mut self.chunks[place(k)];
        chunk.value_mut(k)
    }

    /// Adds `k` with this value, if it is not there. Answers whether it is new.
    pub(crate) fn add(&mut self, k: u64, value: T) -> Result<bool, AllocError>
    where
        T: Drop,
        ensures added { OnOk result (self.new ≡ with_new self.old k value) }
        ensures answer { IfOk result (λ new. new ≡ not (maps.contains_key self.old k)) }
        ensures unchanged { OnErr result (self.new ≡ self.old) }
    {
        let place = place(k);
        extend(self.alloc, &mut self.chunks, place + 1)?;
        self.chunks[place].add(k, value)
    }

    /// The least address above `a`, or the least of all if there is no `a`. All addresses lie in
    /// the region of this number.
    pub(crate) fn after(&self, number: u64, a: Option<u64>) -> Option<u64>
        requires { AreInRegion self.now number }
        ensures { IsLeast (IsKeyAbove self.now a) result }
    {
        let (place, page) = start(number, a)?;
        self.after_from(place, page, a)
    }

    /// The least address above `a`, or the least of all if there is no `a`; none lies before that
    /// page of the chunk at `start`.
    fn after_from(&self, start: usize, page: usize, a: Option<u64>) -> Option<u64>
        requires together { (n : ℕ) × AreInRegion self.now n }
        requires ahead { (x : ℕ) → IsKeyAbove self.now a x → IsFrom start page x }
        ensures { IsLeast (IsKeyAbove self.now a) result }
    {
        for place in start..self.chunks.len() {
            if let Some(k) = self.chunks[place].after(page_at(place, start, page), a) {
                return Some(k);
            }
        }
        None
    }

    /// The least address above `a` in the page of `a`. All addresses lie in the region of `a`.
    #[inline]
    pub(crate) fn after_in_page(&self, a: u64) -> Option<u64>
        requires { AreInRegion self.now (region_of a) }
        ensures { IsLeast (IsNextByPlace self.now a) result }
    {
        let place = place(a);
        if place < self.chunks.len() {
            self.chunks[place].after_in_page(a)
        } else {
            None
        }
    }

    /// Something that the look finds at an address, in no order; `None` if it finds nothing at any.
    pub(crate) fn find_by<A, L: Look<T, A>>(&self, look: &L) -> Option<A>
        ensures some { IfSome result (IsFoundAmong (L.finds look.now) self.now) }
        ensures none { IfNone result
            ((found : A) → ¬ IsFoundAmong (L.finds look.now) self.now found) }
    {
        for chunk in self.chunks.as_slice() {
            if let Some(found) = chunk.find_by(look) {
                return Some(found);
            }
        }
        None
    }

    /// Adds what each address is read as to the items, in no order.
    pub(crate) fn read_into<A: Drop, G: Reading<T, A>>(
        &self,
        reading: &G,
        items: &mut Vec<A>,
    ) -> Result<(), AllocError>
        ensures { OnOk result
            (IsReadInto (G.item reading.now) self.now items.old.items items.new.items) }
    {
        for chunk in self.chunks.as_slice() {
            chunk.read_into(reading, items)?;
        }
        Ok(())
    }
}

/// The place and the page at which a region's addresses above `a` begin, in the region of this
/// number; none if there are none.
fn start(number: u64, a: Option<u64>) -> Option<(usize, usize)>
    ensures some { IfSome result (λ from. (x : ℕ) → region_of x ≡ number → IsAbove a x
        → IsFrom from.0 from.1 x) }
    ensures none { IfNone result ((x : ℕ) → region_of x ≡ number → ¬ IsAbove a x) }
{
    let Some(a) = a else {
        return Some((0, 0));
    };
    if number < region_number(a) {
        None
    } else if region_number(a) == number {
        Some((place(a), page(a)))
    } else {
        Some((0, 0))
    }
}

/// The page at which a search begins in the chunk at `place`, where it began at that page of the
/// chunk at `start`.
fn page_at(place: usize, start: usize, page: usize) -> usize
    ensures { result ≡ (if place == start then page else 0) }
{
    if place == start { page } else { 0 }
}

/// Adds chunks without addresses until there are `count`.
#[inline]
fn extend<T: Drop>(
    alloc: Global,
    chunks: &mut Vec<Chunk<T>>,
    count: usize,
) -> Result<(), AllocError>
    ensures same { (i : ℕ) → slice_index_or chunks.new.items i maps.empty
        ≡ slice_index_or chunks.old.items i maps.empty }
    ensures all { OnOk result (count ≤ length chunks.new.items) }
{
    if chunks.len() < count {
        lengthen(alloc, chunks, count)?;
    }
    Ok(())
}

/// The same, where some chunks have yet to be added.
#[cold]
#[inline(never)]
fn lengthen<T: Drop>(
    alloc: Global,
    chunks: &mut Vec<Chunk<T>>,
    count: usize,
) -> Result<(), AllocError>
    ensures same { (i : ℕ) → slice_index_or chunks.new.items i maps.empty
        ≡ slice_index_or chunks.old.items i maps.empty }
    ensures all { OnOk result (count ≤ length chunks.new.items) }
{
    for _place in chunks.len()..count {
        chunks.push(Chunk::new(alloc))?;
    }
    Ok(())
}
