//! An address map whose chunks may lie anywhere.

ghost use Rattle.std.specs.Prelude.{◌≡◌, ◌<◌, ◌^◌, not, Some, IsSome, IsTrue, OnOk, OnErr, IfOk};
ghost use Rattle.std.specs.Prelude.{IfSome, IfNone};
ghost use Rattle.std.specs.Borrow.{sem};
ghost use Rattle.std.specs.Option.{option_copied, option_map};
ghost use Rattle.std.specs.Ordering.{nat_cmp};
ghost use Rattle.std.specs.FinMap as maps;
ghost use Rattle.std.specs.BTreeMap as tree;
ghost use Rattle.address_map.specs.inner.Lent.{lends_of_scattered};
ghost use Rattle.address_map.specs.Found.{IsFoundAmong};
ghost use Rattle.address_map.specs.Read.{IsRead, IsReadInto};
ghost use Rattle.address_map.specs.Least.{IsLeast, IsAbove};
ghost use Rattle.address_map.specs.Keys.{with_new, IsKeyAbove};
ghost use Rattle.address_map.specs.inner.Grouped.{chunk_of};
ghost use Rattle.address_map.specs.inner.Grouped.{IsInChunk, IsNextInChunk, IsNextByPlace};

use crate::chunk::Chunk;
use crate::entry::page;
use crate::look::{Look, Reading};
use std::alloc::{AllocError, Global};
use std::collections::BTreeMap;
use std::marker::Model;
use std::ops::Bound;

/// Addresses, each with a value. A chunk is found in time logarithmic in their number.
#[derive(Drop)]
pub(crate) struct Scattered<T> {
    alloc: Global,
    chunks: BTreeMap<u64, Chunk<T>>,
}

impl<T> Model for Scattered<T> {
    ghost use Rattle.std.specs.FinMap as maps;
    ghost use Rattle.std.specs.Ordering.{nat_cmp};
    ghost use Rattle.std.specs.BTreeMap.{IsOrdered};
    ghost use Rattle.std.specs.Coded.{coded_ℕ};
    ghost use Rattle.address_map.specs.inner.Grouped.{chunk_entries, AreChunks};

    ghost Value = { maps.FinMap nat_cmp T };

    ghost coded = { maps.code coded_ℕ T.code };

    ghost view = { λ m. maps.from_entries (chunk_entries m.chunks.entries) };

    ghost invariant = { λ m. IsOrdered nat_cmp m.chunks × AreChunks m.chunks.entries };
}

/// The number of the chunk that `k` lies in.
fn chunk(k: u64) -> u64
    ensures { result ≡ chunk_of k }
{
    k / 262_144
}

/// The number of the chunk that `a` lies in, if there is an `a`.
fn chunk_before(a: Option<u64>) -> Option<u64>
    ensures { result ≡ option_map chunk_of a }
{
    match a {
        Some(a) => Some(chunk(a)),
        None => None,
    }
}

/// The least key above `a`, or the least of all if there is no `a`, of a map.
fn least_above<V>(map: &BTreeMap<u64, V>, a: Option<u64>) -> Option<u64>
    ensures { IsLeast (λ k. IsSome (tree.get nat_cmp map.now k) × IsAbove a k) result }
{
    match a {
        Some(a) => {
            let (key, _) = map.range((Bound::Excluded(a), Bound::Unbounded)).next()?;
            Some(*key)
        }
        None => {
            let (key, _) = map.first_key_value()?;
            Some(*key)
        }
    }
}

impl<T> Scattered<T> {
    /// A map without addresses. It takes no memory before one is added.
    pub(crate) fn new(alloc: Global) -> Self
        ensures { result ≡ maps.empty }
    {
        Scattered {
            alloc,
            chunks: BTreeMap::new(alloc),
        }
    }

    /// Whether there are no chunks.
    pub(crate) fn is_empty(&self) -> bool
        ensures { IsTrue result → self.now ≡ maps.empty }
    {
        self.chunks.is_empty()
    }

    /// The value at `k`.
    #[cold]
    #[inline(never)]
    pub(crate) fn get(&self, k: u64) -> Option<&T>
        ensures { option_copied result ≡ maps.get self.now k }
    {
        match self.chunks.get(&chunk(k)) {
            Some(chunk) => chunk.get(k),
            None => None,
        }
    }

    /// The value at `k`, for writing.
    #[cold]
    #[inline(never)]
    pub(crate) fn value_mut(&mut self, k: u64) -> &mut T
        requires { IsSome (maps.get self.old k) }
        ensures* writes_back { sem 𝓛 (lends_of_scattered T.row self.entry k result) }
        ensures value { maps.get self.old k ≡ Some result.now }
    {
        let chunk = self.chunks.get_mut(&chunk(k)).unwrap();
        chunk.value_mut(k)
    }

    /// Adds `k` with this value, if it is not there. Answers whether it is new.
    #[cold]
    #[inline(never)]
    pub(crate) fn add(&mut self, k: u64, value: T) -> Result<bool, AllocError>
    where
        T: Drop,
        ensures added { OnOk result (self.new ≡ with_new self.old k value) }
        ensures answer { IfOk result (λ new. new ≡ not (maps.contains_key self.old k)) }
        ensures unchanged { OnErr result (self.new ≡ self.old) }
    {
        let number = chunk(k);
        if let Some(chunk) = self.chunks.get_mut(&number) {
            return chunk.add(k, value);
        }
        let mut fresh = Chunk::new(self.alloc);
        let new = fresh.add(k, value)?;
        self.chunks.insert(number, fresh)?;
        Ok(new)
    }

    /// The least address above `a`, or the least of all if there is no `a`.
    pub(crate) fn after(&self, a: Option<u64>) -> Option<u64>
        ensures { IsLeast (IsKeyAbove self.now a) result }
    {
        if self.is_empty() {
            return None;
        }
        let here = self.after_in_chunk(a);
        if here.is_some() {
            return here;
        }
        let mut next = least_above(&self.chunks, chunk_before(a));
        'chunks: while let Some(number) = next {
            let first = self.first_of(number);
            if first.is_some() {
                return first;
            }
            next = least_above(&self.chunks, Some(number));
        }
        None
    }

    /// The least address above `a` in the page of `a`.
    #[cold]
    #[inline(never)]
    pub(crate) fn after_in_page(&self, a: u64) -> Option<u64>
        ensures { IsLeast (IsNextByPlace self.now a) result }
    {
        match self.chunks.get(&chunk(a)) {
            Some(chunk) => chunk.after_in_page(a),
            None => None,
        }
    }

    /// Something that the look finds at an address, in no order; `None` if it finds nothing at any.
    pub(crate) fn find_by<A, L: Look<T, A>>(&self, look: &L) -> Option<A>
        ensures some { IfSome result (IsFoundAmong (L.finds look.now) self.now) }
        ensures none { IfNone result
            ((found : A) → ¬ IsFoundAmong (L.finds look.now) self.now found) }
    {
        for (_, chunk) in &self.chunks {
            if let Some(found) = chunk.find_by(look) {
                return Some(found);
            }
        }
        None
    }

    /// Adds what each address is read as to the items, in no order.
    pub(crate) fn read_into<A: Drop, G: Reading<T, A>>(
        &self,
        reading: &G,
        items: &mut Vec<A>,
    ) -> Result<(), AllocError>
        ensures { OnOk result
            (IsReadInto (G.item reading.now) self.now items.old.items items.new.items) }
    {
        for (_, chunk) in &self.chunks {
            chunk.read_into(reading, items)?;
        }
        Ok(())
    }

    /// The least address above `a` in the chunk of `a`, if there is an `a`.
    fn after_in_chunk(&self, a: Option<u64>) -> Option<u64>
        ensures { IsLeast (IsNextInChunk self.now a) result }
    {
        let a = a?;
        match self.chunks.get(&chunk(a)) {
            Some(chunk) => chunk.after(page(a), Some(a)),
            None => None,
        }
    }

    /// The least address of this chunk.
    fn first_of(&self, number: u64) -> Option<u64>
        ensures least { IsLeast (IsInChunk self.now number) result }
        ensures small { number < 2 ^ 64 }
    {
        match self.chunks.get(&number) {
            Some(chunk) => chunk.after(0, None),
            None => None,
        }
    }
}
