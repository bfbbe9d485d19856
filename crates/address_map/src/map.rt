//! The map by address.

ghost use Rattle.std.specs.Prelude.{◌≡◌, ◌↔◌, Contains, not, Some, IsSome, OnOk, OnErr, IfOk, IfSome, IfNone};
ghost use Rattle.std.specs.Borrow.{sem};
ghost use Rattle.std.specs.Option.{option_copied};
ghost use Rattle.std.specs.Ordering.{nat_cmp};
ghost use Rattle.std.specs.FinMap as maps;
ghost use Rattle.address_map.specs.Lent.{lends_of_map};
ghost use Rattle.address_map.specs.Found.{IsFoundAmong};
ghost use Rattle.address_map.specs.Read.{IsRead, IsReadInto};
ghost use Rattle.address_map.specs.Least.{IsLeast};
ghost use Rattle.address_map.specs.Keys.{with_new, IsKeyAbove, IsNextInPage};

use crate::least::lesser;
use crate::look::{Look, Reading};
use crate::region::{Region, region_number};
use crate::scattered::Scattered;
use std::alloc::{AllocError, Global};
use std::marker::Model;

/// A finite map from addresses to values of the type `T`.
///
/// The addresses of the region in which the first one lies are near, and their chunks are found by
/// their place: nearly every program lies in one region. All others are far.
#[derive(Drop)]
pub struct AddressMap<T> {
    number: u64,
    near: Region<T>,
    far: Scattered<T>,
}

impl<T> Model for AddressMap<T> {
    ghost use Rattle.std.specs.Prelude.{[], ◌∷◌};
    ghost use Rattle.std.specs.FinMap as maps;
    ghost use Rattle.std.specs.Ordering.{nat_cmp};
    ghost use Rattle.std.specs.Coded.{coded_ℕ};
    ghost use Rattle.address_map.specs.Joined.{joined};
    ghost use Rattle.address_map.specs.inner.Grouped.{side_of, AreParts};

    ghost Value = { maps.FinMap nat_cmp T };

    ghost coded = { maps.code coded_ℕ T.code };

    ghost view = { λ m. joined (m.near ∷ m.far ∷ []) };

    ghost invariant = { λ m. AreParts (side_of m.number) (m.near ∷ m.far ∷ []) };
}

impl<T> AddressMap<T> {
    /// A map without addresses. It takes no memory before one is added.
    /// Time: constant. Memory: none.
    pub fn new(alloc: Global) -> Self
        ensures { result ≡ maps.empty }
    {
        AddressMap {
            number: 0,
            near: Region::new(alloc),
            far: Scattered::new(alloc),
        }
    }

    /// The value at `k`; `None` if `k` is not in the map.
    /// Time: O(p), far ones O(log n + p). Memory: none.
    #[inline]
    pub fn get(&self, k: u64) -> Option<&T>
        ensures { option_copied result ≡ maps.get self.now k }
    {
        if region_number(k) == self.number {
            self.near.get(k)
        } else {
            self.far.get(k)
        }
    }

    /// The value at `k`, which is in the map, for writing: what is written is its value from then
    /// on.
    /// Time: as [`AddressMap::get`]. Memory: none.
    #[inline]
    pub fn value_mut(&mut self, k: u64) -> &mut T
        requires { IsSome (maps.get self.old k) }
        ensures* writes_back { sem 𝓛 (lends_of_map T.row self.entry k result) }
        ensures value { maps.get self.old k ≡ Some result.now }
    {
        if region_number(k) == self.number {
            self.near.value_mut(k)
        } else {
            self.far.value_mut(k)
        }
    }

    /// Adds `k` with this value, if it is not in the map; else nothing changes. Answers whether it
    /// is new; [`AllocError`] if memory ran out, and then nothing has changed.
    /// Time: as [`AddressMap::get`], amortised. Memory: O(1) for each address, and 256 bytes for
    /// each chunk.
    pub fn add(&mut self, k: u64, value: T) -> Result<bool, AllocError>
    where
        T: Drop,
        ensures added { OnOk result (self.new ≡ with_new self.old k value) }
        ensures answer { IfOk result (λ new. new ≡ not (maps.contains_key self.old k)) }
        ensures unchanged { OnErr result (self.new ≡ self.old) }
    {
        self.begin(k);
        self.put(k, value)
    }

    /// Adds `k` to the near addresses, or to the far ones, if it is not there.
    fn put(&mut self, k: u64, value: T) -> Result<bool, AllocError>
    where
        T: Drop,
        ensures added { OnOk result (self.new ≡ with_new self.old k value) }
        ensures answer { IfOk result (λ new. new ≡ not (maps.contains_key self.old k)) }
        ensures unchanged { OnErr result (self.new ≡ self.old) }
    {
        if region_number(k) == self.number {
            self.near.add(k, value)
        } else {
            self.far.add(k, value)
        }
    }

    /// Makes the region of `k` the near one, if there are no addresses yet.
    fn begin(&mut self, k: u64)
        ensures { self.new ≡ self.old }
    {
        if self.near.is_empty() && self.far.is_empty() {
            self.number = region_number(k);
        }
    }

    /// The least address of the map above `a`, or the least of all if there is no `a`; `None` if
    /// there is none.
    /// Time: O(pages up to it + p), at most O(log n) more for each far chunk. Memory: none.
    pub fn after(&self, a: Option<u64>) -> Option<u64>
        ensures { IsLeast (IsKeyAbove self.now a) result }
    {
        lesser(self.near.after(self.number, a), self.far.after(a))
    }

    /// The least address of the map above `a` in the page of 4096 bytes that `a` lies in; `None` if
    /// there is none.
    /// Time: O(p), far ones O(log n + p). Memory: none.
    pub fn after_in_page(&self, a: u64) -> Option<u64>
        ensures { IsLeast (IsNextInPage self.now a) result }
    {
        if region_number(a) == self.number {
            self.near.after_in_page(a)
        } else {
            self.far.after_in_page(a)
        }
    }

    /// Something that the look finds at an address, in no order; `None` if it finds nothing at any.
    /// Time: O(n) looks. Memory: none.
    pub fn find_by<A, L: Look<T, A>>(&self, look: &L) -> Option<A>
        ensures some { IfSome result (IsFoundAmong (L.finds look.now) self.now) }
        ensures none { IfNone result
            ((found : A) → ¬ IsFoundAmong (L.finds look.now) self.now found) }
    {
        match self.near.find_by(look) {
            Some(found) => Some(found),
            None => self.far.find_by(look),
        }
    }

    /// What each address is read as, in no order. [`AllocError`] if memory ran out.
    /// Time: O(n) readings. Memory: that of n items.
    pub fn read_by<A: Drop, G: Reading<T, A>>(
        &self,
        alloc: Global,
        reading: &G,
    ) -> Result<Vec<A>, AllocError>
        ensures { IfOk result (λ v. (item : A) → Contains v.items item
            ↔ IsRead (G.item reading.now) self.now item) }
    {
        let mut items = Vec::new(alloc);
        self.near.read_into(reading, &mut items)?;
        self.far.read_into(reading, &mut items)?;
        Ok(items)
    }
}
