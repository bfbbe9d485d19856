//! Waiters in a row, in their order, few enough to be looked at one by one.

ghost use Rattle.std.specs.Prelude.{◌≡◌, ◌≤◌, false, Some, OnOk, OnErr, IfOk, IfErr, length, insert};
ghost use Rattle.std.specs.FinMap.{find};
ghost use Rattle.std.specs.FinMap.Entries.{put};
ghost use Rattle.builder_model.specs.Waiter.{waiter_cmp};
ghost use Rattle.core_state.specs.Least.{IsLeastBy};
ghost use Rattle.core_state.specs.inner.Pairs.{AreRising, IsGapAt};
ghost use Rattle.address_map.specs.Pairs.{IsFirstAt};
ghost use Rattle.core_state.specs.inner.Waiting.{lesser_by};

use crate::Memory;
use builder_model::Waiter;
use std::alloc::Global;
use std::cmp::Ordering;

/// The place at which `w` stands in a row, or else the one at which it would stand.
pub(crate) fn spot(row: &[(Waiter, bool)], w: Waiter) -> Result<usize, usize>
    requires { AreRising waiter_cmp row.now }
    ensures here { IfOk result (IsFirstAt waiter_cmp row.now w) }
    ensures gap { IfErr result (IsGapAt waiter_cmp row.now w) }
{
    for (i, pair) in row.iter().enumerate() {
        match order(pair.0, w) {
            Ordering::Less => {}
            Ordering::Equal => return Ok(i),
            Ordering::Greater => return Err(i),
        }
    }
    Err(row.len())
}

/// How a waiter stands to another one in their order. Mostly the address of its terminator is
/// less, so that is asked first.
#[inline]
fn order(v: Waiter, w: Waiter) -> Ordering
    ensures { result ≡ waiter_cmp v w }
{
    if v.terminator < w.terminator {
        return Ordering::Less;
    }
    v.cmp(&w)
}

/// Puts `w` into a row, told or not: at its place if it is new, and else over what stands there.
pub(crate) fn put(row: &mut Vec<(Waiter, bool)>, w: Waiter, told: bool) -> Result<(), Memory>
    requires { AreRising waiter_cmp row.old.items }
    ensures { OnOk result (row.new.items ≡ put waiter_cmp w told row.old.items) }
{
    match spot(row.as_slice(), w) {
        Ok(place) => row[place] = (w, told),
        Err(place) => row.insert(place, (w, told))?,
    }
    Ok(())
}

/// Inserts an item into a row, before the one at `place`. A full row is moved to new memory, of
/// which it takes twice as much: if threads share states, to extend it would hold the lock of the
/// heap that it lies in, which is mostly another thread's, while it is copied.
pub(crate) fn insert(
    alloc: Global,
    row: &mut Vec<(Waiter, bool)>,
    place: usize,
    item: (Waiter, bool),
) -> Result<(), Memory>
    requires { place ≤ length row.old.items }
    ensures items { OnOk result (row.new.items ≡ insert row.old.items place item) }
    ensures unchanged { OnErr result (row.new.items ≡ row.old.items) }
{
    if row.len() == row.capacity() {
        let mut roomy = Vec::with_capacity(alloc, row.len().saturating_mul(2))?;
        roomy.append(row)?;
        *row = roomy;
    }
    row.insert(place, item)?;
    Ok(())
}

/// The least untold waiter of a row.
pub(crate) fn untold_among(row: &[(Waiter, bool)]) -> Option<Waiter>
    requires { AreRising waiter_cmp row.now }
    ensures { IsLeastBy waiter_cmp (λ w. find waiter_cmp w row.now ≡ Some false) result }
{
    for (w, told) in row {
        if !*told {
            return Some(*w);
        }
    }
    None
}

/// The lesser of two waiters; each may be none.
pub(crate) fn lesser(v: Option<Waiter>, w: Option<Waiter>) -> Option<Waiter>
    ensures { result ≡ lesser_by waiter_cmp v w }
{
    match (v, w) {
        (Some(v), Some(w)) => { if v.cmp(&w).is_gt() { Some(w) } else { Some(v) } }
        (Some(v), None) => Some(v),
        (None, w) => w,
    }
}
