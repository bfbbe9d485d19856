//! The entries of a chunk: addresses with their values, one after another in the order in which
//! they came. They also hold the way along the entries of a page, from the last one to the first.

ghost use Rattle.std.specs.Prelude.{◌≡◌, ◌↔◌, ◌+◌, ◌++◌, ◌∷◌, [], slice_index_or};
ghost use Rattle.std.specs.Prelude.{None, IsTrue, IsSome, OnOk, OnErr, IfOk, IfSome, IfNone};
ghost use Rattle.std.specs.Ordering.{nat_cmp};
ghost use Rattle.std.specs.FinMap.{find};
ghost use Rattle.address_map.specs.Least.{IsLeast, IsAbove};
ghost use Rattle.address_map.specs.inner.Grouped.{page_of};
ghost use Rattle.address_map.specs.Pairs.{IsFirstAt};
ghost use Rattle.address_map.specs.inner.Entries.{pairs, AreLinked};
ghost use Rattle.address_map.specs.Least.{lesser_of};

use crate::least::lesser;
use std::alloc::{AllocError, Global};
use std::mem::size_of;

/// An address with its value, and where the one before it in its page lies.
#[derive(Drop)]
pub(crate) struct Entry<T> {
    pub(crate) key: u64,
    pub(crate) value: T,
    /// How many entries there are up to the last one of its page that came before it; 0 if none
    /// came before it.
    pub(crate) before: u32,
}

/// An entry whose value is one byte takes 16 bytes.
const _: () = prove!(size_of::<Entry<u8>>() == 16);

/// The place of the page of `k` among the 64 pages of its chunk.
#[inline]
pub(crate) fn page(k: u64) -> usize
    ensures { result ≡ page_of k }
{
    (k / 4096 % 64) as usize
}

/// How many entries there are up to the last one of the page, by the table `upto`, which has that
/// of each page by its place; 0 if the page has none.
#[inline]
fn up_to(upto: &[u32], page: usize) -> usize
    ensures { result ≡ slice_index_or upto.now page 0 }
{
    if page < upto.len() {
        upto[page] as usize
    } else {
        0
    }
}

/// The place of the entry of `k`, by a look at those of its page from the last one on, which the
/// table `upto` leads to.
#[inline]
pub(crate) fn place_in_page<T>(upto: &[u32], entries: &[Entry<T>], k: u64) -> Option<usize>
    requires { AreLinked upto.now entries.now }
    ensures some { IfSome result (IsFirstAt nat_cmp (pairs entries.now) k) }
    ensures none { IfNone result (find nat_cmp k (pairs entries.now) ≡ None) }
{
    let mut left = up_to(upto, page(k));
    while left > 0 {
        let entry = &entries[left - 1];
        if entry.key == k {
            return Some(left - 1);
        }
        left = entry.before as usize;
    }
    None
}

/// The least address above `a`, or the least of all if there is no `a`, in the page, by a look at
/// those there.
pub(crate) fn least_in_page<T>(
    upto: &[u32],
    entries: &[Entry<T>],
    page: usize,
    a: Option<u64>,
) -> Option<u64>
    requires { AreLinked upto.now entries.now }
    ensures { IsLeast (λ k. IsSome (find nat_cmp k (pairs entries.now)) × IsAbove a k
        × (page_of k ≡ page)) result }
{
    let mut least = None;
    let mut left = up_to(upto, page);
    while left > 0 {
        let entry = &entries[left - 1];
        least = with_above(least, entry.key, a);
        left = entry.before as usize;
    }
    least
}

/// The lesser of `least` and `key`, if that one lies above `a`.
fn with_above(least: Option<u64>, key: u64, a: Option<u64>) -> Option<u64>
    ensures above { IsAbove a key → result ≡ lesser_of least (Some key) }
    ensures not_above { ¬ IsAbove a key → result ≡ least }
{
    if is_above(key, a) {
        lesser(least, Some(key))
    } else {
        least
    }
}

/// Whether `key` lies above `a`, if there is an `a`.
fn is_above(key: u64, a: Option<u64>) -> bool
    ensures { IsTrue result ↔ IsAbove a key }
{
    match a {
        Some(a) => a < key,
        None => true,
    }
}

/// A row of n entries that is full grows by n divided by this, and [`GROWTH_LEAST`]. So it has room
/// for little more than half as many again, and is moved a number of times that is logarithmic in
/// its length.
const GROWTH_PART: usize = 2;

/// What a row of entries grows by at least.
const GROWTH_LEAST: usize = 24;

/// Appends an entry.
#[inline]
pub(crate) fn append<T: Drop>(
    alloc: Global,
    entries: &mut Vec<Entry<T>>,
    entry: Entry<T>,
) -> Result<(), AllocError>
    ensures items { OnOk result (entries.new.items ≡ entries.old.items ++ entry ∷ []) }
    ensures unchanged { OnErr result (entries.new.items ≡ entries.old.items) }
{
    let len = entries.len();
    if len == entries.capacity() {
        make_room(alloc, entries)?;
    }
    entries.push(entry)?;
    Ok(())
}

/// Makes room for more entries in a row that is full.
///
/// The row is not extended in place, but moved to new memory. If threads share maps, to extend it
/// would hold the lock of the heap that it lies in, which is mostly another thread's, while it is
/// copied.
#[cold]
#[inline(never)]
fn make_room<T: Drop>(alloc: Global, entries: &mut Vec<Entry<T>>) -> Result<(), AllocError>
    ensures { entries.new.items ≡ entries.old.items }
{
    let room = (entries.len() / GROWTH_PART + GROWTH_LEAST).saturating_add(entries.len());
    let mut roomy = Vec::with_capacity(alloc, room)?;
    roomy.append(entries)?;
    *entries = roomy;
    Ok(())
}

/// `len` and one more, if that is less than 2^32.
pub(crate) fn one_more(len: usize) -> Result<u32, AllocError>
    ensures { IfOk result (λ n. n ≡ len + 1) }
{
    let Ok(len) = u32::try_from(len) else {
        return Err(AllocError);
    };
    len.checked_add(1).ok_or(AllocError)
}
