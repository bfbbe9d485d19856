//! Calls side by side, whose numbers threads draw one after another.
//!
//! If the calls are cut into one fixed piece for each thread, all wait for the slowest one, and for
//! one that begins late. Here a thread that is done with a number draws the next, so fast threads
//! make more calls.
//!
//! Nothing is known of the counter: what the threads made is put in place by its number, and what
//! is missing then is made by the caller.

ghost use Rattle.std.specs.Prelude.{◌≡◌, ℕ, ◌<◌, IfOk, vec_len, length, All};
ghost use Rattle.std.specs.Fork.{GivesEach};
ghost use Rattle.std.specs.Thread.{IsSync};
ghost use Rattle.parallel.specs.Inner.Drawn.{IsResultBelow, ArePlaced};

use crate::side_by_side::map_indices;
use std::alloc::{AllocError, Global};
use std::marker::{Send, Sync};
use std::sync::atomic::{AtomicUsize, Ordering};
use std::thread::Threads;

/// Calls `f` at each number below `count` and gives the results in order. `threads` threads, the
/// caller's among them, draw the numbers one after another, but no more threads than there are
/// numbers. With one thread or one number no other is started. The stack grows with the number of
/// threads. On [`AllocError`], which means that memory ran out, the results are dropped.
///
/// A call whose result a thread has no memory to keep is made again by the caller.
pub fn map_drawn<R: Threads + Sync, X: Send + Drop, F: Fn(usize) -> X + Sync>(
    rt: &R,
    alloc: Global,
    threads: usize,
    count: usize,
    f: &F,
) -> Result<Vec<X>, AllocError>
    requires { (i : ℕ) → i < count → F.pre f.now i }
    ensures len { IfOk result (λ v. vec_len v ≡ count) }
    ensures each { IfOk result (λ v. GivesEach F.Fn f.now count v.items) }
{
    let next = AtomicUsize::new(0);
    let draw = |_thread: usize| -> Vec<(usize, X)>
        requires { IsSync F.row × ((i : ℕ) → i < count → F.pre f.now i) }
        ensures { All (IsResultBelow F.Fn f.entry.now count) result.items }
    { drawn(alloc, &next, count, f) };
    let lists = map_indices(rt, alloc, threads.min(count).max(1), &draw)?;
    in_order(alloc, lists, count, f)
}

/// The results at the numbers below `count` that this thread draws, each with its number. If memory
/// runs out it draws no more.
fn drawn<X: Drop, F: Fn(usize) -> X>(
    alloc: Global,
    next: &AtomicUsize,
    count: usize,
    f: &F,
) -> Vec<(usize, X)>
    requires { (i : ℕ) → i < count → F.pre f.now i }
    ensures { All (IsResultBelow F.Fn f.now count) result.items }
{
    let mut made = Vec::new(alloc);
    for _ in 0..count {
        let i = next.fetch_add(1, Ordering::SeqCst);
        if i >= count {
            break;
        }
        if made.push((i, f(i))).is_err() {
            break;
        }
    }
    made
}

/// The results at all numbers below `count`: those of the lists, and the others made now.
fn in_order<X: Drop, F: Fn(usize) -> X>(
    alloc: Global,
    lists: Vec<Vec<(usize, X)>>,
    count: usize,
    f: &F,
) -> Result<Vec<X>, AllocError>
    requires pre { (i : ℕ) → i < count → F.pre f.now i }
    requires made { All (λ list. All (IsResultBelow F.Fn f.now count) list.items) lists.items }
    ensures len { IfOk result (λ v. vec_len v ≡ count) }
    ensures each { IfOk result (λ v. GivesEach F.Fn f.now count v.items) }
{
    let mut places = no_results(alloc, count)?;
    for list in lists {
        fill(&mut places, list, f);
    }
    all_results(alloc, places, f)
}

/// This many empty places.
fn no_results<X: Drop>(alloc: Global, count: usize) -> Result<Vec<Option<X>>, AllocError>
    ensures len { IfOk result (λ v. vec_len v ≡ count) }
    ensures empty { IfOk result (λ v. All (λ place. place ≡ None) v.items) }
{
    let mut places = Vec::with_capacity(alloc, count)?;
    for _ in 0..count {
        places.push(None)?;
    }
    Ok(places)
}

/// Puts each result of a list into the place of its number.
fn fill<X: Drop, F: Fn(usize) -> X>(places: &mut [Option<X>], list: Vec<(usize, X)>, f: &F)
    requires made { All (IsResultBelow F.Fn f.now (length places.old)) list.items }
    requires placed { ArePlaced F.Fn f.now places.old }
    ensures len { length places.new ≡ length places.old }
    ensures placed { ArePlaced F.Fn f.now places.new }
{
    for (i, value) in list {
        put(places, i, value, f);
    }
}

/// Puts the result at a number into its place.
fn put<X: Drop, F: Fn(usize) -> X>(places: &mut [Option<X>], i: usize, value: X, f: &F)
    requires made { IsResultBelow F.Fn f.now (length places.old) (i, value) }
    requires placed { ArePlaced F.Fn f.now places.old }
    ensures len { length places.new ≡ length places.old }
    ensures placed { ArePlaced F.Fn f.now places.new }
{
    places[i] = Some(value);
}

/// What stands in the places, with the results made now if none does.
fn all_results<X: Drop, F: Fn(usize) -> X>(
    alloc: Global,
    places: Vec<Option<X>>,
    f: &F,
) -> Result<Vec<X>, AllocError>
    requires pre { (i : ℕ) → i < vec_len places → F.pre f.now i }
    requires placed { ArePlaced F.Fn f.now places.items }
    ensures len { IfOk result (λ v. vec_len v ≡ vec_len places) }
    ensures each { IfOk result (λ v. GivesEach F.Fn f.now (vec_len places) v.items) }
{
    let mut results = Vec::with_capacity(alloc, places.len())?;
    for place in places {
        let result = match place {
            Some(result) => result,
            None => f(results.len()),
        };
        results.push(result)?;
    }
    Ok(results)
}
