//! Calls at numbers, by some counts, and by some numbers of threads.

use crate::asserts::{same, same_at};
use parallel::map_drawn;
use std::alloc::{AllocError, Global};
use std::process::Abort;
use std::sync::atomic::{AtomicU64, Ordering};
use std::test::Fail;

#[test]
fn results_in_order(rt: HostRuntime) -> Result<(), Fail> {
    for threads in [1, 2, 4, 64] {
        for count in [0, 1, 2, 3, 64, 1000] {
            let square = |i: usize| i.wrapping_mul(i);
            let squares = map_drawn(&rt, rt.alloc(), threads, count, &square)?;
            same(&rt, &squares.len(), &count);
            for i in 0..count {
                same(&rt, &squares.get(i), &Some(&i.wrapping_mul(i)));
            }
        }
    }
    Ok(())
}

/// A count of calls for each number below this one.
fn no_calls(alloc: Global, count: usize) -> Result<Vec<AtomicU64>, AllocError> {
    let mut calls = Vec::new(alloc);
    for _ in 0..count {
        calls.push(AtomicU64::new(0))?;
    }
    Ok(calls)
}

/// Counts one call.
fn count_call(calls: &[AtomicU64], number: usize) {
    if let Some(call) = calls.get(number) {
        call.fetch_add(1, Ordering::SeqCst);
    }
}

/// Each number was called once.
fn each_once(rt: &impl Abort, calls: &[AtomicU64]) {
    for (number, call) in calls.iter().enumerate() {
        same_at(rt, &number, &call.load(Ordering::SeqCst), &1);
    }
}

/// No number is drawn twice, and none is left to the caller. A counter that stands still lets each
/// thread make all calls.
#[test]
fn each_number_once(rt: HostRuntime) -> Result<(), Fail> {
    for threads in [1, 2, 4, 64] {
        let calls = no_calls(rt.alloc(), 1000)?;
        let counted = |i: usize| {
            count_call(&calls, i);
            i
        };
        map_drawn(&rt, rt.alloc(), threads, 1000, &counted)?;
        each_once(&rt, &calls);
    }
    Ok(())
}

/// How often the first call looks whether another has begun.
const TURNS: u64 = 200_000_000;

/// Notes that a call has begun; the one at 0 returns once another has. Whether it did.
fn meets(begun: &AtomicU64, number: usize) -> bool {
    begun.fetch_add(1, Ordering::SeqCst);
    if number > 0 {
        return true;
    }
    for _ in 0..TURNS {
        if begun.load(Ordering::SeqCst) > 1 {
            return true;
        }
    }
    false
}

/// Two threads draw at the same time: while one makes the call at 0, the other makes the next.
#[test]
fn two_threads_draw(rt: HostRuntime) -> Result<(), Fail> {
    let begun = AtomicU64::new(0);
    let met = map_drawn(&rt, rt.alloc(), 2, 2, &|i: usize| meets(&begun, i))?;
    same(&rt, &met.as_slice(), &[true, true].as_slice());
    same(&rt, &begun.load(Ordering::SeqCst), &2);
    Ok(())
}
