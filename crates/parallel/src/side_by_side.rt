//! Calls side by side, each on a thread of its own.
//!
//! std's `map_indices` and `for_each_chunk_mut` halve their calls, and start half of the
//! threads from threads that they have just started. Linux may lay such a thread on the processor
//! of the one that started it, if it waits for milliseconds beside idle processors. Here the caller
//! starts all threads itself.

ghost use Rattle.std.specs.Prelude.{◌≡◌, ℕ, ◌<◌, IfOk, vec_len};
ghost use Rattle.std.specs.Fork.{GivesEach};
ghost use Rattle.std.specs.Thread.{IsSend, IsSync};

use std::alloc::{AllocError, Global};
use std::marker::{Send, Sync};
use std::thread::{Threads, join};

/// Calls `f` at each number below `count`, each but the first on a thread of its own, or on the
/// caller's if none can be made, and gives the results in order. The stack grows with `count`. On
/// [`AllocError`], which means that memory ran out, the results are dropped.
pub fn map_indices<R: Threads + Sync, X: Send + Drop, F: Fn(usize) -> X + Sync>(
    rt: &R,
    alloc: Global,
    count: usize,
    f: &F,
) -> Result<Vec<X>, AllocError>
    requires { (i : ℕ) → i < count → F.pre f.now i }
    ensures len { IfOk result (λ v. vec_len v ≡ count) }
    ensures each { IfOk result (λ v. GivesEach F.Fn f.now count v.items) }
{
    if count == 0 {
        return Ok(Vec::new(alloc));
    }
    if count == 1 {
        let mut one = Vec::new(alloc);
        one.push(f(0))?;
        return Ok(one);
    }
    let last = count - 1;
    let (result, front) = join(
        rt,
        || -> X
            requires { IsSync F.row × IsSend X.row × F.pre f.now last }
            ensures { F.post f.entry.now last result }
        { f(last) },
        || -> Result<Vec<X>, AllocError>
            requires { IsSync R.row × IsSync F.row × IsSend X.row
                × ((i : ℕ) → i < last → F.pre f.now i) }
            ensures { IfOk result (λ v. (vec_len v ≡ last)
                × GivesEach F.Fn f.entry.now last v.items) }
        { map_indices(rt, alloc, last, f) },
    );
    let mut all = front?;
    all.push(result)?;
    Ok(all)
}
