//! Which blocks come after which.
//!
//! A block goes on into at most one other, of a later place. Each keeps a jump to one further on, so
//! that a climb takes a number of steps that is the logarithm of the number of blocks (E. W. Myers,
//! An applicative random-access stack, 1983).

ghost use Rattle.std.specs.Prelude.{◌↔◌, ◌+◌, ◌≤◌, ◌<◌, ◌^◌, IfOk, IsTrue, MatchOption, length};
ghost use Rattle.cert_check.specs.Inner.Jumps.{AreJumps, IsForest, LeadsAlong};

use crate::blocks::Run;
use cfg_model::Memory;
use std::alloc::Global;

/// A block that comes after a block.
#[derive(Clone, Copy)]
pub(crate) struct Jump {
    /// Its place; that of the block itself if it goes on into no other.
    pub(crate) to: u32,
    /// How many blocks come after the block itself. It only tells which jumps save time.
    pub(crate) after: u32,
}

/// A jump for each of these blocks.
/// Time: O(blocks). Memory: eight bytes for each block.
pub(crate) fn jumps_of(alloc: Global, runs: &[Run]) -> Result<Vec<Jump>, Memory>
    requires forest { IsForest runs.now }
    requires few { length runs.now < 2 ^ 32 }
    ensures { IfOk result (λ v. AreJumps runs.now v.items 0) }
{
    let mut jumps = vec![in alloc; Jump { to: 0, after: 0 }; runs.len()]?;
    for i in (0..runs.len()).rev() {
        jumps[i] = jump_from(runs, &jumps, i);
    }
    Ok(jumps)
}

/// The jump of the block at place `i`, where those of all later ones are made.
fn jump_from(runs: &[Run], jumps: &[Jump], i: usize) -> Jump
    requires forest { IsForest runs.now }
    requires few { length runs.now < 2 ^ 32 }
    requires within { i < length runs.now }
    requires jumps { AreJumps runs.now jumps.now (i + 1) }
    ensures { LeadsAlong runs.now i result.to }
{
    let Some(next) = runs[i].into else {
        return Jump {
            to: i as u32,
            after: 0,
        };
    };
    let near = jumps[next as usize];
    let middle = jumps[near.to as usize];
    let far = jumps[middle.to as usize];
    let first = near.after.saturating_sub(middle.after);
    let second = middle.after.saturating_sub(far.after);
    Jump {
        to: if first == second { middle.to } else { next },
        after: near.after.saturating_add(1),
    }
}

/// Whether the block at place `to` comes after that at place `from`, or is the same.
/// Time: O(log n) for n blocks.
pub(crate) fn leads_along(runs: &[Run], jumps: &[Jump], from: usize, to: usize) -> bool
    requires forest { IsForest runs.now }
    requires jumps { AreJumps runs.now jumps.now 0 }
    requires from { from < length runs.now }
    requires to { to < length runs.now }
    ensures { IsTrue result ↔ LeadsAlong runs.now from to }
{
    let mut at = from;
    while at < to {
        match towards(runs, jumps, at, to) {
            Some(next) => at = next,
            None => return false,
        }
    }
    at == to
}

/// A block that comes after that at place `at`, but not after that at the later place `to` if that
/// one comes after it at all; `None` if it does not.
fn towards(runs: &[Run], jumps: &[Jump], at: usize, to: usize) -> Option<usize>
    requires forest { IsForest runs.now }
    requires jumps { AreJumps runs.now jumps.now 0 }
    requires below { at < to }
    requires to { to < length runs.now }
    ensures { MatchOption result (¬ LeadsAlong runs.now at to) (λ next. (at < next)
        × (next < length runs.now) × LeadsAlong runs.now at next
        × (LeadsAlong runs.now at to → LeadsAlong runs.now next to)) }
{
    let jump = jumps[at].to as usize;
    if at < jump && jump <= to {
        return Some(jump);
    }
    match runs[at].into {
        Some(next) => Some(next as usize),
        None => None,
    }
}
