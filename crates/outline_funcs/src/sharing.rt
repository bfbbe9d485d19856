//! The functions of a program, made by several threads.

ghost use Rattle.std.specs.Prelude.{◌≡◌, ℕ, ◌<◌, ◌≤◌, IfOk, IsSome, length, vec_len};
ghost use Rattle.std.specs.Prelude.{slice_index_or, All, AllPairs};
ghost use Rattle.std.specs.List.{AllZip, flat_map};
ghost use Rattle.std.specs.List.Sorted.{IsNonDecreasingBy};
ghost use Rattle.std.specs.Thread.{IsSync};
ghost use Rattle.cfg_model.specs.Graph.Function.{IsEntry, IsFunction};
ghost use Rattle.cfg_model.specs.Graph.Graph.{BlockBefore, FunctionBefore, IsOutline};
ghost use Rattle.cfg_model.specs.Graph.Listing.{Lists};
ghost use Rattle.outline_funcs.specs.Listed.{AreOrdered, HaveEachEntry, TellsReturns};
ghost use Rattle.outline_funcs.specs.Inner.Bodies.{IsFunctionBy};
ghost use Rattle.outline_funcs.specs.Inner.Entries.{AreEntriesBy};
ghost use Rattle.outline_funcs.specs.Inner.Exits.{AreFirsts};
ghost use Rattle.outline_funcs.specs.Inner.Plans.{AreAll, MakesAll, Serves};

use crate::Memory;
use crate::entries::entries_of;
use crate::exits::{Exits, firsts_of};
use crate::listing::{Plan, functions_among, functions_at, plan_from};
use cfg_model::{Block, Chains, Function, Functions, Outline};
use parallel::{MOST_WORKERS, joined_if_made, map_indices};
use std::alloc::Global;
use std::thread::{Threads, join};

/// The answer of [`functions_among`], made by so many workers, from 1 to 64. With one worker no
/// thread is started. [`Memory`] where memory ran out. [`Memory`] too where one part has 2^32 - 1
/// functions or more, which alone take more than 160 GiB, or where there are 2^32 edges or more,
/// which alone take 96 GiB.
///
/// Two threads find the entries, and the first edge from each block. The entries are cut
/// into one part for each worker, with about as many blocks between the first and the last one of
/// each. A worker needs four bytes for each block of the program, besides its functions and five
/// bytes for each block that all share.
pub fn functions_among_by<R: Threads + Sync, C: Chains, F: Fn(u64) -> bool + Sync>(
    rt: &R,
    alloc: Global,
    code: &C,
    seeds: &[u64],
    outline: &Outline,
    returns: &F,
    workers: u32,
) -> Result<Functions, Memory>
    requires outline { IsOutline (C.map code.now) seeds.now outline.now.blocks outline.now.edges }
    requires seeds { All (λ a. IsSome (C.map code.now a)) seeds.now }
    requires returns { TellsReturns (C.map code.now) seeds.now (F.pre returns.now) (F.post returns.now) }
    requires some { 1 ≤ workers }
    requires most { workers ≤ MOST_WORKERS }
    ensures exact { IfOk result (Lists FunctionBefore (IsFunction (C.map code.now) seeds.now)) }
    ensures complete { IfOk result (HaveEachEntry (C.map code.now) seeds.now) }
    ensures ordered { IfOk result AreOrdered }
{
    if workers == 1 {
        return functions_among(alloc, code, seeds, outline, returns);
    }
    let functions = functions_shared(rt, alloc, code, seeds, outline, returns, workers as usize)?;
    Ok(Functions::from_vec(functions))
}

/// The same as a list, with threads.
fn functions_shared<R: Threads + Sync, C: Chains, F: Fn(u64) -> bool + Sync>(
    rt: &R,
    alloc: Global,
    code: &C,
    seeds: &[u64],
    outline: &Outline,
    returns: &F,
    workers: usize,
) -> Result<Vec<Function>, Memory>
    requires outline { IsOutline (C.map code.now) seeds.now outline.now.blocks outline.now.edges }
    requires seeds { All (λ a. IsSome (C.map code.now a)) seeds.now }
    requires returns { TellsReturns (C.map code.now) seeds.now (F.pre returns.now) (F.post returns.now) }
    requires some { 0 < workers }
    ensures { IfOk result (λ v. AreAll (C.map code.now) seeds.now v.items) }
{
    let blocks = outline.blocks.as_slice();
    let Plan { entries, exits } = plan_by(rt, alloc, code, seeds, outline)?;
    let parts = parts_of(alloc, &entries, blocks, workers)?;
    let lists = made_by_part(rt, alloc, &exits, &parts, returns)?;
    let functions = joined_if_made(alloc, lists)?;
    Ok(functions)
}

/// The answer of `plan_of`, made by two threads: one finds the entries, the other the first edges.
fn plan_by<'a, R: Threads + Sync, C: Chains>(
    rt: &R,
    alloc: Global,
    code: &C,
    seeds: &[u64],
    outline: &'a Outline,
) -> Result<Plan<'a>, Memory>
    requires outline { IsOutline (C.map code.now) seeds.now outline.now.blocks outline.now.edges }
    requires seeds { All (λ a. IsSome (C.map code.now a)) seeds.now }
    ensures serves { IfOk result
        (λ plan. Serves (IsEntry (C.map code.now) seeds.now) plan.exits plan.entries.items) }
    ensures makes { IfOk result
        (λ plan. MakesAll (C.map code.now) seeds.now plan.exits plan.entries.items) }
{
    let blocks = outline.blocks.as_slice();
    let edges = outline.edges.as_slice();
    let (entries, firsts) = join(
        rt,
        || -> Result<Vec<u64>, Memory>
            ensures { IfOk result (λ v. AreEntriesBy edges.entry.now seeds.entry.now v.items) }
        { entries_of(alloc, edges, seeds) },
        || -> Result<Vec<u32>, Memory>
            requires blocks { AllPairs BlockBefore blocks.now }
            requires edges { IsNonDecreasingBy (λ edge. edge.from) edges.now }
            ensures { IfOk result (λ v. AreFirsts blocks.entry.now edges.entry.now v.items) }
        { firsts_of(alloc, blocks, edges) },
    );
    plan_from(alloc, code, seeds, outline, entries?, firsts?)
}

/// The entries in parts that lie side by side, one for each worker at most, and one more where some
/// lie behind all blocks.
fn parts_of<'a>(
    alloc: Global,
    entries: &'a [u64],
    blocks: &[Block],
    workers: usize,
) -> Result<Vec<&'a [u64]>, Memory>
    requires { 0 < workers }
    ensures { IfOk result (λ v. flat_map (λ part. part.now) v.items ≡ entries.now) }
{
    let mut parts = Vec::with_capacity(alloc, workers)?;
    let mut rest = entries;
    for share in blocks.chunks(blocks.len() / workers + 1) {
        let count = entries_within(rest, share);
        parts.push(&rest[..count])?;
        rest = &rest[count..];
    }
    if !rest.is_empty() {
        parts.push(rest)?;
    }
    Ok(parts)
}

/// How many of these rising entries lie at or before the last of these blocks.
fn entries_within(entries: &[u64], blocks: &[Block]) -> usize
    ensures { result ≤ length entries.now }
{
    match blocks.last() {
        Some(last) => entries.partition_point(|entry| *entry <= last.start),
        None => 0,
    }
}

/// The functions of each part, made on a thread of its own, in the order of the parts.
fn made_by_part<R: Threads + Sync, F: Fn(u64) -> bool + Sync>(
    rt: &R,
    alloc: Global,
    exits: &Exits,
    parts: &[&[u64]],
    returns: &F,
) -> Result<Vec<Result<Vec<Function>, Memory>>, Memory>
    requires { All (λ part. Serves (F.pre returns.now) exits.now part.now) parts.now }
    ensures as_many { IfOk result (λ v. vec_len v ≡ length parts.now) }
    ensures each { IfOk result (λ v. (i : ℕ) (d : _) (e : _) → i < length parts.now
        → IfOk (slice_index_or v.items i e) (λ w.
        AllZip (IsFunctionBy (F.post returns.now) exits.now)
        (slice_index_or parts.now i d).now w.items)) }
{
    let make = |i: usize| -> Result<Vec<Function>, Memory>
        requires { IsSync F.row × i < length parts.now
            × All (λ part. Serves (F.pre returns.now) exits.now part.now) parts.now }
        ensures { IfOk result
            (λ v. (d : _) → AllZip (IsFunctionBy (F.post returns.entry.now) exits.entry.now)
            (slice_index_or parts.entry.now i d).now v.items) }
    { functions_at(alloc, exits, parts[i], returns) };
    Ok(map_indices(rt, alloc, parts.len(), &make)?)
}
