//! The entries of functions.

ghost use Rattle.std.specs.Prelude.{◌↔◌, ℕ, ◌<◌, ◌≤◌, AllPairs, Contains, IfOk, IsTrue, OnOk};
ghost use Rattle.std.specs.Prelude.{length, slice_index};
ghost use Rattle.std.specs.List.Sorted.{IsStrictlyIncreasing};
ghost use Rattle.cfg_model.specs.Graph.Listing.{Gains};
ghost use Rattle.cfg_model.specs.Graph.Graph.{BlockBefore};
ghost use Rattle.outline_funcs.specs.Inner.Entries.{CallsTo, AreCalledBy, AreEntriesBy, AreEntered};

use crate::Memory;
use cfg_model::{Block, Edge, EdgeKind};
use std::alloc::Global;

/// The seeds and the targets of calls among these edges, rising, each once.
pub(crate) fn entries_of(alloc: Global, edges: &[Edge], seeds: &[u64]) -> Result<Vec<u64>, Memory>
    ensures { IfOk result (λ v. AreEntriesBy edges.now seeds.now v.items) }
{
    let called = called_in(alloc, edges, seeds)?;
    Ok(rising(called))
}

/// The seeds, and the targets of calls.
fn called_in(alloc: Global, edges: &[Edge], seeds: &[u64]) -> Result<Vec<u64>, Memory>
    ensures { IfOk result (λ v. Gains seeds.now v.items (AreCalledBy edges.now)) }
{
    let mut called = Vec::from_slice(alloc, seeds)?;
    for edge in edges {
        add_called(*edge, &mut called)?;
    }
    Ok(called)
}

/// Adds the target of this edge if it is a call.
fn add_called(edge: Edge, called: &mut Vec<u64>) -> Result<(), Memory>
    ensures { OnOk result (Gains called.old.items called.new.items (CallsTo edge)) }
{
    if edge.kind == EdgeKind::Call {
        called.push(edge.to)?;
    }
    Ok(())
}

/// The same addresses, rising, each once.
fn rising(mut addresses: Vec<u64>) -> Vec<u64>
    ensures rising { IsStrictlyIncreasing result.items }
    ensures same { (a : ℕ) → Contains result.items a ↔ Contains addresses.items a }
{
    addresses.sort_unstable();
    addresses.dedup();
    addresses
}

/// For each of these blocks, whether one of these entries stands at its start.
/// Time: O(blocks + entries).
pub(crate) fn entered_of(
    alloc: Global,
    blocks: &[Block],
    entries: &[u64],
) -> Result<Vec<bool>, Memory>
    requires blocks { AllPairs BlockBefore blocks.now }
    requires entries { IsStrictlyIncreasing entries.now }
    ensures { IfOk result (λ v. AreEntered blocks.now entries.now v.items) }
{
    let mut entered = Vec::with_capacity(alloc, blocks.len())?;
    let mut next = 0;
    for block in blocks {
        next = entry_from(entries, next, block.start);
        entered.push(next < entries.len() && entries[next] == block.start)?;
    }
    Ok(entered)
}

/// The place of the first of these rising entries that is at least `a`, or their end. It is `i`, or
/// lies after it.
fn entry_from(entries: &[u64], mut i: usize, a: u64) -> usize
    requires within { i ≤ length entries.now }
    requires before { (k : ℕ) → k < i → slice_index entries.now k < a }
    ensures within { result ≤ length entries.now }
    ensures before { (k : ℕ) → k < result → slice_index entries.now k < a }
    ensures there { result < length entries.now → a ≤ slice_index entries.now result }
{
    while i < entries.len() && entries[i] < a {
        i += 1;
    }
    i
}

/// Whether the rising list `addresses` has `a`.
pub(crate) fn is_listed(addresses: &[u64], a: u64) -> bool
    requires { IsStrictlyIncreasing addresses.now }
    ensures { IsTrue result ↔ Contains addresses.now a }
{
    addresses.binary_search(&a).is_ok()
}
