//! The edges of a block, and all edges in the order of a graph.

ghost use Rattle.std.specs.Prelude.{◌≡◌, ◌↔◌, ◌≤◌, ◌<◌, ◌+◌, ℕ, List, AllPairs, Contains, IsTrue};
ghost use Rattle.std.specs.Prelude.{OnOk, Some, get_or, length};
ghost use Rattle.std.specs.List.Sorted.{IsPermutation};
ghost use Rattle.cfg_model.specs.declared.graph.Edge.{Edge};
ghost use Rattle.cfg_model.specs.Graph.Edge.{Leaves};
ghost use Rattle.cfg_model.specs.Graph.Graph.{EdgeBefore};
ghost use Rattle.cfg_model.specs.Graph.Listing.{Gains, Lists};
ghost use Rattle.cfg_model.specs.Program.Instructions.{IsLawful, flow_at};
ghost use Rattle.cfg_model.specs.Program.Reach.{Reached};
ghost use Rattle.cfg_model.specs.Program.Status.{Returns};
ghost use Rattle.reached_graph.specs.Inner.Ways.{IfCalls, TellsReached};

use cfg_model::{Chains, Edge, Flow, Memory, add_edges_by, edges_in_order};

/// Gains the edges of the block from `s` to the instruction at `k`, whose flow this is.
pub(crate) fn add_ways<C: Chains, F: Fn(u64) -> bool>(
    code: &C,
    returns: &F,
    s: u64,
    k: u64,
    flow: Flow,
    edges: &mut Vec<Edge>,
) -> Result<(), Memory>
    requires lawful { IsLawful (C.map code.now) }
    requires flow { flow_at (C.map code.now) k ≡ Some flow }
    requires returns { (seeds : List ℕ) × Reached (C.map code.now) seeds k
        × TellsReached (C.map code.now) seeds (F.pre returns.now) (F.post returns.now) }
    ensures { OnOk result (Gains edges.old.items edges.new.items
        (Leaves (C.map code.now) (Returns (C.map code.now)) s k)) }
{
    let back = callee_returns(flow, returns);
    let before = edges.len();
    add_edges_by(code, s, k, flow, back, edges)?;
    sort_from(edges, before)
}

/// Puts the edges from place `from` on into the order of a graph; of more than two, each once, since
/// a table may name an address twice. Blocks are gone over in that order, so with those of each block
/// sorted, all are in order.
fn sort_from(edges: &mut Vec<Edge>, from: usize) -> Result<(), Memory>
    ensures { OnOk result
        ((edge : _) → Contains edges.new.items edge ↔ Contains edges.old.items edge) }
{
    let from = from.min(edges.len());
    if edges.len() - from < 2 {
        return Ok(());
    }
    if edges.len() - from == 2 {
        sort_two(&mut edges[from..]);
        return Ok(());
    }
    sort_more(edges, from)
}

/// Puts two edges into the order of a graph.
fn sort_two(edges: &mut [Edge])
    requires { length edges.old ≡ 2 }
    ensures { IsPermutation edges.old edges.new }
{
    if edges[1] < edges[0] {
        edges.swap(0, 1);
    }
}

/// Puts the edges from place `from` on into the order of a graph, each once.
fn sort_more(edges: &mut Vec<Edge>, from: usize) -> Result<(), Memory>
    requires { from ≤ length edges.old.items }
    ensures { OnOk result
        ((edge : _) → Contains edges.new.items edge ↔ Contains edges.old.items edge) }
{
    let last = Vec::from_slice(*edges.allocator(), &edges[from..])?;
    let last = edges_in_order(last);
    edges.truncate(from);
    edges.extend_from_slice(&last)
}

/// What `returns` says of the target, if this is the flow of a call of a known address.
fn callee_returns<F: Fn(u64) -> bool>(flow: Flow, returns: &F) -> bool
    requires { IfCalls flow (λ target. F.pre returns.now target) }
    ensures { IfCalls flow (λ target. F.post returns.now target result) }
{
    match flow {
        Flow::Call { target, .. } => returns(target),
        _ => false,
    }
}

/// The same edges, each once, by the start of the block that they leave, then of the block that
/// they enter, then by kind. That takes one pass if they are so already.
pub(crate) fn by_source(edges: Vec<Edge>) -> Vec<Edge>
    ensures { Lists EdgeBefore (Contains edges.items) result.items }
{
    if are_in_order(&edges) {
        edges
    } else {
        edges_in_order(edges)
    }
}

/// Whether each of these edges comes before the next one.
fn are_in_order(edges: &[Edge]) -> bool
    ensures { IsTrue result → AllPairs EdgeBefore edges.now }
{
    for i in 1..edges.len() {
        if !comes_next(edges, i - 1) {
            return false;
        }
    }
    true
}

/// Whether the edge at place `i` comes before the next one. Of two edges between the same blocks that
/// is not told.
fn comes_next(edges: &[Edge], i: usize) -> bool
    requires { i + 1 < length edges.now }
    ensures { IsTrue result
        → (d : Edge) → EdgeBefore (get_or edges.now i d) (get_or edges.now (i + 1) d) }
{
    let a = &edges[i];
    let b = &edges[i + 1];
    a.from < b.from || a.from == b.from && a.to < b.to
}
