//! Blocks and edges, read off the last instruction of a block.

ghost use Rattle.std.specs.Prelude.{◌≡◌, ◌↔◌, ◌⊎◌, ℕ, AllPairs, Contains};
ghost use Rattle.std.specs.Prelude.{IsSome, IsTrue, OnOk, Some};
ghost use Rattle.cfg_model.specs.Graph.Block.{end_kind, IsBlockOf};
ghost use Rattle.cfg_model.specs.Graph.Edge.{Leaves};
ghost use Rattle.cfg_model.specs.Graph.Graph.{EdgeBefore};
ghost use Rattle.cfg_model.specs.Graph.Listing.{Gains};
ghost use Rattle.cfg_model.specs.Inner.Ways.{edge_to, IsEdgeTo};
ghost use Rattle.cfg_model.specs.Program.Instructions.{IsLawful, flow_at, targets_at};
ghost use Rattle.cfg_model.specs.Program.Successors.{MayLand};

use crate::Memory;
use crate::flow::{Chains, Flow};
use crate::graph::{Block, Edge, EdgeKind, EndKind};

/// The block from `s` to the instruction at `k`.
pub fn block_of<C: Chains>(code: &C, s: u64, k: u64) -> Block
    requires { IsSome (C.map code.now k) }
    ensures lawful { IsLawful (C.map code.now) }
    ensures block { IsBlockOf (C.map code.now) s k result }
{
    block_by(code, s, k, code.flow(k))
}

/// The block from `s` to the instruction at `k`, whose flow this is.
pub fn block_by<C: Chains>(code: &C, s: u64, k: u64, flow: Flow) -> Block
    requires stands { IsSome (C.map code.now k) }
    requires flow { flow_at (C.map code.now) k ≡ Some flow }
    ensures lawful { IsLawful (C.map code.now) }
    ensures block { IsBlockOf (C.map code.now) s k result }
{
    let end = k + u64::from(code.length(k));
    Block {
        start: s,
        end,
        kind: end_kind_of(flow),
    }
}

/// What a block ends with whose last instruction has this flow.
fn end_kind_of(flow: Flow) -> EndKind
    ensures { result ≡ end_kind flow }
{
    match flow {
        Flow::Straight { .. } => EndKind::Fall,
        Flow::Branch {
            taken: Some(_),
            fall: Some(_),
        } => EndKind::Branch,
        Flow::Branch { .. } => EndKind::BranchOut,
        Flow::Jump { .. } => EndKind::Jump,
        Flow::Call { .. } => EndKind::Call,
        Flow::IndirectCall { .. } => EndKind::IndirectCall,
        Flow::Table { is_open: true, .. } => EndKind::TableOpen,
        Flow::Table {
            full: true,
            is_open: false,
            ..
        } => EndKind::Table,
        Flow::Table {
            full: false,
            is_open: false,
            ..
        } => EndKind::TableCut,
        Flow::Return => EndKind::Return,
        Flow::Unknown => EndKind::Unknown,
        Flow::Stop => EndKind::Stop,
    }
}

/// Adds the edges of the block that starts at `s` and whose last instruction stands at `k`. If that
/// is a call of a known address, `returns` says whether its target returns. [`Memory`] if memory
/// ran out.
pub fn add_edges<C: Chains>(
    code: &C,
    s: u64,
    k: u64,
    returns: bool,
    edges: &mut Vec<Edge>,
) -> Result<(), Memory>
    requires { IsSome (C.map code.now k) }
    ensures { OnOk result (Gains edges.old.items edges.new.items
        (Leaves (C.map code.now) (λ _. IsTrue returns) s k)) }
{
    add_edges_by(code, s, k, code.flow(k), returns, edges)
}

/// The same, where `flow` is the flow of the instruction at `k`.
pub fn add_edges_by<C: Chains>(
    code: &C,
    s: u64,
    k: u64,
    flow: Flow,
    returns: bool,
    edges: &mut Vec<Edge>,
) -> Result<(), Memory>
    requires lawful { IsLawful (C.map code.now) }
    requires flow { flow_at (C.map code.now) k ≡ Some flow }
    ensures { OnOk result (Gains edges.old.items edges.new.items
        (Leaves (C.map code.now) (λ _. IsTrue returns) s k)) }
{
    match flow {
        Flow::Straight { next } => add_edge(s, EdgeKind::Fall, next, edges),
        Flow::Branch { taken, fall } => add_branch(s, taken, fall, edges),
        Flow::Jump { target } => add_edge(s, EdgeKind::Jump, target, edges),
        Flow::Call { target, fall } => {
            add_call(s, target, fall, returns, edges)?;
            add_landing(code, s, k, edges)
        }
        Flow::IndirectCall { fall } => {
            add_some(s, EdgeKind::After, fall, edges)?;
            add_landing(code, s, k, edges)
        }
        Flow::Table { .. } => add_table(code, s, k, edges),
        Flow::Return | Flow::Unknown | Flow::Stop => Ok(()),
    }
}

/// Adds this edge.
fn add_edge(from: u64, kind: EdgeKind, to: u64, edges: &mut Vec<Edge>) -> Result<(), Memory>
    ensures { OnOk result
        (Gains edges.old.items edges.new.items (λ edge. edge ≡ edge_to from kind to)) }
{
    edges.push(Edge { from, to, kind })?;
    Ok(())
}

/// Adds this edge, if it leads anywhere.
fn add_some(from: u64, kind: EdgeKind, to: Option<u64>, edges: &mut Vec<Edge>) -> Result<(), Memory>
    ensures { OnOk result (Gains edges.old.items edges.new.items (IsEdgeTo from kind to)) }
{
    match to {
        Some(to) => add_edge(from, kind, to, edges),
        None => Ok(()),
    }
}

/// Of a branch: both of its ways that are in the graph.
fn add_branch(
    from: u64,
    taken: Option<u64>,
    fall: Option<u64>,
    edges: &mut Vec<Edge>,
) -> Result<(), Memory>
    ensures { OnOk result (Gains edges.old.items edges.new.items
        (λ edge. IsEdgeTo from EdgeKind.Taken taken edge ⊎ IsEdgeTo from EdgeKind.Fall fall edge)) }
{
    add_some(from, EdgeKind::Taken, taken, edges)?;
    add_some(from, EdgeKind::Fall, fall, edges)
}

/// Of a call: its target, and where it returns to if the target returns.
fn add_call(
    from: u64,
    target: u64,
    fall: Option<u64>,
    returns: bool,
    edges: &mut Vec<Edge>,
) -> Result<(), Memory>
    ensures { OnOk result
        (Gains edges.old.items edges.new.items (λ edge. (edge ≡ edge_to from EdgeKind.Call target)
        ⊎ (IsTrue returns × IsEdgeTo from EdgeKind.After fall edge))) }
{
    add_edge(from, EdgeKind::Call, target, edges)?;
    if returns {
        add_some(from, EdgeKind::After, fall, edges)
    } else {
        Ok(())
    }
}

/// Of a call at `k`: its landing pad, if it has one.
fn add_landing<C: Chains>(code: &C, from: u64, k: u64, edges: &mut Vec<Edge>) -> Result<(), Memory>
    requires { MayLand (C.map code.now) k }
    ensures { OnOk result (Gains edges.old.items edges.new.items (λ edge. (to : ℕ)
        × Contains (targets_at (C.map code.now) k) to
        × (edge ≡ edge_to from EdgeKind.Landing to))) }
{
    add_some(from, EdgeKind::Landing, code.landing(k), edges)
}

/// Of a table jump at `k`: its kept targets.
fn add_table<C: Chains>(code: &C, from: u64, k: u64, edges: &mut Vec<Edge>) -> Result<(), Memory>
    requires { IsSome (C.map code.now k) }
    ensures { OnOk result (Gains edges.old.items edges.new.items (λ edge. (to : ℕ)
        × Contains (targets_at (C.map code.now) k) to × (edge ≡ edge_to from EdgeKind.Table to))) }
{
    let targets = code.targets(k)?;
    for to in &targets {
        edges.push(Edge {
            from,
            to: *to,
            kind: EdgeKind::Table,
        })?;
    }
    Ok(())
}

/// The same edges in the order of a graph, each once.
pub fn edges_in_order(mut edges: Vec<Edge>) -> Vec<Edge>
    ensures in_order { AllPairs EdgeBefore result.items }
    ensures same { (edge : _) → Contains result.items edge ↔ Contains edges.items edge }
{
    edges.sort_unstable();
    edges.dedup();
    edges
}
