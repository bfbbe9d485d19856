//! What the blocks of a part lead to.

ghost use Rattle.std.specs.Prelude.{◌≡◌, ◌↔◌, IfOk, IsTrue, IsSome, OnOk, AllPairs, Contains, Some};
ghost use Rattle.cfg_model.specs.Graph.Edge.{Leaves};
ghost use Rattle.cfg_model.specs.Graph.Graph.{EdgeBefore};
ghost use Rattle.cfg_model.specs.Graph.Listing.{Gains};
ghost use Rattle.cfg_model.specs.Program.Successors.{IsCall};
ghost use Rattle.cfg_model.specs.Program.Instructions.{IsLawful, flow_at};
ghost use Rattle.cert_laws.specs.Lines.{IsReturn};
ghost use Rattle.cert_laws.specs.Ways.{EndsIn};
ghost use Rattle.cert_ends.specs.Places.{AreLeads, AreNumbered};
ghost use Rattle.cert_check.specs.Inner.Blocks.{AreRuns};
ghost use Rattle.cert_check.specs.Inner.Ways.{AreWays, HasEdge, comes_before};

use crate::blocks::Run;
use cert_ends::NumberedReturns;
use cert_text::LeadLine;
use cfg_model::{Edge, Flow, Memory, add_edges_by, edges_in_order};
use numbered::Numbered;
use std::alloc::Global;

/// The edges from the blocks of these leaders, in the order of a graph. A call returns if its target
/// ends in a listed return. [`Memory`] if memory ran out.
/// Time: O(edges · log edges), and O(edges) but for those of each block where no edge is double.
/// Memory: O(edges).
pub(crate) fn edges_of<C: Numbered>(
    alloc: Global,
    code: &C,
    leads: &[LeadLine],
    returns: &NumberedReturns<'_>,
    runs: &[Run],
) -> Result<Vec<Edge>, Memory>
    requires lawful { IsLawful (C.map code.now) }
    requires leads { AreLeads (C.map code.now) leads.now }
    requires returns { AreNumbered (C.map code.now) (C.number code.now) returns.now }
    requires runs { AreRuns (C.map code.now) leads.now runs.now }
    ensures { IfOk result (λ v. AreWays (C.map code.now) leads.now returns.now.lines.now v.items) }
{
    let mut edges = Vec::new(alloc);
    for (i, run) in runs.iter().enumerate() {
        add_ways(code, returns, leads[i].at, run.last, run.flow, &mut edges)?;
    }
    Ok(by_source(edges))
}

/// Adds the edges of the block that starts at `s` and whose last instruction, of this flow, stands at
/// `k`.
fn add_ways<C: Numbered>(
    code: &C,
    returns: &NumberedReturns<'_>,
    s: u64,
    k: u64,
    flow: Flow,
    edges: &mut Vec<Edge>,
) -> Result<(), Memory>
    requires lawful { IsLawful (C.map code.now) }
    requires returns { AreNumbered (C.map code.now) (C.number code.now) returns.now }
    requires flow { flow_at (C.map code.now) k ≡ Some flow }
    ensures { OnOk result (Gains edges.old.items edges.new.items
        (Leaves (C.map code.now) (EndsIn (C.map code.now) (IsReturn returns.now.lines.now)) s k)) }
{
    let back = callee_returns(code, returns, k, flow);
    let before = edges.len();
    add_edges_by(code, s, k, flow, back, edges)?;
    sort_from(edges, before);
    Ok(())
}

/// Puts the edges from place `from` on into the order of a graph. Blocks are gone over in that
/// order, so with those of each block sorted, all are in order, but for double ones.
fn sort_from(edges: &mut Vec<Edge>, from: usize)
    ensures { (edge : _) → Contains edges.new.items edge ↔ Contains edges.old.items edge }
{
    let from = from.min(edges.len());
    edges[from..].sort_unstable();
}

/// The same edges, each once, in the order of a graph. The first sort makes use of the order that
/// they have. If memory for it is missing, the second one does all.
fn by_source(mut edges: Vec<Edge>) -> Vec<Edge>
    ensures in_order { AllPairs EdgeBefore result.items }
    ensures same { (edge : _) → Contains result.items edge ↔ Contains edges.items edge }
{
    let _ = edges.sort();
    edges_in_order(edges)
}

/// If a known address is called at `k`, where this is the flow: whether it ends in a listed return.
fn callee_returns<C: Numbered>(code: &C, returns: &NumberedReturns<'_>, k: u64, flow: Flow) -> bool
    requires returns { AreNumbered (C.map code.now) (C.number code.now) returns.now }
    requires lawful { IsLawful (C.map code.now) }
    requires flow { flow_at (C.map code.now) k ≡ Some flow }
    ensures { (target : _) (fall : _) → IsCall (C.map code.now) k target fall → IsTrue result
        ↔ EndsIn (C.map code.now) (IsReturn returns.now.lines.now) target }
{
    match flow {
        Flow::Call { target, .. } => ends_in_return(code, returns, target),
        _ => false,
    }
}

/// Whether the chain of `a` ends in a listed return.
fn ends_in_return<C: Numbered>(code: &C, returns: &NumberedReturns<'_>, a: u64) -> bool
    requires returns { AreNumbered (C.map code.now) (C.number code.now) returns.now }
    requires stands { IsSome (C.map code.now a) }
    ensures { IsTrue result ↔ EndsIn (C.map code.now) (IsReturn returns.now.lines.now) a }
{
    returns.has(code, code.term(a))
}

/// Whether one of these edges leads from `from` to `to`.
/// Time: O(log n) for n edges.
pub(crate) fn has_edge(edges: &[Edge], from: u64, to: u64) -> bool
    requires { AllPairs EdgeBefore edges.now }
    ensures { IsTrue result ↔ HasEdge edges.now from to }
{
    let i = edges.partition_point(|edge| comes_before(edge, from, to));
    i < edges.len() && joins(edges[i], from, to)
}

/// Whether an edge comes before those that lead from `from` to `to`.
fn comes_before(edge: &Edge, from: u64, to: u64) -> bool
    ensures { result ≡ comes_before from to edge.now }
{
    edge.from < from || edge.from == from && edge.to < to
}

/// Whether an edge leads from `from` to `to`.
fn joins(edge: Edge, from: u64, to: u64) -> bool
    ensures { IsTrue result ↔ ((edge.from ≡ from) × (edge.to ≡ to)) }
{
    edge.from == from && edge.to == to
}
