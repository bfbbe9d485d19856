//! The graph of a program, from its seeds.

ghost use Rattle.std.specs.Prelude.{◌↔◌, ℕ, List, All, IfOk, IsSome, IsTrue};
ghost use Rattle.cfg_model.specs.Graph.Graph.{IsGraph};
ghost use Rattle.cfg_model.specs.Program.Reach.{Reached};
ghost use Rattle.cfg_model.specs.Program.Status.{Returns};
ghost use Rattle.reached_terms.specs.Reached.{AreReachedTerms};
ghost use Rattle.reached_graph.specs.Inner.Leaders.{AreLeaders};
ghost use Rattle.reached_graph.specs.Inner.Ways.{TellsReached};

use crate::leaders::Leaders;
use crate::outline::outline_of;
use cfg_model::{Chains, Graph, Memory, Outline};
use numbered::Numbered;
use outline_funcs::{functions_among, mark_tails};
use reached_terms::ReachedTerms;
use std::alloc::Global;

/// The graph of the program `code`, whose seeds are these; `entry` is the address where it starts.
/// [`Memory`] if memory ran out, or as of [`ReachedTerms::of`] and [`functions_among`].
/// Time and memory: those of [`ReachedTerms::of`] and of [`graph_from`].
pub fn graph_of<C: Numbered>(
    alloc: Global,
    code: &C,
    entry: u64,
    seeds: &[u64],
) -> Result<Graph, Memory>
    requires { All (λ a. IsSome (C.map code.now a)) seeds.now }
    ensures { IfOk result (IsGraph (C.map code.now) seeds.now entry) }
{
    let reached = ReachedTerms::of(alloc, code, seeds)?;
    graph_from(alloc, code, entry, seeds, &reached)
}

/// The same from what the program reaches from its seeds. [`Memory`] if memory ran out, or as of
/// [`functions_among`].
///
/// Each leader is looked at, and the terminator or the last straight instruction of its block is
/// decoded. Time: linear in the blocks and edges, in the instructions of blocks that go straight on
/// to the next or overlap others, and in the numbers of the program, but for what
/// [`functions_among`] takes. Memory: that of the graph, and meanwhile, but for the spare room of
/// vectors, 16 bytes for each leader; if blocks overlap, up to 40, and two for each number.
pub fn graph_from<C: Numbered>(
    alloc: Global,
    code: &C,
    entry: u64,
    seeds: &[u64],
    reached: &ReachedTerms,
) -> Result<Graph, Memory>
    requires seeds { All (λ a. IsSome (C.map code.now a)) seeds.now }
    requires reached { AreReachedTerms (C.map code.now) (C.number code.now) seeds.now
        reached.now }
    ensures { IfOk result (IsGraph (C.map code.now) seeds.now entry) }
{
    let leaders = Leaders::of(alloc, code, reached)?;
    let returns = |a: u64| -> bool
        requires { (from : List ℕ) × AreReachedTerms (C.map code.now) (C.number code.now) from
            reached.now × Reached (C.map code.now) from a }
        ensures { IsTrue result ↔ Returns (C.map code.entry.now) a }
    { reached.returns(code, a) };
    graph_by(alloc, code, entry, seeds, &leaders, &returns)
}

/// The graph with these leaders, where `returns` says of a reached address whether it returns.
fn graph_by<C: Chains, F: Fn(u64) -> bool>(
    alloc: Global,
    code: &C,
    entry: u64,
    seeds: &[u64],
    leaders: &Leaders,
    returns: &F,
) -> Result<Graph, Memory>
    requires seeds { All (λ a. IsSome (C.map code.now a)) seeds.now }
    requires leaders { AreLeaders (C.map code.now) seeds.now leaders.now }
    requires returns { TellsReached (C.map code.now) seeds.now (F.pre returns.now)
        (F.post returns.now) }
    ensures { IfOk result (IsGraph (C.map code.now) seeds.now entry) }
{
    let outline = outline_of(alloc, code, leaders, returns)?;
    let functions = functions_among(alloc, code, seeds, &outline, returns)?;
    let Outline { blocks, mut edges } = outline;
    mark_tails(&functions, &mut edges);
    Ok(Graph {
        entry,
        functions,
        blocks,
        edges,
    })
}
