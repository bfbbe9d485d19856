//! The blocks and edges of a program, from its leaders.

ghost use Rattle.std.specs.Prelude.{◌≡◌, ◌↔◌, List, ℕ, All, IfOk, IsSome, IsTrue, OnOk, length};
ghost use Rattle.cfg_model.specs.Graph.Graph.{IsOutline};
ghost use Rattle.cfg_model.specs.Program.Reach.{Reached};
ghost use Rattle.cfg_model.specs.Program.Status.{Returns};
ghost use Rattle.reached_terms.specs.Reached.{AreReachedTerms};
ghost use Rattle.reached_graph.specs.Inner.Blocks.{IsMadeOf};
ghost use Rattle.reached_graph.specs.Inner.Leaders.{AreLeaders};
ghost use Rattle.reached_graph.specs.Inner.Parts.{ArePart};
ghost use Rattle.reached_graph.specs.Inner.Ways.{TellsReached};

use crate::blocks::block_to;
use crate::edges::{add_ways, by_source};
use crate::leaders::Leaders;
use cfg_model::{Block, Blocks, Chains, Edge, Edges, Memory, Outline};
use numbered::Numbered;
use reached_terms::ReachedTerms;
use std::alloc::Global;

/// The blocks and edges of the program `code`, from what it reaches. [`Memory`] if memory ran out.
/// Time and memory: those of [`graph_from`](crate::graph_from), but for the functions.
pub fn outline_from<C: Numbered>(
    alloc: Global,
    code: &C,
    reached: &ReachedTerms,
) -> Result<Outline, Memory>
    requires { (seeds : List ℕ)
        × AreReachedTerms (C.map code.now) (C.number code.now) seeds reached.now }
    ensures { IfOk result (λ outline. (seeds : List ℕ)
        → AreReachedTerms (C.map code.now) (C.number code.now) seeds reached.now
        → IsOutline (C.map code.now) seeds outline.blocks outline.edges) }
{
    let leaders = Leaders::of(alloc, code, reached)?;
    let returns = |a: u64| -> bool
        requires { (from : List ℕ) × AreReachedTerms (C.map code.now) (C.number code.now) from
            reached.now × Reached (C.map code.now) from a }
        ensures { IsTrue result ↔ Returns (C.map code.entry.now) a }
    { reached.returns(code, a) };
    outline_of(alloc, code, &leaders, &returns)
}

/// The blocks and edges of the program `code`, from its leaders. `returns` says of a reached
/// address whether it returns; it is asked of the targets of calls.
/// Time: linear in the blocks and edges, but for what `returns` takes. Memory: that of the blocks
/// and edges.
pub(crate) fn outline_of<C: Chains, F: Fn(u64) -> bool>(
    alloc: Global,
    code: &C,
    leaders: &Leaders,
    returns: &F,
) -> Result<Outline, Memory>
    requires { (seeds : List ℕ) × AreLeaders (C.map code.now) seeds leaders.now
        × TellsReached (C.map code.now) seeds (F.pre returns.now) (F.post returns.now) }
    ensures { IfOk result (λ outline. (seeds : List ℕ)
        → AreLeaders (C.map code.now) seeds leaders.now
        → IsOutline (C.map code.now) seeds outline.blocks outline.edges) }
{
    let part = part_of(alloc, code, &leaders.starts, &leaders.lasts, returns)?;
    Ok(part.into_outline())
}

/// The blocks from some leaders that follow each other, and the edges that leave them, in the order
/// of a graph.
#[derive(Drop)]
pub(crate) struct Part {
    pub(crate) blocks: Vec<Block>,
    pub(crate) edges: Vec<Edge>,
}

impl Part {
    /// The outline that has these blocks and edges.
    pub(crate) fn into_outline(self) -> Outline
        ensures blocks { result.blocks ≡ self.blocks.items }
        ensures edges { result.edges ≡ self.edges.items }
    {
        Outline {
            blocks: Blocks::from_vec(self.blocks),
            edges: Edges::from_vec(self.edges),
        }
    }
}

/// For how many edges there is room at first for each block: most have one or two.
const EDGES_PER_BLOCK: usize = 2;

/// The blocks from these starts to these last addresses, and the edges that leave them.
#[inline(never)]
pub(crate) fn part_of<C: Chains, F: Fn(u64) -> bool>(
    alloc: Global,
    code: &C,
    starts: &[u64],
    lasts: &[u64],
    returns: &F,
) -> Result<Part, Memory>
    requires sizes { length lasts.now ≡ length starts.now }
    requires stand { All (λ k. IsSome (C.map code.now k)) lasts.now }
    requires returns { (seeds : List ℕ) × All (Reached (C.map code.now) seeds) lasts.now
        × TellsReached (C.map code.now) seeds (F.pre returns.now) (F.post returns.now) }
    ensures { IfOk result (λ part. ArePart (C.map code.now) starts.now lasts.now part.blocks.items
        part.edges.items) }
{
    let mut blocks = Vec::with_capacity(alloc, starts.len())?;
    let mut edges = Vec::with_capacity(alloc, starts.len().saturating_mul(EDGES_PER_BLOCK))?;
    for i in 0..starts.len() {
        add_block(code, returns, starts[i], lasts[i], &mut blocks, &mut edges)?;
    }
    Ok(Part {
        blocks,
        edges: by_source(edges),
    })
}

/// Adds the block from `s` to the instruction at `k`, and its edges.
fn add_block<C: Chains, F: Fn(u64) -> bool>(
    code: &C,
    returns: &F,
    s: u64,
    k: u64,
    blocks: &mut Vec<Block>,
    edges: &mut Vec<Edge>,
) -> Result<(), Memory>
    requires stands { IsSome (C.map code.now k) }
    requires returns { (seeds : List ℕ) × Reached (C.map code.now) seeds k
        × TellsReached (C.map code.now) seeds (F.pre returns.now) (F.post returns.now) }
    ensures { OnOk result (IsMadeOf (C.map code.now) s k blocks.old.items blocks.new.items
        edges.old.items edges.new.items) }
{
    let flow = code.flow(k);
    add_ways(code, returns, s, k, flow, edges)?;
    blocks.push(block_to(code, s, k, flow))?;
    Ok(())
}
