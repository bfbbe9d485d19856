//! The move of one step in the graph of a program.

ghost use Rattle.std.specs.Prelude.{◌≡◌, AllPairs};
ghost use Rattle.cfg_model.specs.Graph.Graph.{EdgeBefore};
ghost use Rattle.edge_cover.specs.Move.{move_in};

use crate::search::first_edge;
use cfg_model::{Block, Edge, EdgeKind, EndKind};

/// How a step goes through the graph of a program.
#[derive(Clone, Copy, Debug, PartialEq, Eq)]
pub enum Move {
    /// On to the next address of the same block.
    Inside,
    /// From the last address of a block to the start of another one, along an edge of this kind.
    Along(EdgeKind),
    /// Anywhere else, out of a block of this kind.
    Out(EndKind),
}

/// The move of a step to `to` from an instruction of `block` that ends just before the address
/// `next`, among the edges of an outline or a graph.
///
/// Time: logarithmic in the edges. Memory: none.
pub fn judge_in(edges: &[Edge], block: &Block, next: u64, to: u64) -> Move
    requires { AllPairs EdgeBefore edges.now }
    ensures { result ≡ move_in block.now edges.now next to }
{
    if next < block.end {
        return if to == next {
            Move::Inside
        } else {
            Move::Out(block.kind)
        };
    }
    match first_edge(edges, block.start, to) {
        Some(edge) => Move::Along(edge.kind),
        None => Move::Out(block.kind),
    }
}
