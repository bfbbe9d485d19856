//! The edge from one block to another.

ghost use Rattle.std.specs.Prelude.{◌≡◌, AllPairs};
ghost use Rattle.std.specs.List.{find};
ghost use Rattle.cfg_model.specs.Graph.Graph.{EdgeBefore};
ghost use Rattle.edge_cover.specs.Move.{joins};

use cfg_model::Edge;

/// The first of these edges that leads from the block at `from` to the block at `to`.
pub(crate) fn first_edge(edges: &[Edge], from: u64, to: u64) -> Option<Edge>
    requires { AllPairs EdgeBefore edges.now }
    ensures { result ≡ find (joins from to) edges.now }
{
    let first = edges.partition_point(|e| e.from < from || (e.from == from && e.to < to));
    match edges.get(first) {
        Some(edge) if edge.from == from && edge.to == to => Some(*edge),
        _ => None,
    }
}
