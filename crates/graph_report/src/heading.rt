//! The heading of a report: the two lines that it begins with.

ghost use Rattle.std.specs.Prelude.{◌≡◌};
ghost use Rattle.std.specs.List.{list_any};
ghost use Rattle.graph_report.specs.Report.{is_landing, shows_landing};

use crate::kind::ReportKind;
use cfg_model::{Edge, EdgeKind, Graph};

/// What the heading of a report tells.
#[derive(Clone, Copy)]
pub struct Heading {
    /// Whether the report has an edge to a landing pad, which makes its version 3.
    pub lands: bool,
    /// The address where the program starts.
    pub entry: u64,
}

/// Whether a report of this kind has a line of an edge to a landing pad.
/// Time: O(edges), if it has edges.
pub fn shows_landing(kind: ReportKind, graph: &Graph) -> bool
    ensures { result ≡ shows_landing kind graph.now.edges }
{
    match kind {
        ReportKind::Graph => any_landing(graph.edges.as_slice()),
        ReportKind::Edges => any_landing(graph.edges.as_slice()),
        _ => false,
    }
}

/// Whether one of these edges leads from a call to its landing pad.
fn any_landing(edges: &[Edge]) -> bool
    ensures { result ≡ list_any (λ edge. is_landing edge.kind) edges.now }
{
    edges.iter().any(is_landing)
}

/// Whether an edge leads from a call to its landing pad.
fn is_landing(edge: &Edge) -> bool
    ensures { result ≡ is_landing edge.now.kind }
{
    matches!(edge.kind, EdgeKind::Landing)
}
