//! What a report shows.

ghost use Rattle.std.specs.Prelude.{◌≡◌};
ghost use Rattle.graph_report.specs.Inner.{has_functions, has_blocks, has_edges};

/// What a report shows: a graph, a part of it, or the live registers of its blocks. Each report has
/// the heading and the last line too.
#[derive(Clone, Copy, Debug, PartialEq, Eq)]
pub enum ReportKind {
    /// The whole graph: functions, blocks and edges.
    Graph,
    /// The functions, each with the blocks of its body.
    Functions,
    /// The basic blocks.
    Blocks,
    /// The edges.
    Edges,
    /// The live registers of each function's blocks.
    Live,
}

impl ReportKind {
    /// Whether it shows the functions.
    pub(crate) fn has_functions(self) -> bool
        ensures { result ≡ has_functions self }
    {
        matches!(self, ReportKind::Graph | ReportKind::Functions)
    }

    /// Whether it shows the blocks.
    pub(crate) fn has_blocks(self) -> bool
        ensures { result ≡ has_blocks self }
    {
        matches!(self, ReportKind::Graph | ReportKind::Blocks)
    }

    /// Whether it shows the edges.
    pub(crate) fn has_edges(self) -> bool
        ensures { result ≡ has_edges self }
    {
        matches!(self, ReportKind::Graph | ReportKind::Edges)
    }
}
