//! The whole report of a graph at once.

ghost use Rattle.std.specs.Prelude.{◌≡◌, ◌≢◌, IfOk};
ghost use Rattle.elf_image.specs.Seeds.{seed_name};
ghost use Rattle.graph_report.specs.Report.{report_text};

use crate::Memory;
use crate::file_names::FileNames;
use crate::kind::ReportKind;
use crate::pieces::ReportPieces;
use cfg_model::Graph;
use std::alloc::Global;

/// The text of a report of `graph`, or want of memory.
///
/// It has the parts that `kind` names, with functions, blocks and edges in the order of their
/// lists. A function has the name that its file gives it. A caller that needs no whole text takes
/// [`ReportPieces`], which this is made of. Live registers are no part of a graph.
/// Time: O(t + f log s) for t bytes of text, f functions and s seeds. Memory: O(t).
pub fn report(
    alloc: Global,
    names: &FileNames,
    graph: &Graph,
    kind: ReportKind,
) -> Result<Vec<u8>, Memory>
    requires kind { kind ≢ ReportKind.Live }
    ensures text { IfOk result (λ v. v.items ≡ report_text kind (seed_name names.now) graph.now) }
{
    let pieces = ReportPieces::new(alloc, names, graph, kind)?;
    all_of(alloc, pieces, 0)
}

/// All that these pieces still have to give, with room for so many bytes from the beginning.
pub fn all_of(alloc: Global, mut pieces: ReportPieces, room: usize) -> Result<Vec<u8>, Memory>
    ensures { IfOk result (λ v. v.items ≡ pieces.entry) }
{
    let mut out = Vec::with_capacity(alloc, room)?;
    while let Some(piece) = pieces.next_piece() {
        out.extend_from_slice(piece)?;
    }
    Ok(out)
}
