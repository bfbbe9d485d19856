//! The report of a graph, and writing it.

ghost use Rattle.std.specs.Prelude.{◌≡◌, OnOk, IsErrOf};
ghost use Rattle.cfg_io.specs.Fault.{Rose};
ghost use Rattle.cfg_io.specs.Told.{Appends, AppendsPrefix};
ghost use Rattle.file_program.specs.FileSeeds.{AreSeedsOf};
ghost use Rattle.check_run.specs.Answer.{report_of};

use cfg_io::Sink;
use cfg_model::Graph;
use elf_image::Image;
use elf_symbols::Seeds;
use graph_report::{FileNames, ReportKind, ReportPieces};
use run_ends::{Unwritten, write_pieces};
use std::alloc::Global;
use std::marker::Model;

/// What a report is made of: the file, its seeds, and its graph. Contracts see it as the report's
/// text, which is made only while it is written.
#[derive(Drop)]
pub struct GraphReport {
    image: Image,
    seeds: Seeds,
    graph: Graph,
}

impl Model for GraphReport {
    ghost use Rattle.std.specs.Prelude.{ℕ, List};
    ghost use Rattle.file_program.specs.FileSeeds.{AreSeedsOf};
    ghost use Rattle.check_run.specs.Answer.{report_of};

    ghost Value = { List ℕ };

    ghost view = { λ r. report_of r.image r.graph };

    ghost invariant = { λ r. AreSeedsOf r.image r.seeds };
}

impl GraphReport {
    /// The report of a graph of this file, whose seeds these are.
    pub fn new(image: Image, seeds: Seeds, graph: Graph) -> Self
        requires { AreSeedsOf image seeds }
        ensures { result ≡ report_of image graph }
    {
        GraphReport {
            image,
            seeds,
            graph,
        }
    }

    /// Writes it piece by piece. The memory of the pieces is taken before the first byte is
    /// written.
    pub fn write<O: Sink>(&self, alloc: Global, out: &mut O) -> Result<(), Unwritten>
        ensures whole { OnOk result (Appends (O.written out.old) self.now (O.written out.new)) }
        ensures prefix { IsErrOf result Unwritten.Failed
            → AppendsPrefix (O.written out.old) self.now (O.written out.new) }
        ensures failed { IsErrOf result Unwritten.Failed
            → Rose (O.faults out.old) (O.faults out.new) }
        ensures untouched { IsErrOf result Unwritten.Memory
            → O.written out.new ≡ O.written out.old }
    {
        let names = FileNames::new(&self.image, &self.seeds);
        let pieces = ReportPieces::new(alloc, &names, &self.graph, ReportKind::Graph)?;
        write_pieces(alloc, pieces, out)
    }
}
