//! Who makes what a text shows: the caller's thread, or workers.

use cfg_model::{AllLives, Graph, Memory};
use elf_image::{ElfError, Image};
use file_graph::{FileGraph, file_graph};
use graph_report::ReportLines;
use live_crew::graph_lives;
use std::alloc::Global;

/// Makes what a text shows, the graph of a file and the live registers of a graph, and the text of a
/// report. The contracts are the same for each maker, and each may answer want of memory.
pub trait Maker {
    ghost use Rattle.std.specs.Prelude.{All, IfOk, IfErr, ⊤};
    ghost use Rattle.std.specs.List.Sorted.{IsStrictlyIncreasing};
    ghost use Rattle.file_graph.specs.File.{IsGraphedFile};
    ghost use Rattle.file_graph.specs.Survey.{IsFaultOf};
    ghost use Rattle.live_regs.specs.Masks.{AreAllLivesOf};
    ghost use Rattle.live_regs.specs.Noted.{AreInOrder};
    ghost use Rattle.cfg_run.specs.Inner.{AnswersTexts};

    /// What holds of a maker that may be asked.
    ghost ready: { Self → Type 0 } = { λ _. ⊤ };

    /// The file with these bytes and its graph, or the first fault of the file.
    fn file(&self, bytes: Vec<u8>) -> Result<FileGraph, ElfError>
        requires ready { ready self.now }
        ensures graph { IfOk result (IsGraphedFile bytes.items) }
        ensures malformed { IfErr result (IsFaultOf bytes.items) };

    /// The live registers of all functions of a graph of this image.
    fn lives(&self, image: &Image, graph: &Graph) -> Result<AllLives, Memory>
        requires ready { ready self.now }
        requires order { AreInOrder graph.now.blocks graph.now.edges }
        requires bodies { All (λ f. IsStrictlyIncreasing f.body) graph.now.functions }
        ensures { IfOk result (AreAllLivesOf image.now graph.now.blocks graph.now.edges
            graph.now.functions) };

    /// Of how many lines the text is made at once, and kept, if texts are made.
    fn lines_at_once(&self) -> usize;

    /// The text of these lines, as texts that follow each other; `None` if it is to be made piece by
    /// piece while it is written.
    fn texts(&self, lines: ReportLines) -> Result<Option<Vec<Vec<u8>>>, Memory>
        requires ready { ready self.now }
        ensures { AnswersTexts lines.entry result };
}

/// The caller's thread, which starts no other.
#[derive(Drop)]
pub struct Alone {
    /// Where memory comes from.
    pub alloc: Global,
}

impl Maker for Alone {
    fn file(&self, bytes: Vec<u8>) -> Result<FileGraph, ElfError> {
        file_graph(self.alloc, bytes)
    }

    fn lives(&self, image: &Image, graph: &Graph) -> Result<AllLives, Memory> {
        graph_lives(self.alloc, image, graph)
    }

    fn lines_at_once(&self) -> usize {
        usize::MAX
    }

    fn texts(&self, _lines: ReportLines) -> Result<Option<Vec<Vec<u8>>>, Memory> {
        Ok(None)
    }
}
