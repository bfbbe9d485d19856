//! Workers as the maker of what a text shows.

ghost use Rattle.run_crew.specs.Inner.{FindsLives, GraphsFiles, MakesTexts};

use cfg_model::{AllLives, Graph, Memory};
use cfg_run::Maker;
use elf_image::{ElfError, Image};
use file_graph::FileGraph;
use graph_report::ReportLines;

/// Workers, as the closures that set them to work. What starts threads has to stand where the
/// runtime is: a method of an `impl` hands its block's bounds to no other thread.
#[derive(Drop)]
pub struct Workers<F, L, T> {
    /// Makes a file with its graph.
    pub file: F,
    /// Finds the live registers of a graph.
    pub lives: L,
    /// Makes the text of some lines of a report.
    pub texts: T,
    /// Of how many lines it is made at once.
    pub lines_at_once: usize,
}

impl<
    F: Fn(Vec<u8>) -> Result<FileGraph, ElfError>,
    L: Fn(&Image, &Graph) -> Result<AllLives, Memory>,
    T: Fn(ReportLines) -> Result<Option<Vec<Vec<u8>>>, Memory>,
> Maker for Workers<F, L, T> {
    ghost ready = { λ workers. GraphsFiles (F.pre workers.file) (F.post workers.file)
        × FindsLives (L.pre workers.lives) (L.post workers.lives)
        × MakesTexts (T.pre workers.texts) (T.post workers.texts) };

    fn file(&self, bytes: Vec<u8>) -> Result<FileGraph, ElfError> {
        (self.file)(bytes)
    }

    fn lives(&self, image: &Image, graph: &Graph) -> Result<AllLives, Memory> {
        (self.lives)(image, graph)
    }

    fn lines_at_once(&self) -> usize {
        self.lines_at_once
    }

    fn texts(&self, lines: ReportLines) -> Result<Option<Vec<Vec<u8>>>, Memory> {
        (self.texts)(lines)
    }
}
