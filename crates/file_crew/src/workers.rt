//! Workers who build a graph.

ghost use Rattle.file_crew.specs.Inner.{Draws, Follows, Searches, Surveys};

use crate::Memory;
use cfg_model::Graph;
use code_view::{AllTables, Code};
use elf_image::{ElfError, Image};
use file_graph::{Builder, Survey};
use reached_terms::ReachedTerms;

/// Workers, as the closures that set them to work. What starts threads has to stand where the
/// runtime is: a method of an `impl` hands its block's bounds to no other thread.
#[derive(Drop)]
pub(crate) struct Workers<V, T, F, G> {
    /// Makes the survey of a file.
    pub(crate) survey: V,
    /// Finds the jump tables of all code.
    pub(crate) tables: T,
    /// Follows a program from its seeds.
    pub(crate) follow: F,
    /// Makes its graph from what it reaches.
    pub(crate) graph: G,
}

impl<
    V: Fn(&Image) -> Result<Survey, ElfError>,
    T: Fn(&Code) -> Result<AllTables, Memory>,
    F: Fn(&Code, &[u64]) -> Result<ReachedTerms, Memory>,
    G: Fn(&Code, &[u64], u64, &ReachedTerms) -> Result<Graph, Memory>,
> Builder for Workers<V, T, F, G> {
    ghost ready = { λ workers. Surveys (V.pre workers.survey) (V.post workers.survey)
        × Searches (T.pre workers.tables) (T.post workers.tables)
        × Follows (F.pre workers.follow) (F.post workers.follow)
        × Draws (G.pre workers.graph) (G.post workers.graph) };

    fn survey(&self, image: &Image) -> Result<Survey, ElfError> {
        (self.survey)(image)
    }

    fn tables(&self, code: &Code) -> Result<AllTables, Memory> {
        (self.tables)(code)
    }

    fn follow(&self, code: &Code, seeds: &[u64]) -> Result<ReachedTerms, Memory> {
        (self.follow)(code, seeds)
    }

    fn graph(
        &self,
        code: &Code,
        seeds: &[u64],
        entry: u64,
        reached: &ReachedTerms,
    ) -> Result<Graph, Memory> {
        (self.graph)(code, seeds, entry, reached)
    }
}
