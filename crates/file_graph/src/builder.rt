//! Who builds a graph: the caller's thread, or workers.

use crate::Memory;
use crate::survey::{Survey, make_survey};
use cfg_model::Graph;
use code_tables::all_tables;
use code_view::{AllTables, Code};
use elf_image::{ElfError, Image};
use reached_graph::graph_from;
use reached_terms::ReachedTerms;
use std::alloc::Global;

/// Does the parts of a graph's making that several threads can share. They are the survey of the
/// file, the jump tables of all code, what a program reaches, and the graph from that. The contracts
/// are the same for each builder, and each may answer want of memory.
pub trait Builder {
    ghost use Rattle.std.specs.Prelude.{IfOk, IfErr, ⊤};
    ghost use Rattle.cfg_model.specs.Program.Reach.{AreSeeds};
    ghost use Rattle.cfg_model.specs.Graph.Graph.{IsGraph};
    ghost use Rattle.code_view.specs.FileCode.{program_of};
    ghost use Rattle.code_view.specs.Tables.{AreAllTables};
    ghost use Rattle.file_graph.specs.Reach.{IsReachOf};
    ghost use Rattle.file_graph.specs.Survey.{IsFaultOf, IsSurveyOf};

    /// What holds of a builder that may be asked.
    ghost ready: { Self → Type 0 } = { λ _. ⊤ };

    /// The survey of a file, or the fault of its symbols.
    fn survey(&self, image: &Image) -> Result<Survey, ElfError>
        requires ready { ready self.now }
        ensures survey { IfOk result (IsSurveyOf image.now) }
        ensures refused { IfErr result (IsFaultOf image.now) };

    /// All tables of the code, of jumps that are reached or not.
    fn tables(&self, code: &Code) -> Result<AllTables, Memory>
        requires ready { ready self.now }
        ensures tables { IfOk result (AreAllTables code.now.bytes) };

    /// What the program `code` reaches from its seeds.
    fn follow(&self, code: &Code, seeds: &[u64]) -> Result<ReachedTerms, Memory>
        requires ready { ready self.now }
        requires seeds { AreSeeds (program_of code.now) seeds.now }
        ensures { IfOk result (IsReachOf code.now seeds.now) };

    /// The graph of the program `code` with this entry, from what it reaches from its seeds.
    fn graph(
        &self,
        code: &Code,
        seeds: &[u64],
        entry: u64,
        reached: &ReachedTerms,
    ) -> Result<Graph, Memory>
        requires ready { ready self.now }
        requires seeds { AreSeeds (program_of code.now) seeds.now }
        requires reached { IsReachOf code.now seeds.now reached.now }
        ensures { IfOk result (IsGraph (program_of code.now) seeds.now entry) };
}

/// The caller's thread, which starts no other.
#[derive(Drop)]
pub(crate) struct Alone {
    /// Where memory comes from.
    pub(crate) alloc: Global,
}

impl Builder for Alone {
    fn survey(&self, image: &Image) -> Result<Survey, ElfError> {
        make_survey(self.alloc, image)
    }

    fn tables(&self, code: &Code) -> Result<AllTables, Memory> {
        all_tables(self.alloc, code)
    }

    fn follow(&self, code: &Code, seeds: &[u64]) -> Result<ReachedTerms, Memory> {
        ReachedTerms::of(self.alloc, code, seeds)
    }

    fn graph(
        &self,
        code: &Code,
        seeds: &[u64],
        entry: u64,
        reached: &ReachedTerms,
    ) -> Result<Graph, Memory> {
        graph_from(self.alloc, code, entry, seeds, reached)
    }
}
