//! The steps of a graph's making that threads share.

ghost use Rattle.std.specs.Prelude.{◌↔◌, ◌≤◌, ℕ, List, IfOk, IfErr, IsTrue};
ghost use Rattle.std.specs.Thread.{IsSync};
ghost use Rattle.cfg_model.specs.Program.Reach.{AreSeeds, Reached};
ghost use Rattle.cfg_model.specs.Program.Status.{Returns};
ghost use Rattle.code_view.specs.FileCode.{program_of};
ghost use Rattle.code_view.specs.Tables.{AreAllTables};
ghost use Rattle.cfg_model.specs.Graph.Graph.{IsGraph};
ghost use Rattle.chain_index.specs.Found.{AreChainEndsOf};
ghost use Rattle.file_graph.specs.Reach.{IsReachOf};
ghost use Rattle.file_graph.specs.Survey.{IsFaultOf, IsSurveyOf};
ghost use Rattle.file_crew.specs.Inner.{AnswersSeeds};

use crate::Memory;
use crate::measure::{Step, workers_worth};
use cfg_model::{Graph, Outline};
use chain_index::ChainEnds;
use code_tables::all_tables_by;
use code_view::{AllTables, Code};
use crew::{Gate, build};
use elf_image::{ElfError, Image};
use elf_symbols::{Seeds, seeds};
use file_graph::Survey;
use outline_funcs::{functions_among_by, mark_tails_by};
use reached_graph::outline_by;
use reached_terms::ReachedTerms;
use state_marks::marks_from_by;
use std::alloc::Global;
use std::marker::Sync;
use std::sync::Wait;
use std::thread::{Threads, join};

/// The survey of a file, made by `workers` workers. One thread more reads the seeds meanwhile.
///
/// [`ElfError::Malformed`] names the fault of its symbols, which is the first fault of the file.
pub fn survey_with<R: Threads + Sync>(
    rt: &R,
    alloc: Global,
    image: &Image,
    workers: u32,
) -> Result<Survey, ElfError>
    requires some { 1 ≤ workers }
    requires most { workers ≤ 64 }
    ensures survey { IfOk result (IsSurveyOf image.now) }
    ensures refused { IfErr result (IsFaultOf image.now) }
{
    let (seeds, reaches) = join(
        rt,
        || -> Result<Seeds, ElfError>
            ensures { AnswersSeeds image.entry.now result }
        { seeds(alloc, image) },
        || -> Result<ChainEnds, Memory>
            requires { IsSync R.row × (1 ≤ workers) × (workers ≤ 64) }
            ensures { IfOk result (AreChainEndsOf image.entry.now) }
        { ChainEnds::new_by(rt, alloc, image, workers) },
    );
    let seeds = seeds?;
    match reaches {
        Ok(reaches) => Ok(Survey { seeds, reaches }),
        Err(_) => Err(ElfError::Memory),
    }
}

/// The jump tables of all code, found by as many of `workers` workers as the code is worth.
pub fn tables_with<R: Threads + Sync>(
    rt: &R,
    alloc: Global,
    code: &Code,
    workers: u32,
) -> Result<AllTables, Memory>
    requires { 1 ≤ workers }
    ensures { IfOk result (AreAllTables code.now.bytes) }
{
    let workers = workers_worth(Step::Tables, code.index().numbers() as usize, workers);
    all_tables_by(rt, alloc, code, workers)
}

/// What a program reaches from its seeds, found by `workers` workers, who build a closed state. From
/// one seed it is found on the caller's thread: there nearly each function is found by a call of the
/// one before it, so that workers would wait for one another.
pub fn follow_with<R: Threads + Wait + Sync, G: Gate>(
    rt: &R,
    alloc: Global,
    code: &Code,
    seeds: &[u64],
    workers: u32,
    gate: &G,
) -> Result<ReachedTerms, Memory>
    requires least { 2 ≤ workers }
    requires most { workers ≤ 64 }
    requires seeds { AreSeeds (program_of code.now) seeds.now }
    ensures { IfOk result (IsReachOf code.now seeds.now) }
{
    if seeds.len() < 2 {
        return ReachedTerms::of(alloc, code, seeds);
    }
    let state = build(rt, alloc, code, seeds, workers, gate)?;
    marks_from_by(rt, alloc, code, state, workers)
}

/// The graph of a program with this entry, from what it reaches, made by `workers` workers. Each
/// step takes as many of them as its work is worth.
pub fn graph_with<R: Threads + Sync>(
    rt: &R,
    alloc: Global,
    code: &Code,
    seeds: &[u64],
    entry: u64,
    reached: &ReachedTerms,
    workers: u32,
) -> Result<Graph, Memory>
    requires some { 1 ≤ workers }
    requires most { workers ≤ 64 }
    requires seeds { AreSeeds (program_of code.now) seeds.now }
    requires reached { IsReachOf code.now seeds.now reached.now }
    ensures { IfOk result (IsGraph (program_of code.now) seeds.now entry) }
{
    let for_code = workers_worth(Step::Outline, code.index().numbers() as usize, workers);
    let outline = outline_by(rt, alloc, code, reached, for_code)?;
    let returns = |a: u64| -> bool
        requires { (from : List ℕ) × IsReachOf code.now from reached.now
            × Reached (program_of code.now) from a }
        ensures { IsTrue result ↔ Returns (program_of code.entry.now) a }
    { reached.returns(code, a) };
    let for_blocks = workers_worth(Step::Functions, outline.blocks.as_slice().len(), workers);
    let functions = functions_among_by(rt, alloc, code, seeds, &outline, &returns, for_blocks)?;
    let Outline { blocks, mut edges } = outline;
    let for_edges = workers_worth(Step::Tails, edges.as_slice().len(), workers);
    mark_tails_by(rt, alloc, &functions, &mut edges, for_edges)?;
    Ok(Graph {
        entry,
        functions,
        blocks,
        edges,
    })
}
