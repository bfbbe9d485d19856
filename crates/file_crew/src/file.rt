//! The graph of a file, made by workers.

ghost use Rattle.std.specs.Prelude.{◌≤◌, IfOk, IfErr};
ghost use Rattle.std.specs.Thread.{IsSync};
ghost use Rattle.cfg_model.specs.Program.Reach.{AreSeeds};
ghost use Rattle.code_view.specs.FileCode.{program_of};
ghost use Rattle.code_view.specs.Tables.{AreAllTables};
ghost use Rattle.file_graph.specs.Reach.{IsReachOf};
ghost use Rattle.file_graph.specs.File.{IsGraphedFile};
ghost use Rattle.file_graph.specs.Survey.{IsFaultOf};
ghost use Rattle.file_crew.specs.Inner.{AnswersReach, AnswersGraph, AnswersSurvey};

use crate::Memory;
use crate::sharing::{follow_with, graph_with, survey_with, tables_with};
use crate::workers::Workers;
use cfg_model::Graph;
use code_view::{AllTables, Code};
use crew::Gate;
use elf_image::{ElfError, Image};
use file_graph::{FileGraph, Survey, graphed};
use reached_terms::ReachedTerms;
use std::alloc::Global;
use std::marker::Sync;
use std::sync::Wait;
use std::thread::Threads;

/// The file with these bytes and its graph, made by `workers` workers. One thread more reads the
/// seeds meanwhile. With two seeds or more, workers build the closed state on a board that they
/// share, and pass the gate before each operation; the call may wait then.
///
/// [`ElfError::Malformed`] names the first fault of the file.
pub fn file_graph_by<R: Threads + Wait + Sync, G: Gate>(
    rt: &R,
    alloc: Global,
    bytes: Vec<u8>,
    workers: u32,
    gate: &G,
) -> Result<FileGraph, ElfError>
    requires least { 2 ≤ workers }
    requires most { workers ≤ 64 }
    ensures graph { IfOk result (IsGraphedFile bytes.items) }
    ensures malformed { IfErr result (IsFaultOf bytes.items) }
{
    let survey = |image: &Image| -> Result<Survey, ElfError>
        requires { IsSync R.row × (1 ≤ workers) × (workers ≤ 64) }
        ensures { AnswersSurvey image.now result }
    { survey_with(rt, alloc, image, workers) };
    let tables = |code: &Code| -> Result<AllTables, Memory>
        requires { IsSync R.row × (1 ≤ workers) }
        ensures { IfOk result (AreAllTables code.now.bytes) }
    { tables_with(rt, alloc, code, workers) };
    let follow = |code: &Code, seeds: &[u64]| -> Result<ReachedTerms, Memory>
        requires { IsSync R.row × IsSync G.row × (2 ≤ workers) × (workers ≤ 64)
            × AreSeeds (program_of code.now) seeds.now }
        ensures { AnswersReach code.now seeds.now result }
    { follow_with(rt, alloc, code, seeds, workers, gate) };
    let graph = |code: &Code, seeds: &[u64], entry: u64, reached: &ReachedTerms| -> Result<
        Graph,
        Memory,
    >
        requires { IsSync R.row × (1 ≤ workers) × (workers ≤ 64)
            × AreSeeds (program_of code.now) seeds.now
            × IsReachOf code.now seeds.now reached.now }
        ensures { AnswersGraph (program_of code.now) seeds.now entry result }
    { graph_with(rt, alloc, code, seeds, entry, reached, workers) };
    let by = Workers {
        survey,
        tables,
        follow,
        graph,
    };
    graphed(alloc, &by, bytes)
}
