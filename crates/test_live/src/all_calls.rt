//! The live registers of a file by every call that gives them.

ghost use Rattle.std.specs.Prelude.{ℕ, List, All, Contains};
ghost use Rattle.std.specs.List.Sorted.{IsStrictlyIncreasing};
ghost use Rattle.cfg_model.specs.declared.graph.Function.{Function};
ghost use Rattle.cfg_model.specs.Graph.Function.{IsFunction};
ghost use Rattle.cfg_model.specs.Graph.Graph.{IsOutline};
ghost use Rattle.code_view.specs.FileCode.{program_of};
ghost use Rattle.live_regs.specs.Noted.{AreInOrder};

use crate::asserts::same;
use cfg_model::{Functions, Graph, Live, Lives, Outline};
use chain_index::ChainIndex;
use code_view::{Calls, Code, Cuts};
use elf_image::Image;
use elf_symbols::seeds;
use live_crew::{graph_lives, graph_lives_by};
use live_regs::lives;
use reached_graph::{graph_from, outline_from};
use reached_terms::ReachedTerms;
use std::alloc::Global;
use std::marker::Sync;
use std::process::Abort;
use std::test::Fail;
use std::thread::Threads;

/// A block of a function, and the mask of the registers that are live there.
pub(crate) type Wanted = (u64, u32);

/// The numbers of workers that are tried.
const CREWS: [u32; 5] = [1, 2, 3, 4, 64];

/// The functions of this file, in order, have these blocks with these masks, by every call.
pub(crate) fn has_lives<R: Threads + Sync + Abort + AllocGlobal>(
    rt: &R,
    file: Vec<u8>,
    wanted: &[&[Wanted]],
) -> Result<(), Fail> {
    let all = lives_of_file(rt, file)?;
    same(rt, &all.len(), &wanted.len());
    for (lives, want) in all.iter().zip(wanted) {
        expect(rt, lives.as_slice(), want);
    }
    Ok(())
}

/// Compares the live registers of one function.
fn expect(rt: &impl Abort, lives: &[Live], wanted: &[Wanted]) {
    same(rt, &lives.len(), &wanted.len());
    for (live, &(block, mask)) in lives.iter().zip(wanted) {
        same(rt, live, &Live { block, mask });
    }
}

/// The live registers of the functions of a file, one function after another. The calls for all
/// functions give the same, by any number of workers.
pub(crate) fn lives_of_file<R: Threads + Sync + Abort + AllocGlobal>(
    rt: &R,
    file: Vec<u8>,
) -> Result<Vec<Lives>, Fail> {
    let alloc = rt.alloc();
    let image = Image::parse(alloc, file)?;
    let found = seeds(alloc, &image)?;
    let seeds = found.addresses();
    let index = ChainIndex::new(alloc, &image)?;
    let calls = Calls::of(alloc, &image)?;
    let none = Cuts::none(alloc);
    let code = Code::new(&image, &index, &calls, &none);
    let reached = ReachedTerms::of(alloc, &code, seeds)?;
    let outline = outline_from(alloc, &code, &reached)?;
    let graph = graph_from(alloc, &code, image.entry(), seeds, &reached)?;
    let wanted = one_by_one(alloc, &image, &code, &outline, &graph.functions)?;
    graph_gives(rt, &image, &graph, &wanted)?;
    Ok(wanted)
}

/// The live registers of each function, one function after another.
fn one_by_one(
    alloc: Global,
    image: &Image,
    code: &Code,
    outline: &Outline,
    functions: &Functions,
) -> Result<Vec<Lives>, Fail>
    requires { (seeds : List ℕ)
        × IsOutline (program_of code.now) seeds outline.now.blocks outline.now.edges
        × ((f : Function) → Contains functions.now f → IsFunction (program_of code.now) seeds f) }
{
    let mut all = Vec::new(alloc);
    for function in functions.as_slice() {
        all.push(lives(alloc, image, code, outline, function)?)?;
    }
    Ok(all)
}

/// One thread and workers give these live registers from a graph.
fn graph_gives<R: Threads + Sync + Abort + AllocGlobal>(
    rt: &R,
    image: &Image,
    graph: &Graph,
    wanted: &[Lives],
) -> Result<(), Fail>
    requires order { AreInOrder graph.now.blocks graph.now.edges }
    requires bodies { All (λ f. IsStrictlyIncreasing f.body) graph.now.functions }
{
    let one = graph_lives(rt.alloc(), image, graph)?;
    same_lives(rt, one.as_slice(), wanted);
    for workers in CREWS {
        let all = graph_lives_by(rt, rt.alloc(), image, graph, workers)?;
        same_lives(rt, all.as_slice(), wanted);
    }
    Ok(())
}

/// Compares the live registers of all functions.
fn same_lives(rt: &impl Abort, all: &[Lives], wanted: &[Lives]) {
    same(rt, &all.len(), &wanted.len());
    for (lives, want) in all.iter().zip(wanted) {
        same(rt, &lives.as_slice(), &want.as_slice());
    }
}
