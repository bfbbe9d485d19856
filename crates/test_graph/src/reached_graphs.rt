//! Rows 6 to 17: the graphs of their code by one thread and by several workers. Row 8 has two
//! streams that join.

ghost use Rattle.std.specs.Prelude.{◌≤◌};

use crate::asserts::{holds_at, same};
use cfg_model::Chains;
use cfg_vectors::row_file;
use chain_index::ChainIndex;
use code_view::{Calls, Code, Cuts};
use elf_image::Image;
use reached_graph::{graph_of, leaders_of, outline_by};
use reached_terms::ReachedTerms;
use std::alloc::Global;
use std::marker::Sync;
use std::test::Fail;
use std::thread::Threads;

// Where the code of a row's file begins, and the program starts.
const CODE: u64 = 0x10000;

// How many blocks the graph of the code of a row's file has, from its start.
fn block_count(alloc: Global, row: u32) -> Result<Option<usize>, Fail>
    requires from { 6 ≤ row }
    requires to { row ≤ 17 }
{
    let image = Image::parse(alloc, row_file(alloc, row, 0)?)?;
    let index = ChainIndex::new(alloc, &image)?;
    let calls = Calls::of(alloc, &image)?;
    let none = Cuts::none(alloc);
    let code = Code::new(&image, &index, &calls, &none);
    if !code.has(CODE) {
        return Ok(None);
    }
    let graph = graph_of(alloc, &code, CODE, &[CODE])?;
    Ok(Some(graph.blocks.as_slice().len()))
}

// Whether the blocks and edges of the code of a row's file, made by so many workers, are those of
// the graph, but that this has tail calls.
fn outline_agrees<R: Threads + Sync + AllocGlobal>(
    rt: &R,
    row: u32,
    workers: u32,
) -> Result<bool, Fail>
    requires from { 6 ≤ row }
    requires to { row ≤ 17 }
    requires some { 1 ≤ workers }
{
    let alloc = rt.alloc();
    let image = Image::parse(alloc, row_file(alloc, row, 0)?)?;
    let index = ChainIndex::new(alloc, &image)?;
    let calls = Calls::of(alloc, &image)?;
    let none = Cuts::none(alloc);
    let code = Code::new(&image, &index, &calls, &none);
    if !code.has(CODE) {
        return Ok(false);
    }
    let reached = ReachedTerms::of(alloc, &code, &[CODE])?;
    let outline = outline_by(rt, alloc, &code, &reached, workers)?;
    let graph = graph_of(alloc, &code, CODE, &[CODE])?;
    let edges = graph.edges.as_slice();
    let others = outline.edges.as_slice();
    Ok(
        graph.blocks.as_slice() == outline.blocks.as_slice()
            && edges.len() == others.len()
            && edges.iter().zip(others).all(|(one, other)| (one.from, one.to)
                == (other.from, other.to)),
    )
}

#[test]
fn workers_agree(rt: HostRuntime) -> Result<(), Fail> {
    for row in 6..18 {
        for workers in 1..5 {
            let agrees = outline_agrees(&rt, row, workers)?;
            holds_at(&rt, &(row, workers), agrees);
        }
    }
    Ok(())
}

// Two streams that join at the fifth byte, as row 8 has them.
#[test]
fn streams_join(rt: HostRuntime) -> Result<(), Fail> {
    same(&rt, &block_count(rt.alloc(), 8)?, &Some(4));
    Ok(())
}

// The leaders of row 8's program, and its reached terminators that return.
fn row_8_lists(alloc: Global) -> Result<(Vec<u64>, Vec<u64>), Fail> {
    let image = Image::parse(alloc, row_file(alloc, 8, 0)?)?;
    let index = ChainIndex::new(alloc, &image)?;
    let calls = Calls::of(alloc, &image)?;
    let none = Cuts::none(alloc);
    let code = Code::new(&image, &index, &calls, &none);
    if !code.has(CODE) {
        return Ok((Vec::new(alloc), Vec::new(alloc)));
    }
    let reached = ReachedTerms::of(alloc, &code, &[CODE])?;
    let leaders = leaders_of(alloc, &code, &reached)?;
    Ok((leaders, reached.returning(alloc, &code)?))
}

// Where they join is a leader, and all of its terminators return.
#[test]
fn joins_lead(rt: HostRuntime) -> Result<(), Fail> {
    let (leaders, returning) = row_8_lists(rt.alloc())?;
    let starts = [CODE, CODE + 2, CODE + 4, CODE + 8];
    same(&rt, &leaders.as_slice(), &starts.as_slice());
    same(&rt, &returning.as_slice(), &[CODE + 4, CODE + 8].as_slice());
    Ok(())
}
