//! Makes the live registers of a file's graph again and again, to time them without the graph.
//!
//! The graph is made once, on one thread; the lists are dropped each time. The single line that is
//! printed has the number of functions, the number of blocks in their bodies, and a checksum of the
//! masks, in order: from 0 on, the sum so far times 31 and the next mask, by 2^64. A file that is
//! not read here gets `fault NAME`.

ghost use Rattle.std.specs.Prelude.{◌≤◌};
ghost use Rattle.file_program.specs.FileGraph.{IsGraphOf};

use anyhow::{Result, bail};
use cfg_model::{AllLives, Graph};
use elf_image::{ElfError, Image};
use file_graph::file_graph;
use live_crew::graph_lives_by;
use parallel::MOST_WORKERS;
use std::alloc::Global;
use std::io::Write;
use std::marker::Sync;
use std::thread::Threads;

/// What is printed of the lists.
#[derive(Clone, Copy, Debug, PartialEq, Eq)]
struct Count {
    functions: u64,
    blocks: u64,
    checksum: u64,
}

/// The line for a file with these bytes.
pub(crate) fn write_file<R: Threads + Sync, W: Write>(
    rt: &R,
    alloc: Global,
    out: &mut W,
    bytes: Vec<u8>,
    workers: u32,
    times: u32,
) -> Result<()>
    requires some { 1 ≤ workers }
    requires most { workers ≤ MOST_WORKERS }
{
    match file_graph(alloc, bytes) {
        Ok(file) => {
            let count = made_again(rt, alloc, file.image(), file.graph(), workers, times)?;
            write_count(out, count)
        }
        Err(ElfError::Malformed(fault)) => Ok(writeln!(out, "fault {}", fault.name())?),
        Err(ElfError::Memory) => bail!("out of memory"),
    }
}

/// The line of a count.
fn write_count<W: Write>(out: &mut W, count: Count) -> Result<()> {
    let functions = count.functions;
    let blocks = count.blocks;
    let checksum = count.checksum;
    writeln!(
        out,
        "functions={functions} blocks={blocks} checksum={checksum:016x}"
    )?;
    Ok(())
}

/// Makes the live registers of a graph this many times, and counts those of the last time.
fn made_again<R: Threads + Sync>(
    rt: &R,
    alloc: Global,
    image: &Image,
    graph: &Graph,
    workers: u32,
    times: u32,
) -> Result<Count>
    requires some { 1 ≤ workers }
    requires most { workers ≤ MOST_WORKERS }
    requires of_file { IsGraphOf image.now graph.now }
{
    for _ in 1..times {
        made_once(rt, alloc, image, graph, workers)?;
    }
    let all = made_once(rt, alloc, image, graph, workers)?;
    Ok(count_of(&all))
}

/// The live registers of a graph.
fn made_once<R: Threads + Sync>(
    rt: &R,
    alloc: Global,
    image: &Image,
    graph: &Graph,
    workers: u32,
) -> Result<AllLives>
    requires some { 1 ≤ workers }
    requires most { workers ≤ MOST_WORKERS }
    requires of_file { IsGraphOf image.now graph.now }
{
    match graph_lives_by(rt, alloc, image, graph, workers) {
        Ok(all) => Ok(all),
        Err(_) => bail!("out of memory"),
    }
}

/// How many lists there are, how many masks, and their checksum.
fn count_of(all: &AllLives) -> Count {
    let mut count = Count {
        functions: 0,
        blocks: 0,
        checksum: 0,
    };
    for lives in all.as_slice() {
        count.functions = count.functions.wrapping_add(1);
        for live in lives.as_slice() {
            count.blocks = count.blocks.wrapping_add(1);
            let so_far = count.checksum.wrapping_mul(31);
            count.checksum = so_far.wrapping_add(u64::from(live.mask));
        }
    }
    count
}
