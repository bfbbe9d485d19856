//! The text of a report by several workers.

ghost use Rattle.std.specs.Prelude.{◌≢◌};

use crate::asserts::{holds, same};
use crate::report_text::{
    NAMED_BLOCKS, NAMED_EDGES, NAMED_FILE, file_with_parts, graph_of, named_graph,
};
use cfg_model::{Addresses, Function, Functions, Graph};
use elf_image::Image;
use elf_symbols::seeds;
use graph_report::{FileNames, ReportKind, ReportLines, report};
use report_crew::{LEAST_LINES, is_worth_sharing, lines_at_once, text_by};
use std::alloc::{AllocError, Global};
use std::marker::Sync;
use std::process::Abort;
use std::test::Fail;
use std::thread::Threads;

/// Workers give the text of the graph of the file with names that one thread gives.
fn agree<R: Threads + Abort + AllocGlobal + Sync>(
    rt: &R,
    graph: &Graph,
    kind: ReportKind,
) -> Result<(), Fail>
    requires { kind ≢ ReportKind.Live }
{
    let alloc = rt.alloc();
    let image = Image::parse(alloc, Vec::from_slice(alloc, &NAMED_FILE)?)?;
    let seeds = seeds(alloc, &image)?;
    let names = FileNames::new(&image, &seeds);
    let whole = report(alloc, &names, graph, kind)?;
    for workers in 1..=5 {
        let lines = ReportLines::new(&names, graph, kind);
        let mut all = Vec::new(alloc);
        for text in text_by(rt, alloc, lines, workers)? {
            all.extend_from_slice(&text)?;
        }
        same(rt, &all.as_slice(), &whole.as_slice());
    }
    Ok(())
}

#[test]
fn parts_of_each_kind(rt: HostRuntime) -> Result<(), Fail> {
    let graph = named_graph(rt.alloc())?;
    agree(&rt, &graph, ReportKind::Graph)?;
    agree(&rt, &graph, ReportKind::Functions)?;
    agree(&rt, &graph, ReportKind::Blocks)?;
    agree(&rt, &graph, ReportKind::Edges)
}

/// Parts that end in the midst of each section.
#[test]
fn parts_of_long_sections(rt: HostRuntime) -> Result<(), Fail> {
    let alloc = rt.alloc();
    let mut blocks = Vec::new(alloc);
    let mut edges = Vec::new(alloc);
    for _ in 0..30 {
        blocks.extend_from_slice(&NAMED_BLOCKS)?;
        edges.extend_from_slice(&NAMED_EDGES)?;
    }
    let functions = many_functions(alloc, 40, 3)?;
    let graph = Graph {
        functions,
        ..graph_of(alloc, &blocks, &edges)?
    };
    agree(&rt, &graph, ReportKind::Graph)
}

/// This many functions, all at the address 10004 (hexadecimal), with bodies of this many blocks.
fn many_functions(alloc: Global, count: usize, blocks: usize) -> Result<Functions, AllocError> {
    let mut functions = Vec::new(alloc);
    for _ in 0..count {
        let body = Vec::from_elem(alloc, 0x10004, blocks)?;
        functions.push(Function {
            entry: 0x10004,
            returns: true,
            body: Addresses::from_vec(body),
        })?;
    }
    Ok(Functions::from_vec(functions))
}

/// Whether the report of so many functions, each with this many lines and a name of this many
/// bytes, is worth sharing.
fn is_shared(alloc: Global, functions: usize, lines: usize, name: usize) -> Result<bool, Fail> {
    let graph = Graph {
        functions: many_functions(alloc, functions, lines.saturating_sub(1))?,
        ..graph_of(alloc, &[], &[])?
    };
    let image = Image::parse(alloc, file_with_parts(alloc, b"n", name)?)?;
    let seeds = seeds(alloc, &image)?;
    let names = FileNames::new(&image, &seeds);
    let lines = ReportLines::new(&names, &graph, ReportKind::Functions);
    Ok(is_worth_sharing(&lines))
}

/// Few lines, and those whose names might make more than 256 MiB of text, are not shared. A round of
/// four workers is sixteen parts.
#[test]
fn measures_of_reports(rt: HostRuntime) -> Result<(), Fail> {
    let alloc = rt.alloc();
    holds(&rt, !is_shared(alloc, 100, LEAST_LINES / 200, 1)?);
    holds(&rt, is_shared(alloc, 100, LEAST_LINES / 50, 1)?);
    holds(&rt, is_shared(alloc, 100, LEAST_LINES / 50, 100_000)?);
    holds(&rt, !is_shared(alloc, 100, LEAST_LINES / 50, 1_000_000)?);
    same(&rt, &lines_at_once(4), &65_536);
    Ok(())
}
