//! The graphs of worked programs.

use crate::asserts::{holds, same};
use cfg_model::{Block, Edge, EdgeKind, EndKind, Flow, Function, Graph};
use reached_graph::graph_of;
use std::process::Abort;
use std::test::Fail;
use test_programs::{Sample, row_6, row_8, row_9, row_10, row_12, row_17};

/// A function as it is wanted: its entry, whether it may return, and the starts of its blocks.
type Wanted<'a> = (u64, bool, &'a [u64]);

/// Compares the graph of a program that starts at the first of its seeds.
fn expect<R: Abort + AllocGlobal>(
    rt: &R,
    code: &Sample,
    functions: &[Wanted],
    blocks: &[Block],
    edges: &[Edge],
) -> Result<(), Fail> {
    let seeds = code.seeds();
    let graph = graph_of(rt.alloc(), code, seeds[0], seeds)?;
    same(rt, &graph.entry, &seeds[0]);
    expect_functions(rt, graph.functions.as_slice(), functions);
    same(rt, &graph.blocks.as_slice(), &blocks);
    same(rt, &graph.edges.as_slice(), &edges);
    Ok(())
}

/// Compares functions.
fn expect_functions(rt: &impl Abort, functions: &[Function], wanted: &[Wanted]) {
    holds(rt, functions.len() == wanted.len());
    for (function, want) in functions.iter().zip(wanted) {
        holds(rt, is_wanted(function, want));
    }
}

/// Whether a function is the one that is wanted.
fn is_wanted(function: &Function, want: &Wanted) -> bool {
    function.entry == want.0 && function.returns == want.1 && function.body.as_slice() == want.2
}

fn block(start: u64, end: u64, kind: EndKind) -> Block {
    Block { start, end, kind }
}

fn edge(from: u64, to: u64, kind: EdgeKind) -> Edge {
    Edge { from, to, kind }
}

/// A branch back into its own block.
#[test]
fn branch_back(rt: HostRuntime) -> Result<(), Fail> {
    let blocks = [
        block(0, 4, EndKind::Fall),
        block(4, 12, EndKind::Branch),
        block(12, 16, EndKind::Return),
    ];
    let edges = [
        edge(0, 4, EdgeKind::Fall),
        edge(4, 4, EdgeKind::Taken),
        edge(4, 12, EdgeKind::Fall),
    ];
    let functions: [Wanted; 1] = [(0, true, &[0, 4, 12])];
    expect(&rt, &row_6(rt.alloc()), &functions, &blocks, &edges)
}

/// Two streams of instructions that join at 4; the second is found late.
#[test]
fn two_streams(rt: HostRuntime) -> Result<(), Fail> {
    let blocks = [
        block(0, 4, EndKind::Fall),
        block(2, 4, EndKind::Fall),
        block(4, 8, EndKind::Branch),
        block(8, 12, EndKind::Return),
    ];
    let edges = [
        edge(0, 4, EdgeKind::Fall),
        edge(2, 4, EdgeKind::Fall),
        edge(4, 2, EdgeKind::Taken),
        edge(4, 8, EdgeKind::Fall),
    ];
    let functions: [Wanted; 1] = [(0, true, &[0, 2, 4, 8])];
    expect(&rt, &row_8(rt.alloc()), &functions, &blocks, &edges)
}

/// A function that calls itself never returns, so what stands after the call is not reached.
#[test]
fn endless_recursion(rt: HostRuntime) -> Result<(), Fail> {
    let blocks = [block(0, 4, EndKind::Call)];
    let edges = [edge(0, 0, EdgeKind::Call)];
    let functions: [Wanted; 1] = [(0, false, &[0])];
    expect(&rt, &row_9(rt.alloc()), &functions, &blocks, &edges)
}

/// Two functions that call each other, and return.
#[test]
fn mutual_recursion(rt: HostRuntime) -> Result<(), Fail> {
    let blocks = [
        block(0, 4, EndKind::Branch),
        block(4, 8, EndKind::Call),
        block(8, 12, EndKind::Return),
        block(12, 16, EndKind::Call),
        block(16, 20, EndKind::Return),
    ];
    let edges = [
        edge(0, 4, EdgeKind::Fall),
        edge(0, 8, EdgeKind::Taken),
        edge(4, 8, EdgeKind::After),
        edge(4, 12, EdgeKind::Call),
        edge(12, 0, EdgeKind::Call),
        edge(12, 16, EdgeKind::After),
    ];
    let functions: [Wanted; 2] = [(0, true, &[0, 4, 8]), (12, true, &[12, 16])];
    expect(&rt, &row_10(rt.alloc()), &functions, &blocks, &edges)
}

/// A branch that is cut off, and a jump to itself.
#[test]
fn cut_off(rt: HostRuntime) -> Result<(), Fail> {
    let blocks = [block(0, 4, EndKind::BranchOut), block(4, 8, EndKind::Jump)];
    let edges = [edge(0, 4, EdgeKind::Fall), edge(4, 4, EdgeKind::Jump)];
    let functions: [Wanted; 1] = [(0, true, &[0, 4])];
    expect(&rt, &row_12(rt.alloc()), &functions, &blocks, &edges)
}

/// A second function jumps to the entry of the first, from outside of its body. The jump of the
/// first to its own entry is no tail call.
#[test]
fn tail_call(rt: HostRuntime) -> Result<(), Fail> {
    let blocks = [
        block(0, 4, EndKind::Branch),
        block(4, 8, EndKind::Jump),
        block(8, 12, EndKind::Return),
        block(12, 16, EndKind::Jump),
    ];
    let edges = [
        edge(0, 4, EdgeKind::Fall),
        edge(0, 8, EdgeKind::Taken),
        edge(4, 0, EdgeKind::Jump),
        edge(12, 0, EdgeKind::Tail),
    ];
    let functions: [Wanted; 2] = [(0, true, &[0, 4, 8]), (12, true, &[12])];
    expect(&rt, &row_17(rt.alloc()), &functions, &blocks, &edges)
}

/// A call through a register, and a jump whose target is not known.
#[test]
fn through_registers(rt: HostRuntime) -> Result<(), Fail> {
    let call = Flow::IndirectCall { fall: Some(4) };
    let slots = [
        Some((2, Flow::Straight { next: 2 })),
        None,
        Some((2, call)),
        None,
        Some((2, Flow::Straight { next: 6 })),
        None,
        Some((2, Flow::Unknown)),
    ];
    let code = Sample {
        alloc: rt.alloc(),
        slots: &slots,
        targets: &[],
        seeds: &[0],
    };
    let blocks = [
        block(0, 4, EndKind::IndirectCall),
        block(4, 8, EndKind::Unknown),
    ];
    let edges = [edge(0, 4, EdgeKind::After)];
    let functions: [Wanted; 1] = [(0, true, &[0, 4])];
    expect(&rt, &code, &functions, &blocks, &edges)
}

/// A jump through a table without a bound test that was cut, two of whose entries are the same.
#[test]
fn open_table(rt: HostRuntime) -> Result<(), Fail> {
    let table = Flow::Table {
        entries: 3,
        full: false,
        is_open: true,
    };
    let slots = [
        Some((2, table)),
        None,
        Some((2, Flow::Return)),
        None,
        Some((2, Flow::Stop)),
    ];
    let code = Sample {
        alloc: rt.alloc(),
        slots: &slots,
        targets: &[4, 2, 4],
        seeds: &[0],
    };
    let blocks = [
        block(0, 2, EndKind::TableOpen),
        block(2, 4, EndKind::Return),
        block(4, 6, EndKind::Stop),
    ];
    let edges = [edge(0, 2, EdgeKind::Table), edge(0, 4, EdgeKind::Table)];
    let functions: [Wanted; 1] = [(0, true, &[0, 2, 4])];
    expect(&rt, &code, &functions, &blocks, &edges)
}
