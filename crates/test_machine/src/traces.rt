//! The traces of the worked rows, with graphs written by hand.

ghost use Rattle.std.specs.Prelude.{AllPairs, IfOk};
ghost use Rattle.cfg_model.specs.Graph.Graph.{BlockBefore, EdgeBefore};

use crate::asserts::holds;
use cfg_model::{Block, Blocks, Edge, EdgeKind, Edges, EndKind, Functions, Graph, edges_in_order};
use cfg_vectors::row_file;
use elf_image::Image;
use rv_machine::Regions;
use std::alloc::{AllocError, Global};
use std::process::Abort;
use std::test::Fail;
use walk_trace::trace;

/// The block of row 1: a return.
const RETURN: Block = Block {
    start: 0x10000,
    end: 0x10004,
    kind: EndKind::Return,
};

/// The blocks of row 6: a branch back into its own block.
const ENTRY: Block = Block {
    start: 0x10000,
    end: 0x10004,
    kind: EndKind::Fall,
};

const LOOP: Block = Block {
    start: 0x10004,
    end: 0x1000C,
    kind: EndKind::Branch,
};

const EXIT: Block = Block {
    start: 0x1000C,
    end: 0x10010,
    kind: EndKind::Return,
};

/// The edges of row 6.
const EDGES: [Edge; 3] = [
    Edge {
        from: 0x10000,
        to: 0x10004,
        kind: EdgeKind::Fall,
    },
    Edge {
        from: 0x10004,
        to: 0x10004,
        kind: EdgeKind::Taken,
    },
    Edge {
        from: 0x10004,
        to: 0x1000C,
        kind: EdgeKind::Fall,
    },
];

/// Bytes that make the code of row 1 an ECALL, by their offsets.
const ECALL: [(usize, u8); 2] = [(64, 0x73), (65, 0)];

/// The trace of five steps of row 6.
const LOOP_TRACE: &[u8] = b"at 0000000000010000\nat 0000000000010004\n\
    at 0000000000010004\nat 0000000000010004\nend steps\n";

/// These edges in order.
fn in_order(edges: Vec<Edge>) -> Edges
    ensures { AllPairs EdgeBefore result }
{
    Edges::from_vec(edges_in_order(edges))
}

/// A graph of these blocks and edges. Traces need no functions.
fn graph_of(alloc: Global, blocks: &[Block], edges: &[Edge]) -> Result<Graph, AllocError>
    requires { AllPairs BlockBefore blocks.now }
    ensures blocks { IfOk result (λ graph. AllPairs BlockBefore graph.blocks) }
    ensures edges { IfOk result (λ graph. AllPairs EdgeBefore graph.edges) }
{
    let blocks = Vec::from_slice(alloc, blocks)?;
    let edges = Vec::from_slice(alloc, edges)?;
    Ok(Graph {
        entry: 0x10000,
        functions: Functions::from_vec(Vec::new(alloc)),
        blocks: Blocks::from_vec(blocks),
        edges: in_order(edges),
    })
}

/// The trace of a file with these blocks and edges; `None` if memory ran out.
fn trace_with(
    alloc: Global,
    bytes: Vec<u8>,
    blocks: &[Block],
    edges: &[Edge],
    steps: u32,
) -> Option<Vec<u8>>
    requires { AllPairs BlockBefore blocks.now }
{
    let image = Image::parse(alloc, bytes).ok()?;
    let Ok(regions) = Regions::new(alloc, &image) else {
        return None;
    };
    let Ok(graph) = graph_of(alloc, blocks, edges) else {
        return None;
    };
    trace(alloc, &image, &graph, regions, steps).ok()
}

#[test]
fn a_return_leaves(rt: HostRuntime) -> Result<(), Fail> {
    let alloc = rt.alloc();
    let file = row_file(alloc, 1, 0).ok().ok_or("no memory")?;
    let text = trace_with(alloc, file, &[RETURN], &[], 10).ok_or("no trace")?;
    holds(
        &rt,
        text.as_slice() == b"at 0000000000010000\nout return\nend left\n".as_slice(),
    );
    Ok(())
}

#[test]
fn a_loop_goes_on(rt: HostRuntime) -> Result<(), Fail> {
    let alloc = rt.alloc();
    let file = row_file(alloc, 6, 0).ok().ok_or("no memory")?;
    let text = trace_with(alloc, file, &[ENTRY, LOOP, EXIT], &EDGES, 5).ok_or("no trace")?;
    holds(&rt, text.as_slice() == LOOP_TRACE);
    Ok(())
}

/// Row 1's file with ECALL in the place of its return.
#[test]
fn a_trap_ends(rt: HostRuntime) -> Result<(), Fail> {
    let alloc = rt.alloc();
    let mut file = row_file(alloc, 1, 0).ok().ok_or("no memory")?;
    for (at, byte) in ECALL {
        if let Some(place) = file.get_mut(at) {
            *place = byte;
        }
    }
    let text = trace_with(alloc, file, &[RETURN], &[], 10).ok_or("no trace")?;
    holds(
        &rt,
        text.as_slice() == b"at 0000000000010000\nend trap Ecall\n".as_slice(),
    );
    Ok(())
}
