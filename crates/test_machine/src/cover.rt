//! The moves of steps in the outline of a worked program: a branch back into its own block.

ghost use Rattle.std.specs.Prelude.{AllPairs, IfOk};
ghost use Rattle.cfg_model.specs.Graph.Graph.{EdgeBefore};

use crate::asserts::holds;
use cfg_model::{Block, Edge, EdgeKind, EndKind, edges_in_order};
use edge_cover::{Move, judge_in};
use std::alloc::{AllocError, Global};
use std::process::Abort;
use std::test::Fail;

/// A straight instruction at 0.
const ENTRY: Block = Block {
    start: 0,
    end: 4,
    kind: EndKind::Fall,
};

/// Another one at 4, and at 8 a branch back to it.
const LOOP: Block = Block {
    start: 4,
    end: 12,
    kind: EndKind::Branch,
};

/// A return at 12.
const EXIT: Block = Block {
    start: 12,
    end: 16,
    kind: EndKind::Return,
};

/// The edges of these blocks, and two of a branch whose ways lead to one address.
const EDGES: [Edge; 5] = [
    Edge {
        from: 0,
        to: 4,
        kind: EdgeKind::Fall,
    },
    Edge {
        from: 4,
        to: 4,
        kind: EdgeKind::Taken,
    },
    Edge {
        from: 4,
        to: 12,
        kind: EdgeKind::Fall,
    },
    Edge {
        from: 20,
        to: 24,
        kind: EdgeKind::Fall,
    },
    Edge {
        from: 20,
        to: 24,
        kind: EdgeKind::Taken,
    },
];

/// The block of that branch.
const BOTH_WAYS: Block = Block {
    start: 20,
    end: 24,
    kind: EndKind::Branch,
};

/// Steps from a block to an address, by the end of their instruction, and their moves.
const MOVES: [(Block, u64, u64, Move); 9] = [
    (ENTRY, 4, 4, Move::Along(EdgeKind::Fall)),
    (LOOP, 8, 8, Move::Inside),
    (LOOP, 8, 4, Move::Out(EndKind::Branch)),
    (LOOP, 8, 12, Move::Out(EndKind::Branch)),
    (LOOP, 12, 4, Move::Along(EdgeKind::Taken)),
    (LOOP, 12, 12, Move::Along(EdgeKind::Fall)),
    (LOOP, 12, 8, Move::Out(EndKind::Branch)),
    (EXIT, 16, 0, Move::Out(EndKind::Return)),
    (BOTH_WAYS, 24, 24, Move::Along(EdgeKind::Fall)),
];

/// The edges, in order.
fn edges_of(alloc: Global) -> Result<Vec<Edge>, AllocError>
    ensures { IfOk result (λ edges. AllPairs EdgeBefore edges.items) }
{
    let edges = Vec::from_slice(alloc, &EDGES)?;
    Ok(edges_in_order(edges))
}

#[test]
fn moves_in_a_worked_outline(rt: HostRuntime) -> Result<(), Fail> {
    let edges = edges_of(rt.alloc())?;
    for (block, next, to, expected) in &MOVES {
        holds(&rt, judge_in(&edges, block, *next, *to) == *expected);
    }
    Ok(())
}
