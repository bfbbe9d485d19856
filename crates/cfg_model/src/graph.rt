//! Functions, basic blocks and edges as plain data, and their lists.

ghost use Rattle.std.specs.Prelude.{◌≡◌, ◌<◌, length, slice_get, slice_set, IfSome};

use std::marker::Model;

/// What a basic block ends with.
#[derive(Clone, Copy, Debug, PartialEq, Eq)]
pub enum EndKind {
    /// Another block starts at its end.
    Fall,
    /// A conditional branch with both its ways in the graph.
    Branch,
    /// A conditional branch that is cut off: one of its ways leads out of the code.
    BranchOut,
    /// An unconditional jump to a known address.
    Jump,
    /// A call of a known address.
    Call,
    /// A call through a register.
    IndirectCall,
    /// A return from the function.
    Return,
    /// A jump through a table, all of whose entries are in the graph.
    Table,
    /// A jump through a table with fewer kept entries than its bound test allows.
    TableCut,
    /// A jump through a table without a bound test: more entries may be in use than are in the
    /// graph, or fewer.
    TableOpen,
    /// A jump whose target is not known.
    Unknown,
    /// Execution does not go on.
    Stop,
}

/// How control goes from one block to another. The order of the kinds is that of the report.
#[derive(Clone, Copy, Debug, PartialEq, Eq, PartialOrd, Ord)]
pub enum EdgeKind {
    /// On to the next instruction: of a straight instruction, or a branch that is not taken.
    Fall,
    /// A branch that is taken.
    Taken,
    /// A jump within a function.
    Jump,
    /// A jump to the entry of another function, instead of a call and a return.
    Tail,
    /// A call.
    Call,
    /// From a call to where it returns to.
    After,
    /// A jump through a table.
    Table,
    /// From a call to its landing pad: the callee throws an exception that lands there.
    Landing,
}

/// A basic block: the instructions from `start` up to, and without, `end`.
#[derive(Clone, Copy, Debug, PartialEq, Eq)]
pub struct Block {
    /// The address of its first instruction.
    pub start: u64,
    /// The address after its last instruction.
    pub end: u64,
    /// What it ends with.
    pub kind: EndKind,
}

/// An edge from the block that starts at `from` to the block that starts at `to`.
#[derive(Clone, Copy, Debug, PartialEq, Eq, PartialOrd, Ord)]
pub struct Edge {
    pub from: u64,
    pub to: u64,
    pub kind: EdgeKind,
}

/// A function: its entry, whether it may return, and the starts of the blocks of its body.
#[derive(Drop)]
pub struct Function {
    pub entry: u64,
    pub returns: bool,
    pub body: Addresses,
}

/// The outline of a program: its basic blocks and the edges between them, before tail calls are told
/// from other jumps.
#[derive(Drop)]
pub struct Outline {
    /// The blocks, by where they start.
    pub blocks: Blocks,
    /// The edges, by the start of the block that they leave, then of the block that they enter,
    /// then by kind.
    pub edges: Edges,
}

/// The control-flow graph of a program: functions, blocks and edges, each list in its own order.
#[derive(Drop)]
pub struct Graph {
    /// The address where the program starts.
    pub entry: u64,
    pub functions: Functions,
    pub blocks: Blocks,
    pub edges: Edges,
}

/// A list of addresses.
#[derive(Drop)]
pub struct Addresses {
    items: Vec<u64>,
}

impl Model for Addresses {
    ghost use Rattle.std.specs.Prelude.{ℕ, List};

    ghost Value = { List ℕ };

    ghost view = { λ a. a.items.items };
}

impl Addresses {
    /// The list of these items.
    pub fn from_vec(items: Vec<u64>) -> Self
        ensures { result ≡ items.items }
    {
        Self { items }
    }

    /// The items, in order.
    pub fn as_slice(&self) -> &[u64]
        ensures { result.now ≡ self.now }
    {
        self.items.as_slice()
    }
}

/// A list of basic blocks.
#[derive(Drop)]
pub struct Blocks {
    items: Vec<Block>,
}

impl Model for Blocks {
    ghost use Rattle.std.specs.Prelude.{List};
    ghost use Rattle.cfg_model.specs.declared.graph.Block.{Block};

    ghost Value = { List Block };

    ghost view = { λ a. a.items.items };
}

impl Blocks {
    /// The list of these items.
    pub fn from_vec(items: Vec<Block>) -> Self
        ensures { result ≡ items.items }
    {
        Self { items }
    }

    /// The items, in order.
    pub fn as_slice(&self) -> &[Block]
        ensures { result.now ≡ self.now }
    {
        self.items.as_slice()
    }
}

/// A list of edges.
#[derive(Drop)]
pub struct Edges {
    items: Vec<Edge>,
}

impl Model for Edges {
    ghost use Rattle.std.specs.Prelude.{List};
    ghost use Rattle.cfg_model.specs.declared.graph.Edge.{Edge};

    ghost Value = { List Edge };

    ghost view = { λ a. a.items.items };
}

impl Edges {
    /// The list of these items.
    pub fn from_vec(items: Vec<Edge>) -> Self
        ensures { result ≡ items.items }
    {
        Self { items }
    }

    /// The items, in order.
    pub fn as_slice(&self) -> &[Edge]
        ensures { result.now ≡ self.now }
    {
        self.items.as_slice()
    }

    /// Sets the kind of edge number `i`, and leaves all else as it is.
    pub fn set_kind(&mut self, i: usize, kind: EdgeKind)
        requires { i < length self.old }
        ensures { IfSome (slice_get self.old i)
            (λ edge. self.new ≡ slice_set self.old i (record edge { kind = kind })) }
    {
        self.items[i].kind = kind;
    }
}

/// A list of functions.
#[derive(Drop)]
pub struct Functions {
    items: Vec<Function>,
}

impl Model for Functions {
    ghost use Rattle.std.specs.Prelude.{List};
    ghost use Rattle.cfg_model.specs.declared.graph.Function.{Function};

    ghost Value = { List Function };

    ghost view = { λ a. a.items.items };
}

impl Functions {
    /// The list of these items.
    pub fn from_vec(items: Vec<Function>) -> Self
        ensures { result ≡ items.items }
    {
        Self { items }
    }

    /// The items, in order.
    pub fn as_slice(&self) -> &[Function]
        ensures { result.now ≡ self.now }
    {
        self.items.as_slice()
    }
}
