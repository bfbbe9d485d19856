//! The masks of one function's blocks to begin with, and the ways between them.

ghost use Rattle.std.specs.Prelude.{◌≡◌, ◌≢◌, ◌<◌, ◌==◌, ◌&&◌, ◌||◌, not, ℕ, IfOk, IsTrue, OnOk};
ghost use Rattle.std.specs.Prelude.{length, slice_index};
ghost use Rattle.std.specs.List.Sorted.{IsStrictlyIncreasing};
ghost use Rattle.mask_flow.specs.Reaches.{has_bit};
ghost use Rattle.live_regs.specs.Leaves.{ends_outside};
ghost use Rattle.live_regs.specs.Noted.{IsNoted};
ghost use Rattle.live_regs.specs.Inner.{AddsWays, IsNumber};

use crate::effects::{ALL, Effects, without};
use crate::program::Program;
use crate::search::{between, end_from, first_near, number_near, place_near};
use cfg_model::{Edge, EdgeKind, EndKind, Memory};
use mask_flow::Way;
use std::alloc::Global;

/// The blocks of one function, which are known by their places in its body.
#[derive(Drop)]
pub(crate) struct Nodes {
    /// For each block the registers that it writes.
    pub(crate) stops: Vec<u32>,
    /// For each block the registers that are live there by itself.
    pub(crate) masks: Vec<u32>,
    /// The edges within the body.
    pub(crate) ways: Vec<Way>,
    /// Where the next block and its edges most often stand: after the last ones, also if those are
    /// of another function.
    near_block: usize,
    near_edge: usize,
}

impl Nodes {
    ghost use Rattle.live_regs.specs.Inner.{AddsNode, HaveNodes};

    /// None.
    pub(crate) fn new(alloc: Global) -> Nodes {
        Nodes {
            stops: Vec::new(alloc),
            masks: Vec::new(alloc),
            ways: Vec::new(alloc),
            near_block: 0,
            near_edge: 0,
        }
    }

    /// Takes the blocks of this body in place of what was there.
    pub(crate) fn begin(&mut self, program: &Program, body: &[u64]) -> Result<(), Memory>
        requires noted { IsNoted program.now }
        requires rising { IsStrictlyIncreasing body.now }
        ensures { OnOk result (HaveNodes program.now.image.now program.now.blocks.now
            program.now.edges.now body.now (length body.now) self.new) }
    {
        self.stops.clear();
        self.masks.clear();
        self.ways.clear();
        for place in 0..body.len() {
            self.add(program, body, place)?;
        }
        Ok(())
    }

    /// Adds the block at this place. Where no block starts, nothing is live.
    fn add(&mut self, program: &Program, body: &[u64], place: usize) -> Result<(), Memory>
        requires noted { IsNoted program.now }
        requires rising { IsStrictlyIncreasing body.now }
        requires place { place < length body.now }
        ensures { OnOk result (AddsNode program.now.image.now program.now.blocks.now
            program.now.edges.now body.now place self.old self.new) }
    {
        match number_near(program.blocks, self.near_block, body[place]) {
            Some(number) => self.add_block(program, body, place, number),
            None => {
                self.stops.push(0)?;
                self.masks.push(0)?;
                Ok(())
            }
        }
    }

    /// Adds the block of this number.
    fn add_block(
        &mut self,
        program: &Program,
        body: &[u64],
        place: usize,
        number: usize,
    ) -> Result<(), Memory>
        requires noted { IsNoted program.now }
        requires rising { IsStrictlyIncreasing body.now }
        requires place { place < length body.now }
        requires number { IsNumber program.now.blocks.now (slice_index body.now place) number }
        ensures { OnOk result (AddsNode program.now.image.now program.now.blocks.now
            program.now.edges.now body.now place self.old self.new) }
    {
        let block = program.blocks[number];
        let first = first_near(program.edges, self.near_edge, block.start);
        let end = end_from(program.edges, first, block.start);
        let edges = between(program.edges, first, end);
        let by_edge = add_ways(edges, body, place, &mut self.ways)?;
        let leaves = leaves_by(block.kind, by_edge);
        let effects = program.effects(number);
        self.stops.push(effects.writes)?;
        self.masks.push(mask_of(effects, leaves))?;
        self.near_block = number + 1;
        self.near_edge = end;
        Ok(())
    }
}

/// Adds the ways along these edges from this place within the body. Answers whether another one of
/// these edges leaves the body.
fn add_ways(edges: &[Edge], body: &[u64], place: usize, ways: &mut Vec<Way>) -> Result<bool, Memory>
    requires rising { IsStrictlyIncreasing body.now }
    requires place { place < length body.now }
    ensures { IfOk result (AddsWays edges.now body.now place ways.old.items ways.new.items) }
{
    let mut leaves = false;
    for edge in edges {
        if !is_call(edge.kind) {
            match place_near(body, place + 1, edge.to) {
                Some(to) => ways.push(Way { from: place, to })?,
                None => leaves = true,
            }
        }
    }
    Ok(leaves)
}

/// The registers that are live at a block by itself: those that it reads first, and if it leaves the
/// function all that it does not write.
fn mask_of(effects: Effects, leaves: bool) -> u32
    ensures { (r : ℕ) → r < 32 → has_bit result r ≡ (has_bit effects.reads r
        || (leaves && not (r == 0) && not (has_bit effects.writes r))) }
{
    if leaves {
        effects.reads | without(ALL, effects.writes)
    } else {
        effects.reads
    }
}

/// Whether an edge of this kind is a call.
fn is_call(kind: EdgeKind) -> bool
    ensures call { IsTrue result → kind ≡ EdgeKind.Call }
    ensures other { ¬ IsTrue result → kind ≢ EdgeKind.Call }
{
    matches!(kind, EdgeKind::Call)
}

/// Whether a block that ends so leaves its function: by an edge, or by its end.
fn leaves_by(kind: EndKind, by_edge: bool) -> bool
    ensures { result ≡ (by_edge || ends_outside kind) }
{
    by_edge || ends_outside(kind)
}

/// Whether a block that ends so leaves its function.
fn ends_outside(kind: EndKind) -> bool
    ensures { result ≡ ends_outside kind }
{
    match kind {
        EndKind::Return
        | EndKind::Unknown
        | EndKind::Call
        | EndKind::IndirectCall
        | EndKind::BranchOut
        | EndKind::TableCut
        | EndKind::TableOpen => true,
        EndKind::Fall | EndKind::Branch | EndKind::Jump | EndKind::Table | EndKind::Stop => false,
    }
}
