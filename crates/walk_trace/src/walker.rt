//! A walk under way: the machine in a block of a graph.

ghost use Rattle.std.specs.Prelude.{◌≡◌, ◌++◌, AllPairs, IfOk};
ghost use Rattle.cfg_model.specs.Graph.Graph.{BlockBefore};
ghost use Rattle.walk_trace.specs.Trace.{block_at, arrival_line};

use crate::decoded::Decoded;
use crate::lines::{push_at, push_left, push_out, push_trap};
use cfg_model::{Block, Graph, Memory};
use edge_cover::{Move, judge_in};
use elf_image::Image;
use rv_machine::{Cpu, Regions, Stepped, Trap, step_placed};
use std::alloc::Global;

/// The top of the stack at the start, in x2.
const STACK: u64 = 0x7FFF_0000;

/// The machine, and the block that its program counter lies in.
#[derive(Drop)]
pub(crate) struct Walker {
    block: Block,
    cpu: Cpu,
    ram: Regions,
    decoded: Decoded,
}

impl Walker {
    ghost use Rattle.std.specs.Prelude.{OnOk, IfSome};
    ghost use Rattle.std.specs.Option.{option_map};
    ghost use Rattle.cfg_model.specs.Graph.Graph.{EdgeBefore};
    ghost use Rattle.elf_image.specs.Header.{entry};
    ghost use Rattle.edge_cover.specs.Move.{move_in};
    ghost use Rattle.rv_machine.specs.Regions.{bytes_of};
    ghost use Rattle.rv_machine.specs.State.{start, state_of};
    ghost use Rattle.walk_trace.specs.Trace.{stack, entered, moved, stepped};
    ghost use Rattle.walk_trace.specs.Inner.{AreDecoded, walk_of, walk_if};

    /// The walk from the entry of a file with this memory, if a block starts there. Appends what is
    /// printed first.
    pub(crate) fn start(
        alloc: Global,
        image: &Image,
        graph: &Graph,
        ram: Regions,
        text: &mut Vec<u8>,
    ) -> Result<Option<Walker>, Memory>
        requires { AllPairs BlockBefore graph.now.blocks }
        ensures text { IfOk result (λ _. text.new.items ≡ text.old.items
            ++ (entered graph.now.blocks (start (entry image.now) stack) (bytes_of ram)).text) }
        ensures walk { IfOk result (λ walker. option_map walk_of walker
            ≡ (entered graph.now.blocks (start (entry image.now) stack) (bytes_of ram)).walk) }
        ensures decoded { IfOk result
            (λ walker. IfSome walker (λ w. AreDecoded image.now w.decoded)) }
    {
        let cpu = Cpu::start(image.entry(), STACK);
        let decoded = Decoded::new(alloc)?;
        match arrive(graph, cpu.pc, text)? {
            None => Ok(None),
            Some(block) => Ok(Some(Walker {
                block,
                cpu,
                ram,
                decoded,
            })),
        }
    }

    /// Makes a step, and appends what it prints. Answers whether the walk goes on.
    pub(crate) fn step(
        &mut self,
        image: &Image,
        graph: &Graph,
        text: &mut Vec<u8>,
    ) -> Result<bool, Memory>
        requires blocks { AllPairs BlockBefore graph.now.blocks }
        requires edges { AllPairs EdgeBefore graph.now.edges }
        requires decoded { AreDecoded image.now self.old.decoded }
        ensures text { IfOk result (λ _. text.new.items ≡ text.old.items
            ++ (stepped image.now graph.now.blocks graph.now.edges (walk_of self.old)).text) }
        ensures walk { IfOk result (λ goes_on. walk_if goes_on self.new
            ≡ (stepped image.now graph.now.blocks graph.now.edges (walk_of self.old)).walk) }
        ensures decoded { AreDecoded image.now self.new.decoded }
    {
        let Some(placed) = self.decoded.at(image, self.cpu.pc) else {
            push_trap(text, Trap::Fetch)?;
            return Ok(false);
        };
        let next = self.cpu.pc.wrapping_add(u64::from(placed.length));
        match step_placed(image, &mut self.cpu, &mut self.ram, placed) {
            Stepped::Next => self.follow(graph, next, text),
            Stepped::Trap(trap) => {
                push_trap(text, trap)?;
                Ok(false)
            }
        }
    }

    /// Appends the move of a step from the instruction that ends just before `next`, and goes into
    /// the block that the machine enters. Answers whether the walk goes on.
    fn follow(&mut self, graph: &Graph, next: u64, text: &mut Vec<u8>) -> Result<bool, Memory>
        requires blocks { AllPairs BlockBefore graph.now.blocks }
        requires edges { AllPairs EdgeBefore graph.now.edges }
        ensures text { IfOk result (λ _. text.new.items ≡ text.old.items ++ (moved graph.now.blocks
            (move_in self.old.block graph.now.edges next self.old.cpu.pc) (walk_of self.old)).text) }
        ensures walk { IfOk result (λ goes_on. walk_if goes_on self.new ≡ (moved graph.now.blocks
            (move_in self.old.block graph.now.edges next self.old.cpu.pc) (walk_of self.old)).walk) }
        ensures decoded { self.new.decoded ≡ self.old.decoded }
    {
        match judge_in(graph.edges.as_slice(), &self.block, next, self.cpu.pc) {
            Move::Inside => Ok(true),
            Move::Along(_) => self.enter(graph, text),
            Move::Out(kind) => {
                push_out(text, kind)?;
                self.enter(graph, text)
            }
        }
    }

    /// Goes into the block that starts at the program counter, and appends that. Answers whether
    /// there is one.
    fn enter(&mut self, graph: &Graph, text: &mut Vec<u8>) -> Result<bool, Memory>
        requires { AllPairs BlockBefore graph.now.blocks }
        ensures text { IfOk result (λ _. text.new.items ≡ text.old.items
            ++ (entered graph.now.blocks (state_of self.old.cpu) (bytes_of self.old.ram)).text) }
        ensures walk { IfOk result (λ goes_on. walk_if goes_on self.new
            ≡ (entered graph.now.blocks (state_of self.old.cpu) (bytes_of self.old.ram)).walk) }
        ensures decoded { self.new.decoded ≡ self.old.decoded }
    {
        match arrive(graph, self.cpu.pc, text)? {
            None => Ok(false),
            Some(block) => {
                self.block = block;
                Ok(true)
            }
        }
    }
}

/// Appends that the machine goes to `a`. Answers the block that starts there.
fn arrive(graph: &Graph, a: u64, text: &mut Vec<u8>) -> Result<Option<Block>, Memory>
    requires { AllPairs BlockBefore graph.now.blocks }
    ensures text { IfOk result (λ _. text.new.items
        ≡ text.old.items ++ arrival_line (block_at graph.now.blocks a) a) }
    ensures block { IfOk result (λ block. block ≡ block_at graph.now.blocks a) }
{
    let block = block_at(graph.blocks.as_slice(), a);
    match block {
        None => push_left(text)?,
        Some(_) => push_at(text, a)?,
    }
    Ok(block)
}

/// The block that starts at `a`.
fn block_at(blocks: &[Block], a: u64) -> Option<Block>
    requires { AllPairs BlockBefore blocks.now }
    ensures { result ≡ block_at blocks.now a }
{
    match blocks.binary_search_by_key(&a, |block| block.start) {
        Ok(i) => Some(blocks[i]),
        Err(_) => None,
    }
}
