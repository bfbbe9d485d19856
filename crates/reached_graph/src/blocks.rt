//! One block, from its leader up to its last instruction.

ghost use Rattle.std.specs.Prelude.{◌≡◌, ◌↔◌, IfSome, IsSome, IsTrue, Some, length};
ghost use Rattle.cfg_model.specs.Graph.Block.{IsBlockOf, IsLastOf};
ghost use Rattle.cfg_model.specs.Program.Chain.{GoesOnTo, OnChain};
ghost use Rattle.cfg_model.specs.Program.Instructions.{IsLawful, flow_at};
ghost use Rattle.numbered.specs.Numbering.{IsMarked, IsNumbering};
ghost use Rattle.reached_graph.specs.Inner.Blocks.{StopsAt};

use crate::walks::next_of;
use cfg_model::{Block, Chains, EndKind, Flow, block_by};
use numbered::Numbered;

/// The last address of the block from `s`, if the next one above starts at `next`. `None` if
/// control goes straight on over that.
/// Time: linear in the instructions of the block if that goes on into the next, and else that of
/// [`term`](Chains::term).
#[inline(always)]
pub(crate) fn last_before<C: Chains>(code: &C, s: u64, next: Option<u64>) -> Option<u64>
    requires { IsSome (C.map code.now s) }
    ensures { IfSome result (StopsAt (C.map code.now) s next) }
{
    let k = code.term(s);
    match next {
        Some(next) if next <= k => last_to(code, s, next),
        _ => Some(k),
    }
}

/// The address on the chain of `s` from which control goes straight on to `t`, if there is one.
/// Time: linear in the instructions in between.
fn last_to<C: Chains>(code: &C, s: u64, t: u64) -> Option<u64>
    requires { IsSome (C.map code.now s) }
    ensures { IfSome result (λ k. OnChain (C.map code.now) s k × GoesOnTo (C.map code.now) k t) }
{
    let mut at = s;
    while let Flow::Straight { next } = code.flow(at) {
        if next == t {
            return Some(at);
        }
        if next > t {
            return None;
        }
        at = next;
    }
    None
}

/// The last address of the block from `s`, if blocks start where the marks are set: before the next
/// of them, or at the first instruction that is not straight.
/// Time: linear in the instructions of the block.
pub(crate) fn last_of<C: Numbered>(code: &C, marks: &[bool], s: u64) -> u64
    requires numbering { IsNumbering (C.map code.now) (C.number code.now) (length marks.now) }
    requires stands { IsSome (C.map code.now s) }
    ensures { IsLastOf (C.map code.now) (IsMarked (C.map code.now) (C.number code.now) marks.now) s
        result }
{
    let k = code.term(s);
    let mut at = s;
    while let Some(next) = next_of(code, at, k) {
        if is_marked(code, marks, next) {
            return at;
        }
        at = next;
    }
    at
}

/// Whether the mark of the address `a` is set.
fn is_marked<C: Numbered>(code: &C, marks: &[bool], a: u64) -> bool
    requires numbering { IsNumbering (C.map code.now) (C.number code.now) (length marks.now) }
    requires stands { IsSome (C.map code.now a) }
    ensures { IsTrue result ↔ IsMarked (C.map code.now) (C.number code.now) marks.now a }
{
    marks[code.number(a) as usize]
}

/// The block from `s` to the instruction at `k`, whose flow this is. If that goes straight on, the
/// block ends there, and nothing is asked of the program.
pub(crate) fn block_to<C: Chains>(code: &C, s: u64, k: u64, flow: Flow) -> Block
    requires stands { IsSome (C.map code.now k) }
    requires lawful { IsLawful (C.map code.now) }
    requires flow { flow_at (C.map code.now) k ≡ Some flow }
    ensures { IsBlockOf (C.map code.now) s k result }
{
    match flow {
        Flow::Straight { next } => Block {
            start: s,
            end: next,
            kind: EndKind::Fall,
        },
        _ => block_by(code, s, k, flow),
    }
}
