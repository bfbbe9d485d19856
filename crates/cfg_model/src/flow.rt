//! The control flow of one instruction, and a program as a map of them.

use crate::Memory;
use std::marker::Sync;

/// Where control goes from one instruction. Every address is that of an instruction of the program.
#[derive(Clone, Copy, Debug, PartialEq, Eq)]
pub enum Flow {
    /// Execution goes on at `next`, right after the instruction. The only flow that does not end a
    /// basic block.
    Straight {
        next: u64,
    },
    /// A conditional branch. `None` stands for a way that was dropped, since it leads out of the
    /// code: the branch is then cut off.
    Branch {
        taken: Option<u64>,
        fall: Option<u64>,
    },
    /// An unconditional jump to a known address.
    Jump {
        target: u64,
    },
    /// A call of a known address; `fall` is the address it returns to, if that is code.
    Call {
        target: u64,
        fall: Option<u64>,
    },
    /// A call through a register; `fall` is the address it returns to, if that is code.
    IndirectCall {
        fall: Option<u64>,
    },
    /// A jump through a table of `entries` kept targets. `full` says that the table's bound allows
    /// no more than these, and `is_open` that no bound test was found before the jump.
    Table {
        entries: u32,
        full: bool,
        is_open: bool,
    },
    /// A return from the function.
    Return,
    /// A jump whose target is not known.
    Unknown,
    /// Execution does not go on.
    Stop,
}

/// A program: a finite map from the addresses of its instructions to their length, their flow and
/// their kept targets: those of a table jump, and the landing pad of a call. The map is lawful: see
/// `specs/Program/Instructions.antt`.
pub trait Chains: Sync {
    ghost use Rattle.std.specs.Prelude.{◌≡◌, ◌↔◌, IsTrue, IsSome, Some, IfOk, option_to_list};
    ghost use Rattle.cfg_model.specs.Program.Instructions.{InstructionMap, IsLawful};
    ghost use Rattle.cfg_model.specs.Program.Instructions.{flow_at, length_at, targets_at};
    ghost use Rattle.cfg_model.specs.Program.Chain.{IsTerminatorOf};
    ghost use Rattle.cfg_model.specs.Program.Successors.{MayLand};

    /// The instructions, by address.
    ghost map: { Self → InstructionMap };

    /// Whether an instruction stands at `a`.
    fn has(&self, a: u64) -> bool
        ensures has { IsTrue result ↔ IsSome (map self.now a) }
        ensures lawful { IsLawful (map self.now) };

    /// The flow of the instruction at `a`.
    fn flow(&self, a: u64) -> Flow
        requires { IsSome (map self.now a) }
        ensures flow { flow_at (map self.now) a ≡ Some result }
        ensures lawful { IsLawful (map self.now) };

    /// The length of the instruction at `a`, in bytes: 2 or 4.
    fn length(&self, a: u64) -> u8
        requires { IsSome (map self.now a) }
        ensures length { length_at (map self.now) a ≡ Some result }
        ensures lawful { IsLawful (map self.now) };

    /// The kept targets of the instruction at `a`: of a table jump those of the table, in its order;
    /// of a call its landing pad, if it has one; else none. [`Memory`] if memory ran out.
    fn targets(&self, a: u64) -> Result<Vec<u64>, Memory>
        requires { IsSome (map self.now a) }
        ensures targets { IfOk result (λ v. v.items ≡ targets_at (map self.now) a) }
        ensures lawful { IsLawful (map self.now) };

    /// The landing pad of the call at `a`, if it has one: its only kept target.
    fn landing(&self, a: u64) -> Option<u64>
        requires { MayLand (map self.now) a }
        ensures landing { targets_at (map self.now) a ≡ option_to_list result }
        ensures lawful { IsLawful (map self.now) };

    /// The terminator of the chain of `a`, its last address.
    /// Time: O(length of the chain) by default, since it walks the chain.
    fn term(&self, a: u64) -> u64
        requires { IsSome (map self.now a) }
        ensures term { IsTerminatorOf (map self.now) a result }
        ensures lawful { IsLawful (map self.now) }
    {
        let mut k = a;
        while let Flow::Straight { next } = self.flow(k) {
            k = next;
        }
        k
    }
}
