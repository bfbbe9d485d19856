//! What the code of a job tells of it.

ghost use Rattle.std.specs.Prelude.{◌≡◌, ◌↔◌, IfOk, IfErr, IsSome, IsTrue, Some, option_to_list};
ghost use Rattle.cfg_model.specs.Program.Instructions.{IsLawful, flow_at, targets_at};
ghost use Rattle.cfg_model.specs.Program.Chain.{IsTerminatorOf, OnChain};
ghost use Rattle.cfg_model.specs.Program.Successors.{MayLand};

use cfg_model::chain::on_chain;
use cfg_model::{Chains, Flow, term};
use core_state::{Job, PlaceEnd};

/// The code tells that its map is lawful, by whatever it answers.
pub(crate) fn ask<J: Job, C: Chains>(code: &C, a: u64)
    requires { C.map code.now ≡ J.map }
    ensures { IsLawful J.map }
{
    code.has(a);
}

/// The terminator of the chain of `s`.
pub(crate) fn end_of<J: Job, C: Chains>(code: &C, s: u64) -> u64
    requires code { C.map code.now ≡ J.map }
    requires stands { IsSome (J.map s) }
    ensures { IsTerminatorOf J.map s result }
{
    term(code, s)
}

/// Whether `p` is on the chain of `x`.
pub(crate) fn leads<J: Job, C: Chains>(code: &C, x: u64, p: u64) -> bool
    requires code { C.map code.now ≡ J.map }
    requires stands { IsSome (J.map x) }
    ensures { IsTrue result ↔ OnChain J.map x p }
{
    on_chain(code, x, p)
}

/// The flow of the instruction at `k`.
#[inline(always)]
pub(crate) fn flow_of<J: Job, C: Chains>(code: &C, k: u64) -> Flow
    requires code { C.map code.now ≡ J.map }
    requires stands { IsSome (J.map k) }
    ensures { flow_at J.map k ≡ Some result }
{
    code.flow(k)
}

/// The landing pad of the call at `k`, if it has one.
pub(crate) fn pad_of<J: Job, C: Chains>(code: &C, k: u64) -> Option<u64>
    requires code { C.map code.now ≡ J.map }
    requires calls { MayLand J.map k }
    ensures { targets_at J.map k ≡ option_to_list result }
{
    code.landing(k)
}

/// The kept targets of the table jump at `k`, in the order of the table. The only refusal is want
/// of memory.
pub(crate) fn targets_of<J: Job, C: Chains>(code: &C, k: u64) -> Result<Vec<u64>, PlaceEnd>
    requires code { C.map code.now ≡ J.map }
    requires stands { IsSome (J.map k) }
    ensures targets { IfOk result (λ v. v.items ≡ targets_at J.map k) }
    ensures memory { IfErr result (λ end. end ≡ PlaceEnd.Memory) }
{
    match code.targets(k) {
        Ok(targets) => Ok(targets),
        Err(_) => Err(PlaceEnd::Memory),
    }
}
