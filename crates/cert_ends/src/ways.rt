//! Where an end leads, and in which ends of chains.

ghost use Rattle.std.specs.Prelude.{◌≡◌, ◌↔◌, ◌++◌, IsSome, IsTrue, OnOk, Some, option_to_list};
ghost use Rattle.cfg_model.specs.Program.Instructions.{IsLawful, flow_at};
ghost use Rattle.cfg_model.specs.Program.Successors.{LeavesFunction, successors_of};
ghost use Rattle.cert_laws.specs.Ways.{EndsIn, ReturnsByBoth};
ghost use Rattle.cert_ends.specs.Places.{AreNumbered};
ghost use Rattle.cert_ends.specs.Inner.{IsReturnUnder};

use crate::numbered_returns::NumberedReturns;
use cfg_model::{Chains, Flow, Memory};
use numbered::Numbered;

/// Puts the successors of the instruction at `k`, whose flow this is, in place of the items of
/// `successors`.
pub fn find_successors<C: Chains>(
    code: &C,
    k: u64,
    flow: Flow,
    successors: &mut Vec<u64>,
) -> Result<(), Memory>
    requires { flow_at (C.map code.now) k ≡ Some flow }
    ensures { OnOk result (successors.new.items ≡ successors_of (C.map code.now) k) }
{
    match flow {
        Flow::Straight { next } => put(Some(next), None, successors),
        Flow::Branch { taken, fall } => put(taken, fall, successors),
        Flow::Jump { target } => put(Some(target), None, successors),
        Flow::IndirectCall { fall } => put(fall, code.landing(k), successors),
        Flow::Call { .. } => put(None, code.landing(k), successors),
        Flow::Table { .. } => {
            *successors = code.targets(k)?;
            Ok(())
        }
        Flow::Return | Flow::Unknown | Flow::Stop => put(None, None, successors),
    }
}

/// Puts these addresses in place of the items of `list`.
fn put(first: Option<u64>, second: Option<u64>, list: &mut Vec<u64>) -> Result<(), Memory>
    ensures { OnOk result (list.new.items ≡ option_to_list first ++ option_to_list second) }
{
    list.clear();
    add(first, list)?;
    add(second, list)
}

/// Adds this address, if there is one.
fn add(address: Option<u64>, list: &mut Vec<u64>) -> Result<(), Memory>
    ensures { OnOk result (list.new.items ≡ list.old.items ++ option_to_list address) }
{
    if let Some(address) = address {
        list.push(address)?;
    }
    Ok(())
}

/// Whether an instruction of this flow returns by itself.
pub fn returns_by_itself(flow: Flow) -> bool
    ensures { IsTrue result ↔ LeavesFunction (Some flow) }
{
    match flow {
        Flow::Branch { taken, fall } => taken.is_none() || fall.is_none(),
        Flow::Return | Flow::Unknown => true,
        _ => false,
    }
}

/// Whether the terminator at `k` is listed as one that returns, with a rank below this one, if one
/// is given.
pub(crate) fn is_return_under<C: Numbered>(
    code: &C,
    returns: &NumberedReturns<'_>,
    below: Option<u64>,
    k: u64,
) -> bool
    requires numbered { AreNumbered (C.map code.now) (C.number code.now) returns.now }
    requires stands { IsSome (C.map code.now k) }
    ensures { IsTrue result ↔ IsReturnUnder returns.now.lines.now below k }
{
    match below {
        Some(rank) => returns.has_below(code, rank, k),
        None => returns.has(code, k),
    }
}

/// Whether the chain of `a` ends in one of these returns, with a rank below this one, if one is
/// given.
pub(crate) fn ends_in<C: Numbered>(
    code: &C,
    returns: &NumberedReturns<'_>,
    below: Option<u64>,
    a: u64,
) -> bool
    requires stands { IsSome (C.map code.now a) }
    requires numbered { AreNumbered (C.map code.now) (C.number code.now) returns.now }
    ensures { IsTrue result
        ↔ EndsIn (C.map code.now) (IsReturnUnder returns.now.lines.now below) a }
{
    is_return_under(code, returns, below, code.term(a))
}

/// Whether the instruction at `k`, whose flow this is, is a call that returns through both its
/// target and its fall: both end in these returns, with ranks below this one, if one is given.
pub(crate) fn returns_by_both<C: Numbered>(
    code: &C,
    k: u64,
    flow: Flow,
    returns: &NumberedReturns<'_>,
    below: Option<u64>,
) -> bool
    requires flow { flow_at (C.map code.now) k ≡ Some flow }
    requires lawful { IsLawful (C.map code.now) }
    requires numbered { AreNumbered (C.map code.now) (C.number code.now) returns.now }
    ensures { IsTrue result
        ↔ ReturnsByBoth (C.map code.now) (IsReturnUnder returns.now.lines.now below) k }
{
    match flow {
        Flow::Call {
            target,
            fall: Some(fall),
        } => ends_in(code, returns, below, target) && ends_in(code, returns, below, fall),
        _ => false,
    }
}
