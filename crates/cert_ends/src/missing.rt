//! Whether a return is missing, and whether one is listed that is no end.

ghost use Rattle.std.specs.Prelude.{◌≡◌, ◌↔◌, All, Contains, IfOk, IsSome, IsTrue};
ghost use Rattle.std.specs.List.Sorted.{IsStrictlyIncreasing};
ghost use Rattle.cert_laws.specs.Lines.{IsReturn};
ghost use Rattle.cert_laws.specs.Valid.{ReturnsAreClosed};
ghost use Rattle.cert_laws.specs.Ways.{EndsIn};
ghost use Rattle.cert_ends.specs.Places.{AreNumbered};
ghost use Rattle.cert_ends.specs.Ends.{AreEnds, ReturnsEnd};
ghost use Rattle.cert_ends.specs.Inner.{ReturnIsListed};

use crate::numbered_returns::NumberedReturns;
use crate::ways::{ends_in, find_successors, returns_by_both, returns_by_itself};
use cert_text::Part;
use cfg_model::{Chains, Memory};
use numbered::Numbered;
use std::alloc::Global;

/// Whether each listed return is one of the ends of the listed leaders. The program itself is not
/// read, since its ends tell all.
///
/// Time: O(returns · log ends).
pub fn returns_end<C: Chains>(_code: &C, part: &Part, ends: &[u64]) -> bool
    requires { AreEnds (C.map _code.now) part.now.leads ends.now }
    ensures { IsTrue result ↔ ReturnsEnd (C.map _code.now) part.now }
{
    for line in part.returns.as_slice() {
        if !is_end(ends, line.at) {
            return false;
        }
    }
    true
}

/// Whether `k` is one of these ends.
fn is_end(ends: &[u64], k: u64) -> bool
    requires { IsStrictlyIncreasing ends.now }
    ensures { IsTrue result ↔ Contains ends.now k }
{
    ends.binary_search(&k).is_ok()
}

/// Whether no return is missing among the ends of the listed leaders, for which there is a reason by
/// listed returns. [`Memory`] if memory ran out.
///
/// Time: a look-up or two for each of these ends, and for each address to which an unlisted one
/// leads. Memory: the targets of one jump table.
pub fn returns_are_closed<C: Numbered>(
    alloc: Global,
    code: &C,
    part: &Part,
    returns: &NumberedReturns<'_>,
    ends: &[u64],
) -> Result<bool, Memory>
    requires numbered { AreNumbered (C.map code.now) (C.number code.now) returns.now }
    requires returns { returns.now.lines.now ≡ part.now.returns }
    requires ends { AreEnds (C.map code.now) part.now.leads ends.now }
    ensures { IfOk result (λ b. IsTrue b ↔ ReturnsAreClosed (C.map code.now) part.now) }
{
    let mut successors = Vec::new(alloc);
    for k in ends {
        if !is_listed_if_it_returns(code, returns, *k, &mut successors)? {
            return Ok(false);
        }
    }
    Ok(true)
}

/// Whether the instruction at `k` is among these returns, or has no reason to return by them.
fn is_listed_if_it_returns<C: Numbered>(
    code: &C,
    returns: &NumberedReturns<'_>,
    k: u64,
    successors: &mut Vec<u64>,
) -> Result<bool, Memory>
    requires stands { IsSome (C.map code.now k) }
    requires numbered { AreNumbered (C.map code.now) (C.number code.now) returns.now }
    ensures { IfOk result (λ b. IsTrue b ↔ ReturnIsListed (C.map code.now) returns.now.lines.now k) }
{
    if returns.has(code, k) {
        return Ok(true);
    }
    let flow = code.flow(k);
    if returns_by_itself(flow) || returns_by_both(code, k, flow, returns, None) {
        return Ok(false);
    }
    find_successors(code, k, flow, successors)?;
    Ok(none_ends_in(code, returns, successors.as_slice()))
}

/// Whether the chain of none of these addresses ends in one of these returns.
fn none_ends_in<C: Numbered>(code: &C, returns: &NumberedReturns<'_>, addresses: &[u64]) -> bool
    requires stand { All (λ a. IsSome (C.map code.now a)) addresses.now }
    requires numbered { AreNumbered (C.map code.now) (C.number code.now) returns.now }
    ensures { IsTrue result
        ↔ All (λ a. ¬ EndsIn (C.map code.now) (IsReturn returns.now.lines.now) a) addresses.now }
{
    for a in addresses {
        if ends_in(code, returns, None, *a) {
            return false;
        }
    }
    true
}
