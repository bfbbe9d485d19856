//! Whether the listed returns have their reasons.

ghost use Rattle.std.specs.Prelude.{◌≡◌, ◌↔◌, All, Contains, IfOk, IsSome, IsTrue, Some};
ghost use Rattle.cfg_model.specs.Program.Instructions.{IsLawful};
ghost use Rattle.cfg_model.specs.Program.Successors.{IsSuccessor};
ghost use Rattle.cert_laws.specs.Lines.{IsReturnBelow};
ghost use Rattle.cert_laws.specs.Valid.{AreInCode};
ghost use Rattle.cert_laws.specs.Ways.{EndsIn, ReturnsBy};
ghost use Rattle.cert_ends.specs.Places.{AreNumbered};
ghost use Rattle.cert_ends.specs.Ends.{ReturnsHaveReasons};

use crate::numbered_returns::NumberedReturns;
use crate::ways::{ends_in, find_successors, returns_by_both, returns_by_itself};
use cert_text::{Part, ReturnLine, ReturnWhy};
use cfg_model::Memory;
use numbered::Numbered;
use std::alloc::Global;

/// Whether each listed return has its reason, by returns of lower rank. [`Memory`] if memory ran
/// out.
///
/// Time: a look-up or two for each return, and looking through the targets of each jump table among
/// them once. Memory: the targets of one jump table.
pub fn returns_have_reasons<C: Numbered>(
    alloc: Global,
    code: &C,
    part: &Part,
    returns: &NumberedReturns<'_>,
) -> Result<bool, Memory>
    requires numbered { AreNumbered (C.map code.now) (C.number code.now) returns.now }
    requires returns { returns.now.lines.now ≡ part.now.returns }
    requires in_code { AreInCode (C.map code.now) part.now }
    ensures { IfOk result (λ b. IsTrue b ↔ ReturnsHaveReasons (C.map code.now) part.now) }
{
    let lines = part.returns.as_slice();
    let mut successors = Vec::new(alloc);
    for line in lines {
        if !has_reason(code, returns, *line, &mut successors)? {
            return Ok(false);
        }
    }
    Ok(true)
}

/// Whether this return has its reason.
fn has_reason<C: Numbered>(
    code: &C,
    returns: &NumberedReturns<'_>,
    line: ReturnLine,
    successors: &mut Vec<u64>,
) -> Result<bool, Memory>
    requires stands { IsSome (C.map code.now line.at) }
    requires numbered { AreNumbered (C.map code.now) (C.number code.now) returns.now }
    ensures { IfOk result (λ b. IsTrue b
        ↔ ReturnsBy (C.map code.now) (IsReturnBelow returns.now.lines.now line.rank)
        line.at line.why) }
{
    let flow = code.flow(line.at);
    match line.why {
        ReturnWhy::Itself => Ok(returns_by_itself(flow)),
        ReturnWhy::To { target } => {
            find_successors(code, line.at, flow, successors)?;
            let leads_there = is_among(successors.as_slice(), target);
            Ok(leads_there && ends_in(code, returns, Some(line.rank), target))
        }
        ReturnWhy::CallBoth => {
            Ok(returns_by_both(code, line.at, flow, returns, Some(line.rank)))
        }
    }
}

/// Whether `a` is one of these addresses.
fn is_among(addresses: &[u64], a: u64) -> bool
    ensures { IsTrue result ↔ Contains addresses.now a }
{
    addresses.contains(&a)
}
