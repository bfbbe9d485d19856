//! The lines of the terminators that return.
//!
//! A table of lines is settled if each has the least rank and the first reason that its own lines
//! allow. A table of all terminators that return is settled only if its ranks and reasons are the
//! canonical ones, whatever it was before: so any table serves to begin with, and one step shows
//! whether it is right.

ghost use Rattle.std.specs.Prelude.{◌≡◌, ◌≢◌, ◌⊎◌, ◌<◌, ◌≤◌, ◌-◌, ◌^◌, ◌↔◌, ℕ, List, All, Contains};
ghost use Rattle.std.specs.Prelude.{IfOk, IfSome, IsSome, IsTrue, MatchOption, Some, length, map};
ghost use Rattle.std.specs.List.{AllZip};
ghost use Rattle.std.specs.List.Sorted.{IsStrictlyIncreasing};
ghost use Rattle.cfg_model.specs.Program.Instructions.{IsLawful, flow_at};
ghost use Rattle.cfg_model.specs.Program.Chain.{IsTerminator};
ghost use Rattle.cfg_model.specs.Program.Successors.{IsCall, LeavesFunction, successors_of};
ghost use Rattle.cert_ends.specs.Places.{AreNumbered, ReturnsRise};
ghost use Rattle.cert_text.specs.declared.lines.ReturnLine.{ReturnLine};
ghost use Rattle.cert_make.specs.Canonical.{IsReturnLine, ListsLines, ReturnsReached};
ghost use Rattle.cert_make.specs.Inner.Returns.{CallHasNone, CallHasRank, EndHasRank};
ghost use Rattle.cert_make.specs.Inner.Returns.{EndHasNone, IsNearest, IsNotAfter};
ghost use Rattle.cert_make.specs.Inner.Returns.{IsSettledReturn, IsSettledFor, AreSettledBy};
ghost use Rattle.cert_make.specs.Inner.Returns.{AreFlows, HasNoReason, HaveSameRanks, IsNextReturn};
ghost use Rattle.cert_make.specs.Inner.Returns.{ListAllReturns};

use crate::levels::Levels;
use crate::return_ranks::return_ranks;
use crate::runs::know_laws;
use cert_ends::{NumberedReturns, find_successors, returns_by_itself};
use cert_text::{ReturnLine, ReturnWhy};
use cfg_model::{Chains, Flow, Memory};
use numbered::Numbered;
use std::alloc::Global;

/// A successor, and the rank of the end of its chain.
#[derive(Clone, Copy)]
struct Way {
    /// The rank of the terminator.
    rank: u64,
    /// The address of the successor.
    to: u64,
}

/// The lines of these terminators. If they are all that return, these are the lines of the canonical
/// part. [`Memory`] if memory ran out.
///
/// Time: each of these terminators is decoded once; O(successors of these terminators), and this
/// again for each rank that the table does not begin with rightly.
/// Memory: 64 bytes for each terminator, twice, 16 for each of these successors, and four for each
/// number.
pub fn return_lines<C: Numbered>(
    alloc: Global,
    code: &C,
    returns: &[u64],
) -> Result<Vec<ReturnLine>, Memory>
    requires rising { IsStrictlyIncreasing returns.now }
    requires terminators { All (IsTerminator (C.map code.now)) returns.now }
    ensures { IfOk result (λ v. (seeds : List ℕ)
        → ((k : ℕ) → Contains returns.now k ↔ ReturnsReached (C.map code.now) seeds k)
        → ListsLines (λ l. l.at) (ReturnsReached (C.map code.now) seeds) (IsReturnLine (C.map code.now)) v.items) }
{
    let plain = first_lines(alloc, returns)?;
    let flows = flows_of(alloc, code, plain.as_slice())?;
    let start = with_ranks(alloc, code, plain.as_slice(), flows.as_slice())?;
    let lines = settled_returns(alloc, code, flows.as_slice(), start)?;
    Ok(lines)
}

/// A line for each of these terminators, to begin with.
fn first_lines(alloc: Global, returns: &[u64]) -> Result<Vec<ReturnLine>, Memory>
    ensures { IfOk result (λ v. map (λ (l : ReturnLine). l.at) v.items ≡ returns.now) }
{
    let mut lines = Vec::new(alloc);
    for k in returns {
        lines.push(ReturnLine {
            at: *k,
            rank: 0,
            why: ReturnWhy::Itself,
        })?;
    }
    Ok(lines)
}

/// The flows of the terminators of these lines.
fn flows_of<C: Chains>(alloc: Global, code: &C, lines: &[ReturnLine]) -> Result<Vec<Flow>, Memory>
    requires stand { All (λ l. IsSome (C.map code.now l.at)) lines.now }
    ensures { IfOk result (λ v. AreFlows (C.map code.now) lines.now v.items) }
{
    let mut flows = Vec::new(alloc);
    for i in 0..lines.len() {
        flows.push(code.flow(lines[i].at))?;
    }
    Ok(flows)
}

/// The same lines with ranks by levels, which are meant to be the right ones.
fn with_ranks<C: Numbered>(
    alloc: Global,
    code: &C,
    lines: &[ReturnLine],
    flows: &[Flow],
) -> Result<Vec<ReturnLine>, Memory>
    requires rising { ReturnsRise lines.now }
    requires stand { All (λ l. IsSome (C.map code.now l.at)) lines.now }
    requires flows { AreFlows (C.map code.now) lines.now flows.now }
    ensures same { IfOk result (λ v. map (λ (l : ReturnLine). l.at) v.items
        ≡ map (λ (l : ReturnLine). l.at) lines.now) }
    ensures ranks { IfOk result (λ v. All (λ (l : ReturnLine). l.rank < 2 ^ 32) v.items) }
{
    let returns = NumberedReturns::new(alloc, code, lines)?;
    let ranks = return_ranks(alloc, code, lines, flows, &returns)?;
    ranked(alloc, lines, &ranks)
}

/// The same lines with these ranks.
fn ranked(alloc: Global, lines: &[ReturnLine], ranks: &Levels) -> Result<Vec<ReturnLine>, Memory>
    ensures same { IfOk result (λ v. map (λ (l : ReturnLine). l.at) v.items
        ≡ map (λ (l : ReturnLine). l.at) lines.now) }
    ensures ranks { IfOk result (λ v. All (λ (l : ReturnLine). l.rank < 2 ^ 32) v.items) }
{
    let mut next = Vec::new(alloc);
    for (i, line) in lines.iter().enumerate() {
        next.push(ReturnLine {
            at: line.at,
            rank: u64::from(ranks.rank(i)),
            why: line.why,
        })?;
    }
    Ok(next)
}

/// The settled table of these terminators, if they are all that return; `flows` are their flows.
/// [`Memory`] if memory ran out.
///
/// `start` is the table that it begins with: the settled one at best, which takes one step.
/// Time: the targets of all these terminators, for each step.
/// Memory: 40 bytes for each terminator, twice, and four for each number.
fn settled_returns<C: Numbered>(
    alloc: Global,
    code: &C,
    flows: &[Flow],
    start: Vec<ReturnLine>,
) -> Result<Vec<ReturnLine>, Memory>
    requires rising { ReturnsRise start.items }
    requires stand { All (λ l. IsSome (C.map code.now l.at)) start.items }
    requires ranks { All (λ (l : ReturnLine). l.rank < 2 ^ 32) start.items }
    requires flows { AreFlows (C.map code.now) start.items flows.now }
    ensures { IfOk result (λ v. (seeds : List ℕ)
        → ListAllReturns (C.map code.now) seeds start.items
        → AreSettledBy (C.map code.now) v.items start.items v.items) }
{
    let mut lines = start;
    for _step in 0..lines.len() {
        let next = step(alloc, code, flows, lines.as_slice())?;
        if have_same_ranks(next.as_slice(), lines.as_slice()) {
            return Ok(next);
        }
        lines = next;
    }
    // Each step settled one rank more, and there are no more ranks than lines: only the reasons may
    // still be those by other ranks.
    step(alloc, code, flows, lines.as_slice())
}

/// The lines of the same terminators by these lines. [`Memory`] if memory ran out.
fn step<C: Numbered>(
    alloc: Global,
    code: &C,
    flows: &[Flow],
    lines: &[ReturnLine],
) -> Result<Vec<ReturnLine>, Memory>
    requires rising { ReturnsRise lines.now }
    requires stand { All (λ l. IsSome (C.map code.now l.at)) lines.now }
    requires ranks { All (λ (l : ReturnLine). l.rank < 2 ^ 64 - 1) lines.now }
    requires flows { AreFlows (C.map code.now) lines.now flows.now }
    ensures { IfOk result
        (λ v. AllZip (IsNextReturn (C.map code.now) lines.now) lines.now v.items) }
{
    know_laws(code);
    let returns = NumberedReturns::new(alloc, code, lines)?;
    let mut next = Vec::new(alloc);
    let mut successors = Vec::new(alloc);
    for (i, line) in lines.iter().enumerate() {
        let settled = settle(code, &returns, line.at, flows[i], &mut successors)?;
        // All have a reason by the others if they are all that return.
        next.push(settled.unwrap_or(*line))?;
    }
    Ok(next)
}

/// Whether the lines of two tables have the same ranks, one by one.
fn have_same_ranks(one: &[ReturnLine], other: &[ReturnLine]) -> bool
    requires { length one.now ≤ length other.now }
    ensures { IsTrue result → HaveSameRanks one.now other.now }
{
    for (i, line) in one.iter().enumerate() {
        if line.rank != other[i].rank {
            return false;
        }
    }
    true
}

/// The line of the terminator at `k` by these lines; `None` exactly if there is no reason by them.
/// [`Memory`] if memory ran out.
fn settle<C: Numbered>(
    code: &C,
    returns: &NumberedReturns<'_>,
    k: u64,
    flow: Flow,
    successors: &mut Vec<u64>,
) -> Result<Option<ReturnLine>, Memory>
    requires lawful { IsLawful (C.map code.now) }
    requires flow { flow_at (C.map code.now) k ≡ Some flow }
    requires numbered { AreNumbered (C.map code.now) (C.number code.now) returns.now }
    requires ranks { All (λ (l : ReturnLine). l.rank < 2 ^ 64 - 1) returns.now.lines.now }
    ensures { IfOk result (λ o. MatchOption o
        (HasNoReason (C.map code.now) returns.now.lines.now k)
        (IsSettledFor (C.map code.now) returns.now.lines.now k)) }
{
    if returns_by_itself(flow) {
        return Ok(Some(ReturnLine {
            at: k,
            rank: 0,
            why: ReturnWhy::Itself,
        }));
    }
    find_successors(code, k, flow, successors)?;
    match both_ways(code, returns, k, flow) {
        Some(rank) => Ok(Some(by_call(code, returns, k, successors.as_slice(), rank))),
        None => Ok(by_successors(code, returns, k, successors.as_slice())),
    }
}

/// The greater of the ranks of both ways of the terminator at `k`: that of the target and that of the
/// fall, if it is a call and both return by these lines.
fn both_ways<C: Numbered>(
    code: &C,
    returns: &NumberedReturns<'_>,
    k: u64,
    flow: Flow,
) -> Option<u64>
    requires lawful { IsLawful (C.map code.now) }
    requires flow { flow_at (C.map code.now) k ≡ Some flow }
    requires numbered { AreNumbered (C.map code.now) (C.number code.now) returns.now }
    requires ranks { All (λ (l : ReturnLine). l.rank < 2 ^ 64 - 1) returns.now.lines.now }
    ensures exact { MatchOption result (CallHasNone (C.map code.now) returns.now.lines.now k)
        (λ rank. CallHasRank (C.map code.now) returns.now.lines.now rank k) }
    ensures low { IfSome result (λ rank. rank < 2 ^ 64 - 1) }
{
    match flow {
        Flow::Call { target, fall } => call_rank(code, returns, k, target, fall),
        _ => None,
    }
}

/// The greater of the ranks of the target and of the fall of a call, if both return by these lines.
fn call_rank<C: Numbered>(
    code: &C,
    returns: &NumberedReturns<'_>,
    k: u64,
    target: u64,
    fall: Option<u64>,
) -> Option<u64>
    requires call { IsCall (C.map code.now) k target fall }
    requires lawful { IsLawful (C.map code.now) }
    requires numbered { AreNumbered (C.map code.now) (C.number code.now) returns.now }
    requires ranks { All (λ (l : ReturnLine). l.rank < 2 ^ 64 - 1) returns.now.lines.now }
    ensures exact { MatchOption result (CallHasNone (C.map code.now) returns.now.lines.now k)
        (λ rank. CallHasRank (C.map code.now) returns.now.lines.now rank k) }
    ensures low { IfSome result (λ rank. rank < 2 ^ 64 - 1) }
{
    let fall = fall?;
    let one = rank_at(code, returns, target)?;
    let other = rank_at(code, returns, fall)?;
    Some(one.max(other))
}

/// The line of a call that returns through both its ways, of which this is the greater rank; or by its
/// landing pad, if that has no greater one.
fn by_call<C: Numbered>(
    code: &C,
    returns: &NumberedReturns<'_>,
    k: u64,
    successors: &[u64],
    rank: u64,
) -> ReturnLine
    requires successors { successors.now ≡ successors_of (C.map code.now) k }
    requires stays { ¬ LeavesFunction (flow_at (C.map code.now) k) }
    requires stand { All (λ a. IsSome (C.map code.now a)) successors.now }
    requires numbered { AreNumbered (C.map code.now) (C.number code.now) returns.now }
    requires both { CallHasRank (C.map code.now) returns.now.lines.now rank k }
    requires low { rank < 2 ^ 64 - 1 }
    ensures { IsSettledFor (C.map code.now) returns.now.lines.now k result }
{
    match nearest(code, returns, successors) {
        Some(way) => {
            if way.rank <= rank {
                line_of(k, way.rank + 1, ReturnWhy::To { target: way.to })
            } else {
                line_of(k, rank + 1, ReturnWhy::CallBoth)
            }
        }
        None => line_of(k, rank + 1, ReturnWhy::CallBoth),
    }
}

/// The line of the terminator at `k` with this rank and this reason.
fn line_of(k: u64, rank: u64, why: ReturnWhy) -> ReturnLine
    ensures { result ≡ record { at = k; rank = rank; why = why } }
{
    ReturnLine { at: k, rank, why }
}

/// The line of a terminator that does not return as a call, by its successors; `None` exactly if none
/// of them returns by these lines.
fn by_successors<C: Numbered>(
    code: &C,
    returns: &NumberedReturns<'_>,
    k: u64,
    successors: &[u64],
) -> Option<ReturnLine>
    requires successors { successors.now ≡ successors_of (C.map code.now) k }
    requires stays { ¬ LeavesFunction (flow_at (C.map code.now) k) }
    requires no_call { CallHasNone (C.map code.now) returns.now.lines.now k }
    requires stand { All (λ a. IsSome (C.map code.now a)) successors.now }
    requires numbered { AreNumbered (C.map code.now) (C.number code.now) returns.now }
    requires ranks { All (λ (l : ReturnLine). l.rank < 2 ^ 64 - 1) returns.now.lines.now }
    ensures { MatchOption result (HasNoReason (C.map code.now) returns.now.lines.now k)
        (IsSettledFor (C.map code.now) returns.now.lines.now k) }
{
    let way = nearest(code, returns, successors)?;
    Some(ReturnLine {
        at: k,
        rank: way.rank + 1,
        why: ReturnWhy::To { target: way.to },
    })
}

/// The first of the successors whose chains end in a line of least rank.
fn nearest<C: Numbered>(code: &C, returns: &NumberedReturns<'_>, successors: &[u64]) -> Option<Way>
    requires stand { All (λ a. IsSome (C.map code.now a)) successors.now }
    requires numbered { AreNumbered (C.map code.now) (C.number code.now) returns.now }
    ensures { MatchOption result (All (EndHasNone (C.map code.now) returns.now.lines.now) successors.now)
        (λ w. IsNearest (C.map code.now) returns.now.lines.now successors.now w.rank w.to) }
{
    let mut nearest: Option<Way> = None;
    for to in successors {
        if let Some(rank) = rank_at(code, returns, *to) {
            nearest = Some(nearer(nearest, Way { rank, to: *to }));
        }
    }
    nearest
}

/// The one of the two ways with the lower rank, or with the lower address if those are equal.
fn nearer(one: Option<Way>, other: Way) -> Way
    ensures one_of_both { (result ≡ other) ⊎ (one ≡ Some result) }
    ensures other { IsNotAfter result.rank result.to other.rank other.to }
    ensures one { IfSome one (λ w. IsNotAfter result.rank result.to w.rank w.to) }
{
    match one {
        Some(one) if one.rank < other.rank => one,
        Some(one) if one.rank == other.rank && one.to <= other.to => one,
        _ => other,
    }
}

/// The rank of the line at which the chain of `a` ends, if there is one.
fn rank_at<C: Numbered>(code: &C, returns: &NumberedReturns<'_>, a: u64) -> Option<u64>
    requires stands { IsSome (C.map code.now a) }
    requires numbered { AreNumbered (C.map code.now) (C.number code.now) returns.now }
    ensures { MatchOption result (EndHasNone (C.map code.now) returns.now.lines.now a)
        (λ rank. EndHasRank (C.map code.now) returns.now.lines.now rank a) }
{
    match returns.line(code, code.term(a)) {
        Some(line) => Some(line.rank),
        None => None,
    }
}
