//! The blocks of the leaders.

ghost use Rattle.std.specs.Prelude.{◌≡◌, ◌↔◌, ◌<◌, IfOk, IsSome, IsTrue, MatchOption, length};
ghost use Rattle.cfg_model.specs.Program.Instructions.{IsLawful};
ghost use Rattle.cfg_model.specs.Program.Chain.{GoesOnTo, IsTerminator};
ghost use Rattle.cert_ends.specs.Places.{AreLeads, IsPlace};
ghost use Rattle.cert_make.specs.Inner.Runs.{AreRuns, IsRun};

use cert_ends::place_from;
use cert_text::LeadLine;
use cfg_model::{Chains, Flow, Memory};
use std::alloc::Global;

/// The block of a leader, which is cut before the next leader on its chain.
#[derive(Clone, Copy)]
pub(crate) struct Run {
    /// The address of its last instruction.
    pub(crate) last: u64,
    /// The place of the leader that stands right after it, if control goes on to that. Otherwise
    /// the last instruction is a terminator.
    pub(crate) into: Option<usize>,
}

/// The blocks of these leaders, by their places. [`Memory`] if memory ran out.
///
/// Time: the instructions of these blocks, which share none where the leaders are all of a program.
/// Nothing is decoded. Memory: 24 bytes for each leader.
pub(crate) fn runs_of<C: Chains>(
    alloc: Global,
    code: &C,
    lines: &[LeadLine],
) -> Result<Vec<Run>, Memory>
    requires leads { AreLeads (C.map code.now) lines.now }
    ensures { IfOk result (λ v. AreRuns (C.map code.now) lines.now v.items) }
{
    let mut runs = Vec::new(alloc);
    for i in 0..lines.len() {
        let run = walk(code, lines, i);
        runs.push(run)?;
    }
    Ok(runs)
}

/// The block of the leader at place `i`.
fn walk<C: Chains>(code: &C, lines: &[LeadLine], i: usize) -> Run
    requires leads { AreLeads (C.map code.now) lines.now }
    requires within { i < length lines.now }
    ensures { IsRun (C.map code.now) lines.now i result }
{
    let mut at = lines[i].at;
    let k = code.term(at);
    let mut ahead = i + 1;
    loop {
        let behind = next_of(code, at, k);
        let next = match behind {
            Some(next) => next,
            None => {
                return Run {
                    last: at,
                    into: None,
                };
            }
        };
        ahead = place_from(lines, ahead, next);
        if stands_at(lines, ahead, next) {
            return Run {
                last: at,
                into: Some(ahead),
            };
        }
        at = next;
    }
}

/// The address after the instruction at `a`, if control goes straight on to it. The terminator `k` is
/// not decoded.
fn next_of<C: Chains>(code: &C, a: u64, k: u64) -> Option<u64>
    requires stands { IsSome (C.map code.now a) }
    requires ends { IsTerminator (C.map code.now) k }
    ensures { MatchOption result (IsTerminator (C.map code.now) a)
        (GoesOnTo (C.map code.now) a) }
{
    if a == k {
        return None;
    }
    match code.flow(a) {
        Flow::Straight { next } => Some(next),
        _ => None,
    }
}

/// Whether the line at place `i` is that of the leader `a`.
fn stands_at(lines: &[LeadLine], i: usize, a: u64) -> bool
    ensures { IsTrue result ↔ IsPlace lines.now i a }
{
    i < lines.len() && lines[i].at == a
}

/// A program is lawful: asking it about any address says so.
pub(crate) fn know_laws<C: Chains>(code: &C)
    ensures { IsLawful (C.map code.now) }
{
    code.has(0);
}
