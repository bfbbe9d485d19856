//! Worked certificates, and what the deciders of ends say where one thing of them is spoilt.

ghost use Rattle.std.specs.Prelude.{All, IsSome, IsTrue};

use crate::asserts::holds;
use cert_ends::{
    NumberedReturns, ends_of, part_rises, returns_are_closed, returns_end, returns_have_reasons,
};
use cert_text::{LeadLine, LeadLines, LeadWhy, Part, ReturnLine, ReturnLines, ReturnWhy};
use cfg_model::{Chains, Flow, Memory};
use numbered::Numbered;
use std::alloc::Global;
use std::process::Abort;
use test_programs::{Sample, row_8, row_10, table_jump};

/// What the three deciders say of a part.
#[derive(Clone, Copy, Debug, PartialEq, Eq)]
struct Says {
    returns_end: bool,
    reasons: bool,
    returns_closed: bool,
}

/// A part in which nothing is wrong.
const RIGHT: Says = Says {
    returns_end: true,
    reasons: true,
    returns_closed: true,
};

fn itself(at: u64) -> ReturnLine {
    ReturnLine {
        at,
        rank: 0,
        why: ReturnWhy::Itself,
    }
}

fn to(at: u64, rank: u64, target: u64) -> ReturnLine {
    ReturnLine {
        at,
        rank,
        why: ReturnWhy::To { target },
    }
}

fn call_both(at: u64, rank: u64) -> ReturnLine {
    ReturnLine {
        at,
        rank,
        why: ReturnWhy::CallBoth,
    }
}

/// The part of these leaders, whose ranks and reasons do not count here, and of these returns.
fn part_of(alloc: Global, leads: &[u64], returns: &[ReturnLine]) -> Result<Part, Memory> {
    let mut lines = Vec::new(alloc);
    for at in leads {
        lines.push(LeadLine {
            at: *at,
            rank: 0,
            why: LeadWhy::Seed,
        })?;
    }
    Ok(Part {
        returns: ReturnLines::from_vec(Vec::from_slice(alloc, returns)?),
        leads: LeadLines::from_vec(lines),
    })
}

/// Whether an instruction stands at each of these returns.
fn returns_stand<C: Chains>(code: &C, returns: &[ReturnLine]) -> bool
    ensures { IsTrue result → All (λ line. IsSome (C.map code.now line.at)) returns.now }
{
    for line in returns {
        if !code.has(line.at) {
            return false;
        }
    }
    true
}

/// Whether an instruction stands at each of these leaders.
fn leads_stand<C: Chains>(code: &C, leads: &[LeadLine]) -> bool
    ensures { IsTrue result → All (λ line. IsSome (C.map code.now line.at)) leads.now }
{
    for line in leads {
        if !code.has(line.at) {
            return false;
        }
    }
    true
}

/// What the deciders say of a part that rises and whose addresses are code; nothing of another one.
fn asked<C: Numbered>(alloc: Global, code: &C, part: &Part) -> Result<Option<Says>, Memory> {
    let stands = returns_stand(code, part.returns.as_slice())
        && leads_stand(code, part.leads.as_slice());
    if !part_rises(part) || !stands {
        return Ok(None);
    }
    let returns = NumberedReturns::new(alloc, code, part.returns.as_slice())?;
    let ends = ends_of(alloc, code, part.leads.as_slice())?;
    Ok(Some(Says {
        returns_end: returns_end(code, part, ends.as_slice()),
        reasons: returns_have_reasons(alloc, code, part, &returns)?,
        returns_closed: returns_are_closed(alloc, code, part, &returns, ends.as_slice())?,
    }))
}

/// Compares what the deciders say of the part of these leaders and returns.
fn expect(
    rt: &(impl Abort + AllocGlobal),
    code: &Sample,
    leads: &[u64],
    returns: &[ReturnLine],
    wanted: Says,
) -> Result<(), Memory> {
    let part = part_of(rt.alloc(), leads, returns)?;
    let said = asked(rt.alloc(), code, &part)?;
    holds(rt, said == Some(wanted));
    Ok(())
}

/// Row 38, a return alone, and what is wrong without its line.
#[test]
fn one_return(rt: HostRuntime) -> Result<(), Memory> {
    let code = Sample {
        alloc: rt.alloc(),
        slots: &[Some((4, Flow::Return))],
        targets: &[],
        seeds: &[0],
    };
    expect(&rt, &code, &[0], &[itself(0)], RIGHT)?;
    let missed = Says {
        returns_closed: false,
        ..RIGHT
    };
    expect(&rt, &code, &[0], &[], missed)?;
    let reasonless = Says {
        reasons: false,
        ..RIGHT
    };
    expect(&rt, &code, &[0], &[call_both(0, 0)], reasonless)
}

/// Row 39, two streams that join before a branch.
#[test]
fn joining_streams(rt: HostRuntime) -> Result<(), Memory> {
    let code = row_8(rt.alloc());
    let returns = [to(4, 1, 8), itself(8)];
    expect(&rt, &code, &[0, 2, 4, 8], &returns, RIGHT)?;
    // The line of the join is not missed here: its block ends as the others do.
    expect(&rt, &code, &[0, 2, 8], &returns, RIGHT)
}

/// Row 39 with one leader less, whose chain alone ends in a return.
#[test]
fn leader_missed(rt: HostRuntime) -> Result<(), Memory> {
    let code = row_8(rt.alloc());
    let returns = [to(4, 1, 8), itself(8)];
    let no_end = Says {
        returns_end: false,
        ..RIGHT
    };
    expect(&rt, &code, &[0, 2, 4], &returns, no_end)
}

/// Row 39 with other returns.
#[test]
fn returns_spoilt(rt: HostRuntime) -> Result<(), Memory> {
    let code = row_8(rt.alloc());
    let leads = [0, 2, 4, 8];
    let reasonless = Says {
        reasons: false,
        ..RIGHT
    };
    expect(&rt, &code, &leads, &[to(4, 0, 8), itself(8)], reasonless)?;
    expect(&rt, &code, &leads, &[to(4, 1, 4), itself(8)], reasonless)?;
    expect(&rt, &code, &leads, &[itself(4), itself(8)], reasonless)?;
    let missed = Says {
        returns_closed: false,
        ..RIGHT
    };
    expect(&rt, &code, &leads, &[itself(8)], missed)?;
    expect(&rt, &code, &leads, &[], missed)?;
    let no_end = Says {
        returns_end: false,
        ..RIGHT
    };
    expect(
        &rt,
        &code,
        &leads,
        &[to(2, 2, 4), to(4, 1, 8), itself(8)],
        no_end,
    )
}

/// Row 10, two functions that call each other: control comes back past a call whose target ends in
/// a listed return.
#[test]
fn calls(rt: HostRuntime) -> Result<(), Memory> {
    let code = row_10(rt.alloc());
    let leads = [0, 4, 8, 12, 16];
    let returns = [
        to(0, 1, 8),
        call_both(4, 3),
        itself(8),
        call_both(12, 2),
        itself(16),
    ];
    expect(&rt, &code, &leads, &returns, RIGHT)?;
    let no_fall = Says {
        returns_end: false,
        ..RIGHT
    };
    expect(&rt, &code, &[0, 4, 8, 12], &returns, no_fall)?;
    let missed = Says {
        returns_closed: false,
        ..RIGHT
    };
    let without = [to(0, 1, 8), itself(8), call_both(12, 2), itself(16)];
    expect(&rt, &code, &leads, &without, missed)?;
    let reasonless = Says {
        reasons: false,
        ..RIGHT
    };
    let too_low = [
        to(0, 1, 8),
        call_both(4, 2),
        itself(8),
        call_both(12, 2),
        itself(16),
    ];
    expect(&rt, &code, &leads, &too_low, reasonless)
}

/// A table jump: it returns through one of its targets.
#[test]
fn table_targets(rt: HostRuntime) -> Result<(), Memory> {
    let code = table_jump(rt.alloc());
    let returns = [to(0, 1, 2), itself(2)];
    expect(&rt, &code, &[0, 2, 4], &returns, RIGHT)?;
    let unlisted = Says {
        returns_closed: false,
        ..RIGHT
    };
    expect(&rt, &code, &[0, 2, 4], &[itself(2)], unlisted)
}
