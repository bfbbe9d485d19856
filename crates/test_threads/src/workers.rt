//! Workers on worked programs: the states that they leave, and gates that hold them.

ghost use Rattle.std.specs.Prelude.{◌≤◌, IfOk};
ghost use Rattle.cfg_model.specs.Program.Reach.{AreSeeds};
ghost use Rattle.cfg_model.specs.Builder.Kept.{IsClosed};

use crate::asserts::{holds, same};
use cfg_model::{Chains, Flow};
use core_state::{Memory, State, WorkKind};
use crew::{Gate, OpenGate, build, work};
use std::alloc::Global;
use std::process::Abort;
use std::sync::Wait;
use std::test::Fail;
use std::thread::Threads;
use test_gates::{Counts, Meeting, Robbery};
use test_programs::{
    Sample, Slot, cut_table, row_6, row_8, row_9, row_10, row_12, row_17, table_jump,
};
use work_ops::finish;

/// The numbers of workers that are tried.
const CREWS: [u32; 5] = [2, 3, 4, 8, 64];

/// More than there are of anything in a worked program.
const MANY: u32 = 100;

static RETURNS: [Slot; 13] = [
    Some((4, Flow::Return)),
    None,
    None,
    None,
    Some((4, Flow::Return)),
    None,
    None,
    None,
    Some((4, Flow::Return)),
    None,
    None,
    None,
    Some((4, Flow::Return)),
];

/// Row 5: two functions that return.
fn row_5(alloc: Global) -> Sample<'static> {
    Sample {
        alloc,
        slots: &RETURNS,
        targets: &[],
        seeds: &[0, 4],
    }
}

/// Four functions that return.
fn four_returns(alloc: Global) -> Sample<'static> {
    Sample {
        alloc,
        slots: &RETURNS,
        targets: &[],
        seeds: &[0, 4, 8, 12],
    }
}

/// The closed state of a program from its seeds, made on the caller's thread.
fn closed<C: Chains>(alloc: Global, code: &C, seeds: &[u64]) -> Result<State, Memory>
    requires seeds { AreSeeds (C.map code.now) seeds.now }
    ensures closed { IfOk result (λ state. IsClosed (C.map code.now) seeds.now state.maps) }
{
    let mut state = State::new(alloc)?;
    finish(alloc, code, seeds, &mut state)?;
    Ok(state)
}

/// Both states have the same starts, as far parsed.
fn same_starts(rt: &impl Abort, one: &State, other: &State) {
    let mut at = None;
    for _ in 0..MANY {
        let next = one.start_after(at);
        holds(rt, next == other.start_after(at));
        let Some(s) = next else {
            return;
        };
        holds(rt, one.start(s) == other.start(s));
        at = next;
    }
}

/// Both states have the same ends, with the same near starts.
fn same_ends(rt: &impl Abort, one: &State, other: &State) {
    let mut at = None;
    for _ in 0..MANY {
        let next = one.end_after(at);
        holds(rt, next == other.end_after(at));
        let Some(k) = next else {
            return;
        };
        holds(rt, one.near(k) == other.near(k));
        at = next;
    }
}

/// Both states have the same terminators, with the same status.
fn same_terminators(rt: &impl Abort, one: &State, other: &State) {
    let mut at = None;
    for _ in 0..MANY {
        let next = one.term_after(at);
        holds(rt, next == other.term_after(at));
        let Some(k) = next else {
            return;
        };
        holds(rt, one.has_returned(k) == other.has_returned(k));
        holds(rt, one.done(k) == other.done(k));
        at = next;
    }
}

/// Any number of workers builds the state that one thread builds, and leaves nothing to do.
fn crews_agree<R: Threads + Wait + Abort + Sync>(
    rt: &R,
    alloc: Global,
    code: &Sample,
) -> Result<(), Fail> {
    let one = closed(alloc, code, code.seeds())?;
    for workers in CREWS {
        let left = work(rt, alloc, code, code.seeds(), workers, &OpenGate)?;
        holds(rt, left.left(code, code.seeds()).is_none());
        let state = build(rt, alloc, code, code.seeds(), workers, &OpenGate)?;
        same_starts(rt, &one, &state);
        same_ends(rt, &one, &state);
        same_terminators(rt, &one, &state);
    }
    Ok(())
}

#[test]
fn all_crews_build_one_state(rt: HostRuntime) -> Result<(), Fail> {
    let alloc = rt.alloc();
    for code in [
        row_5(alloc),
        row_6(alloc),
        row_8(alloc),
        row_9(alloc),
        row_10(alloc),
        row_12(alloc),
        row_17(alloc),
        table_jump(alloc),
        cut_table(alloc),
        four_returns(alloc),
    ] {
        crews_agree(&rt, alloc, &code)?;
    }
    Ok(())
}

/// Row 26, its first part: two workers act in one run. A crew whose workers work one after the
/// other, in either order, is late.
#[test]
fn two_workers_meet(rt: HostRuntime) -> Result<(), Fail> {
    let code = row_5(rt.alloc());
    let gate = Meeting::new();
    let state = build(&rt, rt.alloc(), &code, code.seeds(), 2, &gate)?;
    holds(&rt, gate.both_came());
    same(&rt, &state.near(0), &Some(0));
    same(&rt, &state.near(4), &Some(4));
    Ok(())
}

/// Row 26, its second part: the names of two seeds are put into the hand of worker 0 alone, which
/// is held with one of them. So worker 1 steals the other. A crew whose worker 1 never steals, or
/// leaves most of the work to worker 0, is late.
#[test]
fn a_worker_steals(rt: HostRuntime) -> Result<(), Fail> {
    let code = four_returns(rt.alloc());
    let gate = Robbery::of_edges();
    let state = build(&rt, rt.alloc(), &code, code.seeds(), 2, &gate)?;
    holds(&rt, gate.took_place());
    let one = closed(rt.alloc(), &code, code.seeds())?;
    same_ends(&rt, &one, &state);
    Ok(())
}

/// Each worker gives what it counted, once. Names are taken no more often than they were put, and no
/// operation is made without a name.
#[test]
fn workers_count(rt: HostRuntime) -> Result<(), Fail> {
    let code = four_returns(rt.alloc());
    for workers in CREWS {
        let gate = Counts::new();
        build(&rt, rt.alloc(), &code, code.seeds(), workers, &gate)?;
        same(&rt, &gate.ended(), &workers);
        holds(&rt, gate.fit());
        let put = gate.put().saturating_add(4);
        holds(&rt, gate.from_deques() <= put);
        holds(&rt, gate.made() >= 8);
    }
    Ok(())
}

/// The gate without a gatekeeper, by itself.
#[test]
fn the_open_gate_holds_nobody(rt: HostRuntime) -> Result<(), Fail> {
    OpenGate.before(1, WorkKind::Parse, 0);
    same(&rt, &OpenGate, &OpenGate);
    Ok(())
}
