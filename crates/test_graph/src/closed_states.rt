//! Worked programs: `test_programs` has them.

use crate::asserts::holds;
use crate::closed::closed;
use core_state::State;
use std::process::Abort;
use std::test::Fail;
use test_programs::{row_6, row_8, row_9, row_10, table_jump};
use work_ops::finish;

/// The starts of a state.
fn expect_starts(rt: &impl Abort, state: &State, starts: &[u64]) {
    let mut at = None;
    for start in starts {
        let next = state.start_after(at);
        holds(rt, next == Some(*start));
        at = Some(*start);
    }
    let next = state.start_after(at);
    holds(rt, next.is_none());
}

/// The ends of a state, each with the start that is near there.
fn expect_ends(rt: &impl Abort, state: &State, ends: &[(u64, u64)]) {
    let mut at = None;
    for (end, start) in ends {
        let next = state.end_after(at);
        holds(rt, next == Some(*end));
        let near = state.near(*end);
        holds(rt, near == Some(*start));
        at = Some(*end);
    }
    let next = state.end_after(at);
    holds(rt, next.is_none());
}

/// The terminators of a state, each with whether it returns.
fn expect_terminators(rt: &impl Abort, state: &State, terminators: &[(u64, bool)]) {
    let mut at = None;
    for (terminator, returns) in terminators {
        let next = state.term_after(at);
        holds(rt, next == Some(*terminator));
        let returned = state.has_returned(*terminator);
        holds(rt, returned == Some(*returns));
        at = Some(*terminator);
    }
    let next = state.term_after(at);
    holds(rt, next.is_none());
}

/// Row 6: a branch back into its own block.
#[test]
fn branch_back(rt: HostRuntime) -> Result<(), Fail> {
    let code = row_6(rt.alloc());
    let state = closed(rt.alloc(), &code, code.seeds())?;
    expect_starts(&rt, &state, &[0, 4, 12]);
    expect_ends(&rt, &state, &[(0, 0), (8, 4), (12, 12)]);
    expect_terminators(&rt, &state, &[(8, true), (12, true)]);
    Ok(())
}

/// Row 8: a second stream of instructions that is found late, and joins the first one.
#[test]
fn joining_streams(rt: HostRuntime) -> Result<(), Fail> {
    let code = row_8(rt.alloc());
    let state = closed(rt.alloc(), &code, code.seeds())?;
    expect_starts(&rt, &state, &[0, 2, 4, 8]);
    expect_ends(&rt, &state, &[(0, 0), (2, 2), (4, 4), (8, 8)]);
    expect_terminators(&rt, &state, &[(4, true), (8, true)]);
    Ok(())
}

/// Row 9: a function that calls itself, and so never returns.
#[test]
fn self_call(rt: HostRuntime) -> Result<(), Fail> {
    let code = row_9(rt.alloc());
    let state = closed(rt.alloc(), &code, code.seeds())?;
    expect_starts(&rt, &state, &[0]);
    expect_ends(&rt, &state, &[(0, 0)]);
    expect_terminators(&rt, &state, &[(0, false)]);
    Ok(())
}

/// Row 10: two functions that call each other.
#[test]
fn mutual_calls(rt: HostRuntime) -> Result<(), Fail> {
    let code = row_10(rt.alloc());
    let state = closed(rt.alloc(), &code, code.seeds())?;
    expect_starts(&rt, &state, &[0, 4, 8, 12, 16]);
    expect_ends(&rt, &state, &[(0, 0), (4, 4), (8, 8), (12, 12), (16, 16)]);
    expect_terminators(
        &rt,
        &state,
        &[(0, true), (4, true), (8, true), (12, true), (16, true)],
    );
    Ok(())
}

/// A table jump with two targets; one is kept twice.
#[test]
fn table_of_three(rt: HostRuntime) -> Result<(), Fail> {
    let code = table_jump(rt.alloc());
    let state = closed(rt.alloc(), &code, code.seeds())?;
    expect_starts(&rt, &state, &[0, 2, 4]);
    expect_ends(&rt, &state, &[(0, 0), (2, 2), (4, 4)]);
    expect_terminators(&rt, &state, &[(0, true), (2, true), (4, false)]);
    Ok(())
}

/// A closed state that is finished again stays as it is, its count of changes too.
#[test]
fn finished_again(rt: HostRuntime) -> Result<(), Fail> {
    let code = row_8(rt.alloc());
    let mut state = closed(rt.alloc(), &code, code.seeds())?;
    let changes = state.changes();
    finish(rt.alloc(), &code, code.seeds(), &mut state)?;
    holds(&rt, state.changes() == changes);
    expect_starts(&rt, &state, &[0, 2, 4, 8]);
    expect_ends(&rt, &state, &[(0, 0), (2, 2), (4, 4), (8, 8)]);
    Ok(())
}
