//! Whole runs through gates: that a run uses the workers that it is asked for, that they work at
//! the same time, and that they steal.

use crate::asserts::{holds, holds_at, same, same_at};
use crate::one_run::left_by;
use crate::row_files::file_of;
use cfg_io::MemSink;
use cfg_run::Status;
use crew::{Gate, OpenGate};
use std::marker::Sync;
use std::process::Abort;
use std::sync::Wait;
use std::test::Fail;
use std::thread::Threads;
use test_gates::{Counts, Meeting, Robbery};

/// The row whose file has a symbol at each of its 301 instructions.
const MANY: u32 = 31;

/// Below this address lie instructions of that row that two workers give to the first of them.
const LOWER: u64 = 0x10080;

/// What a run on the file of this row writes, with `workers` workers, which pass this gate.
fn report_of<R: Threads + Wait + Abort + AllocGlobal + Sync, G: Gate>(
    rt: &R,
    row: u32,
    workers: &str,
    gate: &G,
) -> Result<MemSink, Fail> {
    let words = ["--workers", workers, "F"];
    let left = left_by(rt, &words, file_of(rt, row, 0)?, 0, gate)?;
    same(rt, &left.status, &Status::Done);
    Ok(left.out)
}

/// Row 26, its first part, by a run: two workers act at the same time. A run that builds alone, or
/// by one worker after the other, is late.
#[test]
fn two_workers_of_a_run_meet(rt: HostRuntime) -> Result<(), Fail> {
    let gate = Meeting::new();
    let report = report_of(&rt, 5, "2", &gate)?;
    holds(&rt, gate.both_came());
    let alone = report_of(&rt, 5, "1", &OpenGate)?;
    same(&rt, &report.bytes(), &alone.bytes());
    Ok(())
}

/// Row 26, its second part, by a run: a worker is held until the other has stolen its work.
#[test]
fn a_worker_of_a_run_steals(rt: HostRuntime) -> Result<(), Fail> {
    let gate = Robbery::below(LOWER);
    let report = report_of(&rt, MANY, "2", &gate)?;
    holds(&rt, gate.took_place());
    let alone = report_of(&rt, MANY, "1", &OpenGate)?;
    same(&rt, &report.bytes(), &alone.bytes());
    Ok(())
}

/// As many workers end as were asked for, and they make the operations: a run that ignores the
/// number, or a crew that gets no seeds, fails.
#[test]
fn a_run_uses_its_workers(rt: HostRuntime) -> Result<(), Fail> {
    let alone = report_of(&rt, MANY, "1", &OpenGate)?;
    for (words, workers) in [("2", 2), ("3", 3), ("4", 4), ("64", 64)] {
        let gate = Counts::new();
        let report = report_of(&rt, MANY, words, &gate)?;
        same_at(&rt, &words, &report.bytes(), &alone.bytes());
        same(&rt, &gate.ended(), &workers);
        holds(&rt, gate.fit());
        holds_at(&rt, &words, gate.made() >= 301);
    }
    Ok(())
}

/// Also if there are fewer seeds than workers: row 5 has two.
#[test]
fn more_workers_than_seeds(rt: HostRuntime) -> Result<(), Fail> {
    let alone = report_of(&rt, 5, "1", &OpenGate)?;
    for (words, workers) in [("3", 3), ("64", 64)] {
        let gate = Counts::new();
        let report = report_of(&rt, 5, words, &gate)?;
        same_at(&rt, &words, &report.bytes(), &alone.bytes());
        same_at(&rt, &words, &gate.ended(), &workers);
    }
    Ok(())
}

/// The rows of hostile code whose files have two seeds or more, but for row 31: starts are displaced,
/// tables are cut, and streams overlap.
const HOSTILE: [u32; 3] = [7, 15, 28];

/// As many workers as are asked for end on these too, and they make the operations.
#[test]
fn workers_make_hostile_rows(rt: HostRuntime) -> Result<(), Fail> {
    for row in HOSTILE {
        let alone = report_of(&rt, row, "1", &OpenGate)?;
        for (words, workers) in [("2", 2), ("64", 64)] {
            let gate = Counts::new();
            let report = report_of(&rt, row, words, &gate)?;
            same_at(&rt, &(row, words), &report.bytes(), &alone.bytes());
            same_at(&rt, &(row, words), &gate.ended(), &workers);
            holds(&rt, gate.made() >= 2);
        }
    }
    Ok(())
}

/// One worker asks no gate.
#[test]
fn one_worker_asks_no_gate(rt: HostRuntime) -> Result<(), Fail> {
    let gate = Counts::new();
    report_of(&rt, MANY, "1", &gate)?;
    same(&rt, &gate.ended(), &0);
    Ok(())
}
