//! Runs with so many lines that workers share their text.

ghost use Rattle.std.specs.Prelude.{◌≤◌};

use crate::asserts::same;
use crate::one_run::{Left, left_by};
use big_case::big_file;
use cfg_run::Status;
use crew::OpenGate;
use std::marker::Sync;
use std::process::Abort;
use std::sync::Wait;
use std::test::Fail;
use std::thread::Threads;

/// What a run with this many workers leaves of the program made from a number, if the write of this
/// number fails.
fn left_of<R: Threads + Wait + AllocGlobal + Sync>(
    rt: &R,
    workers: &str,
    kind: &str,
    n: u32,
    failing_write: u64,
) -> Result<Left, Fail>
    requires { (4 ≤ n) × (n ≤ 100000) }
{
    let words = ["--workers", workers, "--report", kind, "F"];
    left_by(
        rt,
        &words,
        big_file(rt.alloc(), n)?,
        failing_write,
        &OpenGate,
    )
}

/// Workers write the report that one worker writes.
fn runs_agree<R: Threads + Wait + Abort + AllocGlobal + Sync>(
    rt: &R,
    kind: &str,
    n: u32,
) -> Result<(), Fail>
    requires { (4 ≤ n) × (n ≤ 100000) }
{
    let alone = left_of(rt, "1", kind, n, 0)?;
    same(rt, &alone.status, &Status::Done);
    for workers in ["2", "4"] {
        let left = left_of(rt, workers, kind, n, 0)?;
        same(rt, &left.status, &Status::Done);
        same(rt, &left.out.bytes(), &alone.out.bytes());
    }
    Ok(())
}

/// The lines of the graph are two rounds of two workers, and one of four.
#[test]
fn runs_of_many_lines(rt: HostRuntime) -> Result<(), Fail> {
    runs_agree(&rt, "graph", 2000)?;
    runs_agree(&rt, "live", 3400)
}

/// One worker joins a report of many lines to few large writes, of which the second one may fail, but
/// there is no ninth. Several write it in parts, of which there are more; but not a report of few
/// lines.
#[test]
fn workers_write_parts(rt: HostRuntime) -> Result<(), Fail> {
    same(
        &rt,
        &left_of(&rt, "1", "graph", 1100, 2)?.status,
        &Status::WriteFault,
    );
    same(
        &rt,
        &left_of(&rt, "1", "graph", 1100, 9)?.status,
        &Status::Done,
    );
    same(
        &rt,
        &left_of(&rt, "4", "graph", 1100, 9)?.status,
        &Status::WriteFault,
    );
    same(
        &rt,
        &left_of(&rt, "4", "graph", 350, 9)?.status,
        &Status::Done,
    );
    Ok(())
}
