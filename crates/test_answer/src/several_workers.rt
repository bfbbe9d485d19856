//! Workers on files: what they leave to be finished, and gates that slow them down.

ghost use Rattle.std.specs.Prelude.{◌≤◌};

use crate::asserts::{holds, same, same_at};
use crate::one_run::left_by;
use crate::row_files::file_of;
use big_case::big_file;
use cfg_io::MemSink;
use cfg_run::Status;
use chain_index::ChainIndex;
use code_view::{Calls, Code, Cuts};
use core_state::WorkKind;
use crew::{Gate, OpenGate, work};
use elf_image::{Image, u64_at};
use elf_symbols::seeds;
use std::hint;
use std::marker::Sync;
use std::process::Abort;
use std::sync::Wait;
use std::test::Fail;
use std::thread::Threads;

/// Workers leave nothing to do in the state of the program of a file without cuts.
fn leave_nothing<R: Threads + Wait + Abort + AllocGlobal + Sync>(
    rt: &R,
    file: Vec<u8>,
    workers: u32,
) -> Result<(), Fail>
    requires { (2 ≤ workers) × (workers ≤ 64) }
{
    let alloc = rt.alloc();
    let image = Image::parse(alloc, file)?;
    let seeds = seeds(alloc, &image)?;
    let index = ChainIndex::new(alloc, &image)?;
    let calls = Calls::of(alloc, &image)?;
    let none = Cuts::none(alloc);
    let code = Code::new(&image, &index, &calls, &none);
    let state = work(rt, alloc, &code, seeds.addresses(), workers, &OpenGate)?;
    holds(rt, state.left(&code, seeds.addresses()).is_none());
    Ok(())
}

/// Row 26, its last part: workers that leave their work to be finished fail it.
#[test]
fn workers_leave_nothing(rt: HostRuntime) -> Result<(), Fail> {
    leave_nothing(&rt, file_of(&rt, 5, 0)?, 2)?;
    leave_nothing(&rt, big_file(rt.alloc(), 5000)?, 4)
}

/// Lets each worker go slower than the one before it.
struct Slope;

impl Gate for Slope {
    fn before(&self, worker: u32, _kind: WorkKind, _key: u64) {
        for _ in 0..1000 * (worker as u64 % 64) {
            hint::spin_loop();
        }
    }
}

/// Rows in which starts are displaced, tables are cut or lead into their own pattern, calls go round
/// in a ring, and streams overlap.
const ROWS: [u32; 9] = [7, 8, 13, 15, 17, 28, 29, 30, 31];

/// Workers give the report of a row that one worker gives, whether a gate holds them up or not.
#[test]
fn workers_agree(rt: HostRuntime) -> Result<(), Fail> {
    for row in ROWS {
        agree(&rt, row, &file_of(&rt, row, 0)?)?;
    }
    Ok(())
}

/// The same where only the first of two tables is reached, and the other begins inside it: then what
/// was built under the cuts of both is not the answer. Each row is given with the address of its
/// symbol and the low byte of another one. From the entry alone the caller's thread finds what is
/// reached, and from a second seed, which is reached anyhow, workers do.
#[test]
fn unreached_tables_agree(rt: HostRuntime) -> Result<(), Fail> {
    for (row, symbol, seed) in [(15, 0x10028, 0), (34, 0x10020, 0), (15, 0x10028, 0x24)] {
        let mut bytes = file_of(&rt, row, 0)?;
        move_symbol(&mut bytes, symbol, seed);
        agree(&rt, row, &bytes)?;
    }
    Ok(())
}

/// Gives the symbol with this value another low byte.
fn move_symbol(bytes: &mut [u8], value: u64, low: u8) {
    for at in 0..bytes.len().saturating_sub(8) {
        if u64_at(bytes, at) == value {
            bytes[at] = low;
        }
    }
}

/// The same for the file of this row.
fn agree<R: Threads + Wait + Abort + AllocGlobal + Sync>(
    rt: &R,
    row: u32,
    bytes: &[u8],
) -> Result<(), Fail> {
    let alone = report_by(rt, "1", bytes, &OpenGate)?;
    for workers in ["2", "3", "4", "64"] {
        let fast = report_by(rt, workers, bytes, &OpenGate)?;
        same_at(rt, &(row, workers), &fast.bytes(), &alone.bytes());
        let slow = report_by(rt, workers, bytes, &Slope)?;
        same_at(rt, &(row, workers), &slow.bytes(), &alone.bytes());
    }
    Ok(())
}

/// What a run with `workers` workers, which pass this gate, writes.
fn report_by<R: Threads + Wait + Abort + AllocGlobal + Sync, G: Gate>(
    rt: &R,
    workers: &str,
    bytes: &[u8],
    gate: &G,
) -> Result<MemSink, Fail> {
    let file = Vec::from_slice(rt.alloc(), bytes)?;
    let left = left_by(rt, &["--workers", workers, "F"], file, 0, gate)?;
    same(rt, &left.status, &Status::Done);
    Ok(left.out)
}
