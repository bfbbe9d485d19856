//! What workers counted of their own work while they built the graph of a file.
//!
//! They build it as `cfg` does. Each worker gets a line, by rising number: `worker=0`, and the
//! counts of its tally by their names, as `turns=17`. For a file with one seed no worker is started,
//! and no line printed. A file with a fault gets the single line `fault NAME`. The counts depend on
//! how the threads ran.

ghost use Rattle.std.specs.Prelude.{◌≤◌};

use crate::tallies::Tallies;
use anyhow::{Result, bail};
use elf_image::ElfError;
use file_crew::file_graph_by;
use std::alloc::Global;
use std::io::Write;
use std::marker::Sync;
use std::mem;
use std::sync::Wait;
use std::thread::Threads;

/// The lines for a file with these bytes.
pub(crate) fn write_file<R: Threads + Wait + Sync, W: Write>(
    rt: &R,
    alloc: Global,
    out: &mut W,
    bytes: Vec<u8>,
    workers: u32,
) -> Result<()>
    requires least { 2 ≤ workers }
    requires most { workers ≤ 64 }
{
    let tallies = Tallies::new(alloc, workers)?;
    match file_graph_by(rt, alloc, bytes, workers, &tallies) {
        Ok(file) => mem::forget(file),
        Err(e) => return write_refusal(out, e),
    }
    tallies.write(out)
}

fn write_refusal<W: Write>(out: &mut W, error: ElfError) -> Result<()> {
    match error {
        ElfError::Malformed(fault) => Ok(writeln!(out, "fault {}", fault.name())?),
        ElfError::Memory => bail!("out of memory"),
    }
}
