//! One run of the program, over an input and two sinks in memory.

use cfg_io::{MemInput, MemSink};
use cfg_run::Status;
use crew::Gate;
use run_crew::run;
use std::marker::Sync;
use std::sync::Wait;
use std::test::Fail;
use std::thread::Threads;

/// What a run left: its status, and what it wrote to standard output.
#[derive(Drop)]
pub(crate) struct Left {
    pub(crate) status: Status,
    pub(crate) out: MemSink,
}

/// Runs the program on these words, which stand after its name. The bytes are those of the file
/// `F`. The write to standard output with this number fails; none if it is 0.
pub(crate) fn left_by<R: Threads + Wait + AllocGlobal + Sync, G: Gate>(
    rt: &R,
    words: &[&str],
    bytes: Vec<u8>,
    failing_write: u64,
    gate: &G,
) -> Result<Left, Fail> {
    let alloc = rt.alloc();
    let mut all = vec![in alloc; "cfg".to_string(alloc)?]?;
    for word in words {
        all.push(word.to_string(alloc)?)?;
    }
    let name = "F".to_string(alloc)?;
    let mut input = MemInput::new(name, bytes, 65_536, Vec::new(alloc));
    let failing = vec![in alloc; failing_write]?;
    let mut out = MemSink::new(alloc, 2_097_152, 1_048_576, failing)?;
    let mut err = MemSink::new(alloc, 1_048_576, 1_048_576, Vec::new(alloc))?;
    let status = run(rt, alloc, &all, &mut input, &mut out, &mut err, gate);
    Ok(Left { status, out })
}
