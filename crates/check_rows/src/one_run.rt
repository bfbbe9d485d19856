//! One run of a program, over inputs and sinks in memory.

use crate::streams::Streams;
use anyhow::Result;
use cfg_io::{MemInput, MemSink};
use check_run::check_run;
use crew::OpenGate;
use run_crew::run;
use std::alloc::{AllocError, Global};
use std::marker::Sync;
use std::sync::Wait;
use std::thread::Threads;
use walk_run::walk;

/// The most bytes that a run may write to a sink.
const ROOM: usize = 1_048_576;

/// What a run left: its status, and what it wrote.
#[derive(Drop)]
pub(crate) struct Left {
    pub(crate) status: u8,
    pub(crate) out: MemSink,
    pub(crate) err: MemSink,
}

/// The bytes of the two files of a run, `F` and `C`.
#[derive(Drop)]
pub(crate) struct Files {
    pub(crate) file: Vec<u8>,
    pub(crate) certificate: Vec<u8>,
}

/// What a run on these words leaves, of which the first names the program, in the try of this
/// number.
pub(crate) fn left_by<R: Threads + Wait + AllocGlobal + Sync>(
    rt: &R,
    words: &[String],
    files: Files,
    streams: &Streams,
    number: u64,
) -> Result<Left> {
    let alloc = rt.alloc();
    let failing = streams.file.list(alloc, number)?;
    let most = streams.file.most.max(1);
    let mut file = MemInput::new("F".to_string(alloc)?, files.file, most, failing);
    let (mut out, mut err) = sinks(alloc, streams, number)?;
    let status = match words.first() {
        Some(name) if name.as_str() == "cfg" => {
            run(rt, alloc, words, &mut file, &mut out, &mut err, &OpenGate).number()
        }
        Some(name) if name.as_str() == "cfg_walk" => {
            walk(alloc, words, &mut file, &mut out, &mut err).number()
        }
        _ => {
            let failing = streams.certificate.list(alloc, number)?;
            let most = streams.certificate.most.max(1);
            let name = "C".to_string(alloc)?;
            let mut certificate = MemInput::new(name, files.certificate, most, failing);
            check_run(
                alloc,
                words,
                &mut file,
                &mut certificate,
                &mut out,
                &mut err,
            )
            .number()
        }
    };
    Ok(Left { status, out, err })
}

/// Standard output and standard error.
fn sinks(alloc: Global, streams: &Streams, number: u64) -> Result<(MemSink, MemSink), AllocError> {
    let failing = streams.out.list(alloc, number)?;
    let out = MemSink::new(alloc, ROOM, streams.out.most.max(1), failing)?;
    let failing = streams.err.list(alloc, number)?;
    let err = MemSink::new(alloc, ROOM, streams.err.most.max(1), failing)?;
    Ok((out, err))
}
