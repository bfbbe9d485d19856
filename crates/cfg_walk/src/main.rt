//! `cfg_walk STEPS FILE`: a walk of the written machine through the graph of a RISC-V executable.
//! What a run does is `walk_run`.
#![tactic(auto)]

use cfg_io::{FileInput, StdSink};
use run_ends::command_words;
use std::process::ExitCode;
use walk_run::{Refusal, refuse, walk};

/// Runs the program on the command line, the files of the system and the standard streams.
fn main(rt: HostRuntime) -> ExitCode {
    let mut out = StdSink::new(rt.stdout());
    let mut err = StdSink::new(rt.stderr());
    let status = match command_words(&rt, Refusal::Usage, Refusal::Memory) {
        Ok(words) => {
            let mut input = FileInput::new(rt);
            walk(rt.alloc(), &words, &mut input, &mut out, &mut err)
        }
        Err(refusal) => refuse(refusal, &mut err),
    };
    ExitCode::from(status.number())
}
