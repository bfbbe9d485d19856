//! `cfg` for one worker: the same reports, line by line, made on one thread whatever number of
//! workers is asked for. What a run does is `cfg_run`.
#![tactic(auto)]

use cfg_io::{FileInput, StdSink};
use cfg_run::{Refusal, refuse, run_one};
use run_ends::command_words;
use std::process::ExitCode;

/// Runs the program on the command line, the files of the system and the standard streams.
fn main(rt: HostRuntime) -> ExitCode {
    let mut out = StdSink::new(rt.stdout());
    let mut err = StdSink::new(rt.stderr());
    let status = match command_words(&rt, Refusal::Usage, Refusal::Memory) {
        Ok(words) => {
            let mut input = FileInput::new(rt);
            run_one(rt.alloc(), &words, &mut input, &mut out, &mut err)
        }
        Err(refusal) => refuse(refusal, &mut err),
    };
    ExitCode::from(status.number())
}
