//! `cfg FILE`: the control-flow graph of a RISC-V executable. What a run does is `cfg_run`,
//! and by workers `run_crew`.
#![tactic(auto)]

use cfg_io::{FileInput, StdSink};
use cfg_run::{Refusal, refuse};
use crew::OpenGate;
use run_crew::run;
use run_ends::command_words;
use std::process::ExitCode;

/// Runs the program on the command line, the files of the system and the standard streams.
fn main(rt: HostRuntime) -> ExitCode {
    let mut out = StdSink::new(rt.stdout());
    let mut err = StdSink::new(rt.stderr());
    let status = match command_words(&rt, Refusal::Usage, Refusal::Memory) {
        Ok(words) => {
            let mut input = FileInput::new(rt);
            run(
                &rt,
                rt.alloc(),
                &words,
                &mut input,
                &mut out,
                &mut err,
                &OpenGate,
            )
        }
        Err(refusal) => refuse(refusal, &mut err),
    };
    ExitCode::from(status.number())
}
