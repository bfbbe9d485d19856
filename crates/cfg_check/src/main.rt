//! `cfg_check make FILE`: the canonical certificate of the control-flow graph of a RISC-V executable.
//! `cfg_check test FILE CERT`: the report of the graph, if the certificate is valid for the file.
//! What a run does is `check_run`.
#![tactic(auto)]

use cfg_io::{FileInput, StdSink};
use check_run::{Refusal, check_run, refuse};
use run_ends::command_words;
use std::process::ExitCode;

/// Runs the program on the command line, the files of the system and the standard streams.
fn main(rt: HostRuntime) -> ExitCode {
    let mut out = StdSink::new(rt.stdout());
    let mut err = StdSink::new(rt.stderr());
    let status = match command_words(&rt, Refusal::Usage, Refusal::Memory) {
        Ok(words) => {
            let mut file = FileInput::new(rt);
            let mut certificate = FileInput::new(rt);
            check_run(
                rt.alloc(),
                &words,
                &mut file,
                &mut certificate,
                &mut out,
                &mut err,
            )
        }
        Err(refusal) => refuse(refusal, &mut err),
    };
    ExitCode::from(status.number())
}
