//! The words of the command line.

ghost use Rattle.std.specs.Prelude.{◌≡◌, ◌⊎◌, IfErr};

use std::env::{self, Env};
use std::io::{self, ErrorKind};

/// The words of the command line, the program's name first.
///
/// Its error is `usage` if a word is not UTF-8, and `memory` if memory ran out.
pub fn command_words<R: Env + AllocGlobal, X: Copy>(
    rt: &R,
    usage: X,
    memory: X,
) -> Result<Vec<String>, X>
    ensures { IfErr result (λ e. (e ≡ usage) ⊎ (e ≡ memory)) }
{
    match word_list(rt) {
        Ok(words) => Ok(words),
        Err(e) => match e.kind() {
            ErrorKind::OutOfMemory => Err(memory),
            _ => Err(usage),
        },
    }
}

// The words, or what kept them from being listed.
fn word_list<R: Env + AllocGlobal>(rt: &R) -> io::Result<Vec<String>> {
    Ok(env::args(rt)?.collect(rt.alloc())?)
}
