//! A sink over a writer of std.
ghost use Rattle.std.specs.Prelude.{◌≡◌, ◌≤◌, ◌<◌, length, None, IfSome, IfOk};
ghost use Rattle.std.specs.Prelude.{OnOk, OnErr};
ghost use Rattle.std.proofs.Math.Nat.{min-le_right};
ghost use Rattle.cfg_io.specs.Fault.{fault_count, most_faults, one_more};

use crate::{Failed, Sink};
use std::io::Write;

/// A writer of std, flushed after each write. It does not tell its bytes.
///
/// Each error of the writer counts as a fault, want of memory and a write of no bytes too.
#[derive(Drop)]
pub struct StdSink<W: Write> {
    writer: W,
    faults: u64,
}

impl<W: Write> StdSink<W> {
    /// A sink that writes to `writer`.
    pub fn new(writer: W) -> Self
        ensures no_faults { ⟦<StdSink<W> as Sink>⟧.faults result ≡ 0 }
        ensures tells_no_bytes { ⟦<StdSink<W> as Sink>⟧.written result ≡ None }
    {
        StdSink { writer, faults: 0 }
    }
}

// One write, and a flush; `None` if either failed or nothing was written.
fn write_and_flush<W: Write>(writer: &mut W, piece: &[u8]) -> Option<usize>
    ensures some { IfSome result (λ n. 0 < n) }
    ensures in_bounds { IfSome result (λ n. n ≤ length piece.now) }
{
    let n = writer.write(piece).ok()?;
    writer.flush().ok()?;
    if n == 0 { None } else { Some(n) }
}

impl<W: Write> Sink for StdSink<W> {
    ghost faults = { λ s. fault_count s.faults };

    ghost written = { λ _. None };

    fn write(&mut self, piece: &[u8]) -> Result<usize, Failed>
        requires { 0 < length piece.now }
        ensures some { IfOk result (λ n. 0 < n) }
        ensures in_bounds { IfOk result (λ n. n ≤ length piece.now) }

        // A failure counts as one fault, and nothing else does.
        ensures ok_faults { OnOk result
            (⟦<StdSink<W> as Sink>⟧.faults self.new ≡ ⟦<StdSink<W> as Sink>⟧.faults self.old) }
        ensures err_faults { OnErr result
            (⟦<StdSink<W> as Sink>⟧.faults self.new
            ≡ one_more (⟦<StdSink<W> as Sink>⟧.faults self.old)) }
    {
        match write_and_flush(&mut self.writer, piece) {
            Some(n) => Ok(n),
            None => {
                self.faults = self.faults.saturating_add(1);
                Err(Failed)
            }
        }
    }

    ghost faults_fit = { λ x. min-le_right x.faults most_faults };
}
