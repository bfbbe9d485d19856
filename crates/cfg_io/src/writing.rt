//! Writing a whole text.
ghost use Rattle.std.specs.Prelude.{◌≤◌, ◌<◌, OnOk, OnErr};
ghost use Rattle.cfg_io.specs.Fault.{Rose};
ghost use Rattle.cfg_io.specs.Told.{Appends, AppendsPrefix};

use crate::{Failed, Sink};

/// Writes all of `bytes` to `sink`. It takes no memory of its own.
///
/// [`Failed`]: a write failed. The bytes before it were appended, and not all of them.
pub fn write_whole<O: Sink>(sink: &mut O, bytes: &[u8]) -> Result<(), Failed>
    ensures whole { OnOk result (Appends (O.written sink.old) bytes.now (O.written sink.new)) }
    ensures prefix { OnErr result
        (AppendsPrefix (O.written sink.old) bytes.now (O.written sink.new)) }
    ensures failed { OnErr result (Rose (O.faults sink.old) (O.faults sink.new)) }
    ensures never_falls { O.faults sink.old ≤ O.faults sink.new }
{
    let mut at = 0;
    while at < bytes.len() {
        at += sink.write(&bytes[at..])?;
    }
    Ok(())
}
