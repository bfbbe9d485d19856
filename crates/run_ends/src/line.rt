//! The line that reports why a run failed.

ghost use Rattle.std.specs.Prelude.{◌≤◌, ◌++◌, OnOk, OnErr};
ghost use Rattle.cfg_io.specs.Fault.{Rose};
ghost use Rattle.cfg_io.specs.Told.{Appends, AppendsPrefix};
ghost use Rattle.run_ends.specs.Line.{failure_line};
ghost use Rattle.run_ends.specs.Told.{Tells};

use cfg_io::{Failed, Sink, write_whole};

/// Writes the line `PROGRAM: TEXT` with the detail right after the text, such as a fault's name. It
/// takes no memory. If a write fails, a part of the line went out.
pub fn write_failure<E: Sink>(program: &str, text: &str, detail: &str, err: &mut E)
    ensures { Tells (E.written err.old) (E.written err.new)
        (Rose (E.faults err.old) (E.faults err.new))
        (failure_line program.now text.now detail.now) }
{
    let _ = write_line(program, text, detail, err);
}

fn write_line<E: Sink>(program: &str, text: &str, detail: &str, err: &mut E) -> Result<(), Failed>
    ensures whole { OnOk result
        (Appends (E.written err.old) (failure_line program.now text.now detail.now)
        (E.written err.new)) }
    ensures prefix { OnErr result
        (AppendsPrefix (E.written err.old) (failure_line program.now text.now detail.now)
        (E.written err.new)) }
    ensures failed { OnErr result (Rose (E.faults err.old) (E.faults err.new)) }
{
    write_both(program, ": ", err)?;
    write_both(text, detail, err)?;
    write_whole(err, b"\n")
}

/// Writes one text and then another.
fn write_both<E: Sink>(first: &str, second: &str, err: &mut E) -> Result<(), Failed>
    ensures whole { OnOk result
        (Appends (E.written err.old) (first.now ++ second.now) (E.written err.new)) }
    ensures prefix { OnErr result
        (AppendsPrefix (E.written err.old) (first.now ++ second.now) (E.written err.new)) }
    ensures failed { OnErr result (Rose (E.faults err.old) (E.faults err.new)) }
    ensures never_falls { E.faults err.old ≤ E.faults err.new }
{
    write_whole(err, first.as_bytes())?;
    write_whole(err, second.as_bytes())
}
