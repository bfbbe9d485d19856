//! Writing a text, whole, in parts or piece by piece.

ghost use Rattle.std.specs.Prelude.{◌≡◌, ◌≤◌, [], OnOk, OnErr, IsErrOf};
ghost use Rattle.std.specs.List.{flat_map};
ghost use Rattle.cfg_io.specs.Fault.{Rose};
ghost use Rattle.cfg_io.specs.Told.{Appends, AppendsPrefix};
ghost use Rattle.run_ends.specs.declared.writing.Unwritten.TheVariants as unwritten;

use crate::joined::Joined;
use cfg_io::{Failed, Sink, write_whole};
use graph_report::{Memory, ReportPieces};
use std::alloc::Global;

/// Why a text was not written whole.
#[derive(Clone, Copy, Debug, PartialEq, Eq)]
pub enum Unwritten {
    /// A write failed. A part of the text went out.
    Failed,
    /// Memory ran out, before the first byte was written.
    Memory,
}

impl From<Failed> for Unwritten {
    ghost from_gives = { λ _ e. e ≡ unwritten.Failed };

    fn from(_: Failed) -> Self {
        Unwritten::Failed
    }
}

impl From<Memory> for Unwritten {
    ghost from_gives = { λ _ e. e ≡ unwritten.Memory };

    fn from(_: Memory) -> Self {
        Unwritten::Memory
    }
}

/// Writes all that these pieces have to give. Pieces are joined to writes of [`JOINED`] bytes at
/// most; the room for that is taken before the first byte is written, and is all the memory that
/// this takes.
///
/// [`Unwritten::Failed`]: a write failed. The bytes before it were appended, and not all of them.
pub fn write_pieces<O: Sink>(
    alloc: Global,
    pieces: ReportPieces,
    out: &mut O,
) -> Result<(), Unwritten>
    ensures whole { OnOk result (Appends (O.written out.old) pieces.entry (O.written out.new)) }
    ensures prefix { IsErrOf result Unwritten.Failed
        → AppendsPrefix (O.written out.old) pieces.entry (O.written out.new) }
    ensures failed { IsErrOf result Unwritten.Failed
        → Rose (O.faults out.old) (O.faults out.new) }
    ensures untouched { IsErrOf result Unwritten.Memory
        → O.written out.new ≡ O.written out.old }
    ensures never_falls { O.faults out.old ≤ O.faults out.new }
{
    let joined = Joined::new(alloc)?;
    Ok(write_joined(joined, pieces, out)?)
}

/// Writes them, joined in this room, which is empty.
fn write_joined<O: Sink>(
    mut joined: Joined,
    mut pieces: ReportPieces,
    out: &mut O,
) -> Result<(), Failed>
    requires { joined ≡ [] }
    ensures whole { OnOk result (Appends (O.written out.old) pieces.entry (O.written out.new)) }
    ensures prefix { OnErr result
        (AppendsPrefix (O.written out.old) pieces.entry (O.written out.new)) }
    ensures failed { OnErr result (Rose (O.faults out.old) (O.faults out.new)) }
    ensures never_falls { O.faults out.old ≤ O.faults out.new }
{
    joined.put_all(&mut pieces, out)?;
    joined.end(out)
}

/// Writes these texts, one after another. It takes no memory.
///
/// [`Failed`]: a write failed. The bytes before it were appended, and not all of them.
pub fn write_texts<O: Sink>(texts: &[Vec<u8>], out: &mut O) -> Result<(), Failed>
    ensures whole { OnOk result
        (Appends (O.written out.old) (flat_map (λ text. text.items) texts.now)
        (O.written out.new)) }
    ensures prefix { OnErr result
        (AppendsPrefix (O.written out.old) (flat_map (λ text. text.items) texts.now)
        (O.written out.new)) }
    ensures failed { OnErr result (Rose (O.faults out.old) (O.faults out.new)) }
    ensures never_falls { O.faults out.old ≤ O.faults out.new }
{
    for text in texts {
        write_whole(out, text)?;
    }
    Ok(())
}
