//! The lines of a trace.

ghost use Rattle.std.specs.Prelude.{◌≡◌, ◌++◌, OnOk};
ghost use Rattle.walk_trace.specs.Lines.{at_line, out_line, left_line, trap_line, trap_word, steps_line};

use cfg_model::{EndKind, Memory};
use graph_report::{address_digits, end_word};
use rv_machine::Trap;

/// Appends that the machine enters the block at `a`: 20 bytes.
pub(crate) fn push_at(text: &mut Vec<u8>, a: u64) -> Result<(), Memory>
    ensures { OnOk result (text.new.items ≡ text.old.items ++ at_line a) }
{
    let mut line = *b"at 0000000000000000\n";
    line[3..19].copy_from_slice(&address_digits(a));
    text.extend_from_slice(&line)?;
    Ok(())
}

/// Appends that it leaves a block of this kind, and not along an edge: 15 bytes at most.
pub(crate) fn push_out(text: &mut Vec<u8>, kind: EndKind) -> Result<(), Memory>
    ensures { OnOk result (text.new.items ≡ text.old.items ++ out_line kind) }
{
    text.extend_from_slice(b"out ")?;
    text.extend_from_slice(end_word(kind))?;
    text.extend_from_slice(b"\n")?;
    Ok(())
}

/// Appends that the walk ends, since no block starts where the machine goes.
pub(crate) fn push_left(text: &mut Vec<u8>) -> Result<(), Memory>
    ensures { OnOk result (text.new.items ≡ text.old.items ++ left_line) }
{
    text.extend_from_slice(b"end left\n")?;
    Ok(())
}

/// Appends that it ends with a trap: 21 bytes at most.
pub(crate) fn push_trap(text: &mut Vec<u8>, trap: Trap) -> Result<(), Memory>
    ensures { OnOk result (text.new.items ≡ text.old.items ++ trap_line trap) }
{
    text.extend_from_slice(b"end trap ")?;
    text.extend_from_slice(trap_word(trap))?;
    text.extend_from_slice(b"\n")?;
    Ok(())
}

/// The name of a trap.
fn trap_word(trap: Trap) -> &'static [u8]
    ensures { result.now ≡ trap_word trap }
{
    match trap {
        Trap::Fetch => b"Fetch",
        Trap::Illegal => b"Illegal",
        Trap::Breakpoint => b"Breakpoint",
        Trap::Ecall => b"Ecall",
        Trap::Csr => b"Csr",
        Trap::Float => b"Float",
        Trap::Unsupported => b"Unsupported",
        Trap::LoadFault => b"LoadFault",
        Trap::StoreFault => b"StoreFault",
        Trap::Misaligned => b"Misaligned",
    }
}

/// Appends that it ends after as many steps as were asked for.
pub(crate) fn push_steps(text: &mut Vec<u8>) -> Result<(), Memory>
    ensures { OnOk result (text.new.items ≡ text.old.items ++ steps_line) }
{
    text.extend_from_slice(b"end steps\n")?;
    Ok(())
}
