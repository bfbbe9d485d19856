//! Why a run wrote no whole trace, and the line that reports it.

ghost use Rattle.std.specs.Prelude.{◌≡◌};
ghost use Rattle.cfg_io.specs.Fault.{Rose};
ghost use Rattle.walk_run.specs.Refusal.{status_of, refusal_of, refusal_of_unread, refusal_of_ram};
ghost use Rattle.walk_run.specs.declared.refusal.Refusal.TheVariants as refusals;
ghost use Rattle.walk_run.specs.Lines.{refusal_line, text_of, detail_of};
ghost use Rattle.run_ends.specs.Told.{Tells};

use crate::status::WalkStatus;
use cfg_io::Sink;
use cfg_model::Memory;
use elf_image::{ElfError, Fault};
use run_ends::{Unread, write_failure};
use rv_machine::RamError;

/// Why a run wrote no whole trace.
#[derive(Clone, Copy, Debug, PartialEq, Eq)]
pub enum Refusal {
    Usage,
    Malformed(Fault),
    ReadFault,
    WriteFault,
    Memory,
    TooMuch,
}

impl From<ElfError> for Refusal {
    ghost from_gives = { λ e r. r ≡ refusal_of e };

    fn from(e: ElfError) -> Self {
        match e {
            ElfError::Malformed(fault) => Refusal::Malformed(fault),
            ElfError::Memory => Refusal::Memory,
        }
    }
}

impl From<Unread> for Refusal {
    ghost from_gives = { λ e r. r ≡ refusal_of_unread e };

    fn from(e: Unread) -> Self {
        match e {
            Unread::ReadFault => Refusal::ReadFault,
            Unread::TooLarge => Refusal::Malformed(Fault::TooLarge),
            Unread::Memory => Refusal::Memory,
        }
    }
}

impl From<RamError> for Refusal {
    ghost from_gives = { λ e r. r ≡ refusal_of_ram e };

    fn from(e: RamError) -> Self {
        match e {
            RamError::TooMuch => Refusal::TooMuch,
            RamError::Memory => Refusal::Memory,
        }
    }
}

impl From<Memory> for Refusal {
    ghost from_gives = { λ _ r. r ≡ refusals.Memory };

    fn from(_: Memory) -> Self {
        Refusal::Memory
    }
}

impl Refusal {
    /// The status that it ends a run with.
    pub fn status(&self) -> WalkStatus
        ensures { result ≡ status_of self.now }
    {
        match self {
            Refusal::Usage => WalkStatus::Usage,
            Refusal::Malformed(_) => WalkStatus::Malformed,
            Refusal::ReadFault => WalkStatus::ReadFault,
            Refusal::WriteFault => WalkStatus::WriteFault,
            Refusal::Memory => WalkStatus::Memory,
            Refusal::TooMuch => WalkStatus::TooMuch,
        }
    }

    // What its line says after the program's name.
    fn text(&self) -> &'static str
        ensures { result.now ≡ text_of self.now }
    {
        match self {
            Refusal::Usage => "usage: cfg_walk STEPS FILE",
            Refusal::Malformed(_) => "malformed: ",
            Refusal::ReadFault => "read fault",
            Refusal::WriteFault => "write fault",
            Refusal::Memory => "out of memory",
            Refusal::TooMuch => "too much memory asked",
        }
    }

    // The name of the fault, if there is one.
    fn detail(&self) -> &'static str
        ensures { result.now ≡ detail_of self.now }
    {
        match self {
            Refusal::Malformed(fault) => fault.name(),
            _ => "",
        }
    }

    /// Writes its line, without taking memory. If a write fails, a part of the line went out.
    pub fn report<E: Sink>(&self, err: &mut E)
        ensures { Tells (E.written err.old) (E.written err.new)
            (Rose (E.faults err.old) (E.faults err.new)) (refusal_line self.now) }
    {
        write_failure("cfg_walk", self.text(), self.detail(), err);
    }
}
