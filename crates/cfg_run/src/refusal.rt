//! Why a run wrote no whole report, and the line that reports it.

ghost use Rattle.std.specs.Prelude.{◌≡◌};
ghost use Rattle.cfg_io.specs.Fault.{Rose};
ghost use Rattle.cfg_run.specs.Refusal.{status_of, refusal_of, refusal_of_words, refusal_of_unread};
ghost use Rattle.cfg_run.specs.declared.refusal.Refusal.TheVariants as refusals;
ghost use Rattle.cfg_run.specs.Lines.{refusal_line, text_of, detail_of};
ghost use Rattle.run_ends.specs.Told.{Tells};

use crate::status::Status;
use cfg_io::Sink;
use cfg_model::Memory;
use cfg_words::WordsError;
use elf_image::{ElfError, Fault};
use run_ends::{Unread, write_failure};

/// Why a run wrote no whole report.
#[derive(Clone, Copy, Debug, PartialEq, Eq)]
pub enum Refusal {
    Usage,
    Malformed(Fault),
    ReadFault,
    WriteFault,
    Memory,
}

impl From<ElfError> for Refusal {
    ghost from_gives = { λ e r. r ≡ refusal_of e };

    fn from(e: ElfError) -> Self {
        match e {
            ElfError::Malformed(fault) => Refusal::Malformed(fault),
            ElfError::Memory => Refusal::Memory,
        }
    }
}

impl From<Unread> for Refusal {
    ghost from_gives = { λ e r. r ≡ refusal_of_unread e };

    fn from(e: Unread) -> Self {
        match e {
            Unread::ReadFault => Refusal::ReadFault,
            Unread::TooLarge => Refusal::Malformed(Fault::TooLarge),
            Unread::Memory => Refusal::Memory,
        }
    }
}

impl From<Memory> for Refusal {
    ghost from_gives = { λ _ r. r ≡ refusals.Memory };

    fn from(_: Memory) -> Self {
        Refusal::Memory
    }
}

impl From<WordsError> for Refusal {
    ghost from_gives = { λ e r. r ≡ refusal_of_words e };

    fn from(e: WordsError) -> Self {
        match e {
            WordsError::Usage => Refusal::Usage,
            WordsError::Memory => Refusal::Memory,
        }
    }
}

impl Refusal {
    /// The status that it ends a run with.
    pub fn status(&self) -> Status
        ensures { result ≡ status_of self.now }
    {
        match self {
            Refusal::Usage => Status::Usage,
            Refusal::Malformed(_) => Status::Malformed,
            Refusal::ReadFault => Status::ReadFault,
            Refusal::WriteFault => Status::WriteFault,
            Refusal::Memory => Status::Memory,
        }
    }

    // What its line says after the program's name.
    fn text(&self) -> &'static str
        ensures { result.now ≡ text_of self.now }
    {
        match self {
            Refusal::Usage => {
                "usage: cfg [--workers N] [--report KIND] FILE | cfg [--workers N] --make N"
            }
            Refusal::Malformed(_) => "malformed: ",
            Refusal::ReadFault => "read fault",
            Refusal::WriteFault => "write fault",
            Refusal::Memory => "out of memory",
        }
    }

    // The name of the fault, if there is one.
    fn detail(&self) -> &'static str
        ensures { result.now ≡ detail_of self.now }
    {
        match self {
            Refusal::Malformed(fault) => fault.name(),
            _ => "",
        }
    }

    /// Writes its line, without taking memory. If a write fails, a part of the line went out.
    pub fn report<E: Sink>(&self, err: &mut E)
        ensures { Tells (E.written err.old) (E.written err.new)
            (Rose (E.faults err.old) (E.faults err.new)) (refusal_line self.now) }
    {
        write_failure("cfg", self.text(), self.detail(), err);
    }
}
