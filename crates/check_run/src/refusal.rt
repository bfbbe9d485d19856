//! Why a run wrote no whole text, and the line that reports it.

ghost use Rattle.std.specs.Prelude.{◌≡◌};
ghost use Rattle.cfg_io.specs.Fault.{Rose};
ghost use Rattle.check_run.specs.declared.refusal.Refusal.TheVariants as refusals;
ghost use Rattle.check_run.specs.Refusal.{status_of, refusal_of, refusal_of_file};
ghost use Rattle.check_run.specs.Refusal.{refusal_of_certificate, refusal_of_text};
ghost use Rattle.check_run.specs.Refusal.{refusal_of_check};
ghost use Rattle.check_run.specs.Lines.{refusal_line, text_of, detail_of};
ghost use Rattle.run_ends.specs.Told.{Tells};

use crate::status::CheckStatus;
use cert_check::CheckError;
use cert_text::TextError;
use cfg_io::Sink;
use elf_image::{ElfError, Fault};
use run_ends::{Unread, write_failure};

/// Why a run wrote no whole text.
#[derive(Clone, Copy, Debug, PartialEq, Eq)]
pub enum Refusal {
    Usage,
    Malformed(Fault),
    ReadFault,
    WriteFault,
    Memory,
    NoText,
    Refused,
}

impl From<ElfError> for Refusal {
    ghost from_gives = { λ e r. r ≡ refusal_of e };

    fn from(e: ElfError) -> Self {
        match e {
            ElfError::Malformed(fault) => Refusal::Malformed(fault),
            ElfError::Memory => Refusal::Memory,
        }
    }
}

impl From<cfg_model::Memory> for Refusal {
    ghost from_gives = { λ _ r. r ≡ refusals.Memory };

    fn from(_: cfg_model::Memory) -> Self {
        Refusal::Memory
    }
}

impl From<TextError> for Refusal {
    ghost from_gives = { λ e r. r ≡ refusal_of_text e };

    fn from(e: TextError) -> Self {
        match e {
            TextError::NoText => Refusal::NoText,
            TextError::Memory => Refusal::Memory,
        }
    }
}

impl From<CheckError> for Refusal {
    ghost from_gives = { λ e r. r ≡ refusal_of_check e };

    fn from(e: CheckError) -> Self {
        match e {
            CheckError::Refused => Refusal::Refused,
            CheckError::Memory => Refusal::Memory,
        }
    }
}

impl Refusal {
    /// Why a file that was not read is refused.
    pub fn of_file(e: Unread) -> Self
        ensures { result ≡ refusal_of_file e }
    {
        match e {
            Unread::ReadFault => Refusal::ReadFault,
            Unread::TooLarge => Refusal::Malformed(Fault::TooLarge),
            Unread::Memory => Refusal::Memory,
        }
    }

    /// Why a certificate that was not read is refused.
    pub fn of_certificate(e: Unread) -> Self
        ensures { result ≡ refusal_of_certificate e }
    {
        match e {
            Unread::ReadFault => Refusal::ReadFault,
            Unread::TooLarge => Refusal::NoText,
            Unread::Memory => Refusal::Memory,
        }
    }

    /// The status that it ends a run with.
    pub fn status(&self) -> CheckStatus
        ensures { result ≡ status_of self.now }
    {
        match self {
            Refusal::Usage => CheckStatus::Usage,
            Refusal::Malformed(_) => CheckStatus::Malformed,
            Refusal::ReadFault => CheckStatus::ReadFault,
            Refusal::WriteFault => CheckStatus::WriteFault,
            Refusal::Memory => CheckStatus::Memory,
            Refusal::NoText => CheckStatus::NoText,
            Refusal::Refused => CheckStatus::Refused,
        }
    }

    // What its line says after the program's name.
    fn text(&self) -> &'static str
        ensures { result.now ≡ text_of self.now }
    {
        match self {
            Refusal::Usage => "usage: cfg_check make FILE | cfg_check test FILE CERT",
            Refusal::Malformed(_) => "malformed: ",
            Refusal::ReadFault => "read fault",
            Refusal::WriteFault => "write fault",
            Refusal::Memory => "out of memory",
            Refusal::NoText => "no certificate",
            Refusal::Refused => "refused",
        }
    }

    // The name of the fault, if there is one.
    fn detail(&self) -> &'static str
        ensures { result.now ≡ detail_of self.now }
    {
        match self {
            Refusal::Malformed(fault) => fault.name(),
            _ => "",
        }
    }

    /// Writes its line, without taking memory. If a write fails, a part of the line went out.
    pub fn report<E: Sink>(&self, err: &mut E)
        ensures { Tells (E.written err.old) (E.written err.new)
            (Rose (E.faults err.old) (E.faults err.new)) (refusal_line self.now) }
    {
        write_failure("cfg_check", self.text(), self.detail(), err);
    }
}
