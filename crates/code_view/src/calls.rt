//! What a file says of its calls.

ghost use Rattle.std.specs.Prelude.{◌≡◌, ℕ, IfOk, IfErr, Some, None, IsTrue};
ghost use Rattle.elf_image.specs.Faults.{first_fault};
ghost use Rattle.elf_image.specs.Outcome.{IfMalformed};
ghost use Rattle.elf_symbols.specs.NoReturn.{is_no_return};
ghost use Rattle.landing_pads.specs.Pad.{pad_at};

use elf_image::{ElfError, Image};
use elf_symbols::NoReturns;
use landing_pads::Landings;
use std::alloc::Global;
use std::marker::Model;

/// What a file says of its calls: where they land if the callee throws, and which functions do not
/// return. To a contract it is the list of the bytes of the file.
#[derive(Drop)]
pub struct Calls<'a> {
    landings: Landings<'a>,
    no_returns: NoReturns<'a>,
}

impl<'a> Model for Calls<'a> {
    ghost use Rattle.std.specs.Prelude.{List, ℕ, ◌≡◌};

    ghost Value = { List ℕ };

    ghost view = { λ calls. calls.landings };

    ghost invariant = { λ calls. calls.no_returns ≡ calls.landings };
}

impl<'a> Calls<'a> {
    /// What the file says of its calls. `Malformed` names the file's first fault, one of its symbols,
    /// as it does for [`seeds`](elf_symbols::seeds); `Memory` says that memory ran out.
    pub fn of(alloc: Global, image: &'a Image) -> Result<Calls<'a>, ElfError>
        ensures calls { IfOk result (λ calls. calls ≡ image.now) }
        ensures malformed { IfErr result
            (λ e. IfMalformed e (λ f. first_fault image.now ≡ Some f)) }
    {
        let landings = Landings::of(alloc, image)?;
        let no_returns = NoReturns::of(alloc, image)?;
        Ok(Calls {
            landings,
            no_returns,
        })
    }

    /// Whether no call has a landing pad. So a file without exception tables asks for none.
    pub(crate) fn lands_nowhere(&self) -> bool
        ensures { IsTrue result → (last : ℕ) → pad_at self.now last ≡ None }
    {
        self.landings.is_empty()
    }

    /// The landing pad of the call whose last byte stands at `last`, whether or not it is code.
    pub(crate) fn pad(&self, last: u64) -> Option<u64>
        ensures { result ≡ pad_at self.now last }
    {
        self.landings.at(last)
    }

    /// Whether the function at `target` does not return.
    pub(crate) fn ends_at(&self, target: u64) -> bool
        ensures { result ≡ is_no_return self.now target }
    {
        self.no_returns.has(target)
    }
}
