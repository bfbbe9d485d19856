//! Whether control goes straight on after an instruction, by its bytes alone. That depends neither
//! on its address nor on what stands before it.

ghost use Rattle.std.specs.Prelude.{◌≡◌, ◌⊎◌, IfSome, IsSome};
ghost use Rattle.rv_flow.specs.Straight.{IsStraightLength};
ghost use Rattle.rv_flow.specs.Placed.{compressed_insn};
ghost use Rattle.rv_flow.specs.Inner.{goes_on, goes_on_behind, short_goes_on};

use crate::placed::compressed_insn;
use crate::raw::is_unimp;
use crate::straight_words::word_goes_on;
use elf_image::Extensions;
use rv_decode::Insn;
use std::alloc::Global;
use std::marker::Model;

/// How many halfwords there are.
const HALFWORDS: usize = 1 << 16;

/// What is kept of a halfword as a 16-bit instruction.
#[derive(Clone, Copy)]
enum ShortForm {
    /// It was not asked for.
    Unasked,
    /// Control goes straight on after it.
    GoesOn,
    /// Control does not, or it is no instruction.
    Stops,
}

// A byte each, so that all of them are quickly set.
const _: () = prove!(size_of::<ShortForm>() == 1);

/// Instructions after which control goes straight on. Each 16-bit one is decoded when it is first
/// asked for and kept in mind, so that to ask for each halfword of a file takes little time. To a
/// contract they are the extensions by which they are decoded.
#[derive(Drop)]
pub struct StraightForms {
    /// The extensions that the file names.
    extensions: Extensions,
    /// Of each halfword, what was found of it. Empty if memory for it was missing: then each is
    /// decoded anew.
    shorts: Vec<ShortForm>,
}

impl Model for StraightForms {
    ghost use Rattle.elf_image.specs.declared.extensions.Extensions.{Extensions};

    ghost Value = { Extensions };

    ghost view = { λ forms. forms.extensions };

    ghost use Rattle.rv_flow.specs.Inner.{AreTold};

    ghost invariant = { λ forms. AreTold forms.extensions forms.shorts.items };
}

impl StraightForms {
    /// Nothing is decoded yet. It takes 64 KiB of memory; if these are missing, nothing is kept in
    /// mind.
    pub fn new(alloc: Global, extensions: Extensions) -> StraightForms
        ensures { result ≡ extensions }
    {
        let shorts = match vec![in alloc; ShortForm::Unasked; HALFWORDS] {
            Ok(shorts) => shorts,
            Err(_) => Vec::new(alloc),
        };
        StraightForms { extensions, shorts }
    }

    /// The length of the instruction that begins with the halfword `half`, if control goes straight
    /// on after it. `word` are its four bytes, if all of them are there.
    #[inline(always)]
    pub fn length(&mut self, half: u16, word: Option<u32>) -> Option<u8>
        ensures answer { IsStraightLength self.old half word result }
        ensures kept { self.new ≡ self.old }
        ensures bytes { IfSome result (λ n. (n ≡ 2) ⊎ ((n ≡ 4) × IsSome word)) }
    {
        if half & 0b11 != 0b11 {
            self.short_goes_on(half).then_some(2)
        } else if half >> 2 & 0b111 == 0b111 {
            None
        } else {
            word_goes_on(&self.extensions, word?).then_some(4)
        }
    }

    // Whether control goes straight on after a halfword as a 16-bit instruction.
    #[inline(always)]
    fn short_goes_on(&mut self, half: u16) -> bool
        ensures answer { result ≡ short_goes_on self.old half }
        ensures kept { self.new ≡ self.old }
    {
        match self.shorts.get(usize::from(half)) {
            Some(ShortForm::GoesOn) => true,
            Some(ShortForm::Stops) => false,
            _ => self.decode(half),
        }
    }

    // The same, decoded, and kept in mind if there is room for it.
    #[cold]
    #[inline(never)]
    fn decode(&mut self, half: u16) -> bool
        ensures answer { result ≡ short_goes_on self.old half }
        ensures kept { self.new ≡ self.old }
    {
        let goes_on = decoded(&self.extensions, half);
        if let Some(place) = self.shorts.get_mut(usize::from(half)) {
            *place = if goes_on {
                ShortForm::GoesOn
            } else {
                ShortForm::Stops
            };
        }
        goes_on
    }
}

// Whether control goes straight on after a halfword as a 16-bit instruction, which is decoded.
fn decoded(extensions: &Extensions, half: u16) -> bool
    ensures { result ≡ short_goes_on extensions.now half }
{
    goes_on_behind(compressed_insn(extensions, half))
}

// Whether control goes straight on after what is an instruction.
pub(crate) fn goes_on_behind(insn: Option<Insn>) -> bool
    ensures { result ≡ goes_on_behind insn }
{
    match insn {
        None => false,
        Some(insn) => goes_on(insn),
    }
}

// Whether control goes straight on after an instruction, wherever that stands.
fn goes_on(insn: Insn) -> bool
    ensures { result ≡ goes_on insn }
{
    match insn {
        Insn::Jal { .. }
        | Insn::Jalr { .. }
        | Insn::Branch { .. }
        | Insn::Ebreak
        | Insn::Away { .. } => false,
        Insn::Csr {
            kind,
            rd,
            source,
            csr,
        } => !is_unimp(kind, rd, source, csr),
        _ => true,
    }
}
