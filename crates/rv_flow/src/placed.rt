//! The instruction at a code address (RISC-V Unprivileged ISA 20240411, section 1.5, "Base
//! Instruction-Length Encoding", and chapter 26, "C").

ghost use Rattle.std.specs.Prelude.{◌≡◌, IsTrue};
ghost use Rattle.elf_image.specs.Code.{is_code};
ghost use Rattle.elf_image.specs.Faults.{IsImage};
ghost use Rattle.rv_flow.specs.Placed.{placed_at, word_insn, rv64gc_insn, expanded};
ghost use Rattle.rv_flow.specs.Placed.{compressed_insn, whole_insn, float_insn, float_form};
ghost use Rattle.rv_extensions.specs.Forms.{takes_doubles};

use elf_image::{Extensions, Image};
use rv_decode::{Insn, decode};
use rv_extensions::{decode_extension, expand_extension};
use rv_float::{decode_float, expand_float};
use rvc_expand::expand;

/// An instruction in its place.
#[derive(Clone, Copy, Debug, PartialEq, Eq)]
pub struct Placed {
    /// Its length in bytes: 2 or 4.
    pub length: u8,
    /// Its meaning; `None` if the bytes are no instruction of RV64GC, nor of an extension that the
    /// file names. Then the length is 2.
    pub insn: Option<Insn>,
}

/// The instruction at the code address `a`.
///
/// It is one of RV64GC, or of the extensions that the file names. A 16-bit instruction is expanded
/// and then decoded. A 32-bit one needs its four bytes in one code
/// section. Longer forms are none.
pub fn insn_at(image: &Image, a: u64) -> Placed
    requires { IsTrue (is_code image.now a) }
    ensures placed { result ≡ placed_at image.now a }
    ensures image { IsImage image.now }
{
    let bad = Placed {
        length: 2,
        insn: None,
    };
    let Some(half) = image.half_at(a) else {
        return bad;
    };
    if half & 0b11 != 0b11 {
        Placed {
            length: 2,
            insn: compressed_insn(image.extensions(), half),
        }
    } else if half >> 2 & 0b111 == 0b111 {
        bad
    } else {
        match whole_insn(image.extensions(), image.word_at(a)) {
            None => bad,
            insn => Placed { length: 4, insn },
        }
    }
}

// The instruction that a 16-bit form stands for.
pub(crate) fn compressed_insn(extensions: &Extensions, half: u16) -> Option<Insn>
    ensures { result ≡ compressed_insn extensions.now half }
{
    match expanded(extensions, half) {
        None => expand_extension(*extensions, half),
        Some(word) => rv64gc_insn(extensions, word),
    }
}

// The instruction that a whole word is, if the word is there.
fn whole_insn(extensions: &Extensions, word: Option<u32>) -> Option<Insn>
    ensures { result ≡ whole_insn extensions.now word }
{
    word_insn(extensions, word?)
}

// The instruction that a word is by RV64GC, or else by the extensions.
pub(crate) fn word_insn(extensions: &Extensions, word: u32) -> Option<Insn>
    ensures { result ≡ word_insn extensions.now word }
{
    match rv64gc_insn(extensions, word) {
        None => decode_extension(*extensions, word),
        insn => insn,
    }
}

/// The instruction of RV64GC that a word is, by the base table or the float table, as far as the
/// extensions that are named leave it.
pub fn rv64gc_insn(extensions: &Extensions, word: u32) -> Option<Insn>
    ensures { result ≡ rv64gc_insn extensions.now word }
{
    match decode(word) {
        None => float_insn(extensions, word),
        insn => insn,
    }
}

// The instruction of F or D that a word is, unless floats stand in integer registers.
fn float_insn(extensions: &Extensions, word: u32) -> Option<Insn>
    ensures { result ≡ float_insn extensions.now word }
{
    if extensions.zfinx {
        return None;
    }
    decode_float(word)
}

// The word that a halfword stands for in RV64GC, by either table of compressed forms.
pub(crate) fn expanded(extensions: &Extensions, half: u16) -> Option<u32>
    ensures { result ≡ expanded extensions.now half }
{
    match expand(half) {
        None => float_form(extensions, half),
        word => word,
    }
}

// The load or store of a double that it stands for, unless the extensions take these away.
fn float_form(extensions: &Extensions, half: u16) -> Option<u32>
    ensures { result ≡ float_form extensions.now half }
{
    if takes_doubles(extensions) {
        return None;
    }
    expand_float(half)
}

// Whether the compressed loads and stores of doubles are no instructions.
fn takes_doubles(extensions: &Extensions) -> bool
    ensures { result ≡ takes_doubles extensions.now }
{
    extensions.zfinx || extensions.zcmp || extensions.zcmt
}
