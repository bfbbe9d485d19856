//! The instruction of RV64GC at a code address, as far as the extensions that the file names leave
//! it.

ghost use Rattle.std.specs.Prelude.{◌≡◌, IsTrue};
ghost use Rattle.std.specs.Option.{option_and_then};
ghost use Rattle.elf_image.specs.Code.{is_code};
ghost use Rattle.rv_flow.specs.Placed.{expanded, rv64gc_insn};
ghost use Rattle.rv_flow.specs.Rv64gc.{rv64gc_half, rv64gc_placed_at};

use crate::placed::{Placed, expanded, rv64gc_insn};
use elf_image::{Extensions, Image};
use rv_decode::Insn;

/// The instruction of RV64GC at the code address `a`, as [`insn_at`](crate::insn_at) places it.
pub fn rv64gc_insn_at(image: &Image, a: u64) -> Placed
    requires { IsTrue (is_code image.now a) }
    ensures { result ≡ rv64gc_placed_at image.now a }
{
    let bad = Placed {
        length: 2,
        insn: None,
    };
    let Some(half) = image.half_at(a) else {
        return bad;
    };
    if half & 0b11 != 0b11 {
        Placed {
            length: 2,
            insn: rv64gc_half(image.extensions(), half),
        }
    } else if half >> 2 & 0b111 == 0b111 {
        bad
    } else {
        match rv64gc_whole(image.extensions(), image.word_at(a)) {
            None => bad,
            insn => Placed { length: 4, insn },
        }
    }
}

/// The word that a halfword stands for, by either table of compressed forms, as far as the
/// extensions that are named leave them.
pub fn rv64gc_word(extensions: &Extensions, half: u16) -> Option<u32>
    ensures { result ≡ expanded extensions.now half }
{
    expanded(extensions, half)
}

// The instruction that a 16-bit form stands for.
fn rv64gc_half(extensions: &Extensions, half: u16) -> Option<Insn>
    ensures { result ≡ rv64gc_half extensions.now half }
{
    rv64gc_insn(extensions, expanded(extensions, half)?)
}

// The instruction that a whole word is, if the word is there.
fn rv64gc_whole(extensions: &Extensions, word: Option<u32>) -> Option<Insn>
    ensures { result ≡ option_and_then (rv64gc_insn extensions.now) word }
{
    rv64gc_insn(extensions, word?)
}
