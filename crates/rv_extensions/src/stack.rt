//! The 16-bit instructions of Zcmp and Zcmt (RISC-V Unprivileged ISA 20240411, chapter "Zc*"), in
//! the place of C.FSDSP.

ghost use Rattle.std.specs.Prelude.{◌≡◌, ◌⊎◌, ◌≤◌, ◌<◌, ◌^◌, true, bit_or};
ghost use Rattle.rvc_expand.specs.Bits;
ghost use Rattle.rv_extensions.specs.Forms as spec;
ghost use Rattle.rv_extensions.specs.Forms.{extension_form};

use crate::meaning::both;
use elf_image::Extensions;
use rv_decode::{AwayKind, Insn};
use rvc_expand::bits::field;

/// The masks of x1, of x2, of x2 and x10, and of x10 and x11.
const RETURN_ADDRESS: u32 = 1 << 1;

const STACK: u32 = 1 << 2;

const STACK_AND_ZERO: u32 = 1 << 2 | 1 << 10;

const ARGUMENTS: u32 = 1 << 10 | 1 << 11;

/// The instruction of Zcmp or Zcmt that a halfword in the place of C.FSDSP is.
#[tactic(auto, using(crate::proofs::ByStack::other_is))]
pub(crate) fn stack(extensions: Extensions, half: u32) -> Option<Insn>
    requires fits { half < 2 ^ 16 }
    requires quadrant { Bits.field half 1 0 ≡ 2 }
    requires form { Bits.field half 15 13 ≡ 5 }
    ensures { result ≡ extension_form extensions half }
{
    match field(half, 12, 10) {
        0b110 | 0b111 => push_or_pop(extensions, half),
        0b011 => move_two(extensions, half),
        0b000 => jump(extensions, half),
        _ => None,
    }
}

/// CM.PUSH, CM.POP, CM.POPRETZ and CM.POPRET.
#[tactic(auto, using(crate::proofs::ByStack::push_off, crate::proofs::ByStack::pop_off, crate::proofs::ByStack::push_no_list, crate::proofs::ByStack::pop_no_list, crate::proofs::ByStack::push_is, crate::proofs::ByStack::pop_is, crate::proofs::ByStack::popretz_is, crate::proofs::ByStack::popret_is, crate::proofs::ByStack::push_none, crate::proofs::ByStack::pop_none, crate::proofs::ByStack::list_below))]
fn push_or_pop(extensions: Extensions, half: u32) -> Option<Insn>
    requires fits { half < 2 ^ 16 }
    requires quadrant { Bits.field half 1 0 ≡ 2 }
    requires form { Bits.field half 15 13 ≡ 5 }
    requires function { (Bits.field half 12 10 ≡ 6) ⊎ (Bits.field half 12 10 ≡ 7) }
    ensures { result ≡ extension_form extensions half }
{
    if !extensions.zcmp || field(half, 7, 4) < 4 {
        return None;
    }
    let list = listed(field(half, 7, 4));
    match (field(half, 12, 10), field(half, 9, 8)) {
        (0b110, 0b00) => Some(Insn::Extension {
            reads: STACK | list,
            writes: STACK,
        }),
        (0b110, 0b10) => Some(Insn::Extension {
            reads: STACK,
            writes: STACK | list,
        }),
        (0b111, 0b00) => Some(returning(STACK_AND_ZERO | list)),
        (0b111, 0b10) => Some(returning(STACK | list)),
        _ => None,
    }
}

/// An instruction that reads x2, writes some registers and returns.
fn returning(writes: u32) -> Insn
    ensures { result ≡ Insn.Away AwayKind.Return 4 writes }
{
    Insn::Away {
        kind: AwayKind::Return,
        reads: STACK,
        writes,
    }
}

/// CM.MVSA01 and CM.MVA01S.
#[tactic(auto, using(crate::proofs::ByStack::move_off, crate::proofs::ByStack::to_saved, crate::proofs::ByStack::to_same, crate::proofs::ByStack::from_saved, crate::proofs::ByStack::move_none))]
fn move_two(extensions: Extensions, half: u32) -> Option<Insn>
    requires fits { half < 2 ^ 16 }
    requires quadrant { Bits.field half 1 0 ≡ 2 }
    requires form { Bits.field half 15 13 ≡ 5 }
    requires function { Bits.field half 12 10 ≡ 3 }
    ensures { result ≡ extension_form extensions half }
{
    if !extensions.zcmp {
        return None;
    }
    let saved = two_saved(field(half, 9, 7), field(half, 4, 2));
    match field(half, 6, 5) {
        0b01 if field(half, 9, 7) != field(half, 4, 2) => Some(Insn::Extension {
            reads: ARGUMENTS,
            writes: saved,
        }),
        0b11 => Some(Insn::Extension {
            reads: saved,
            writes: ARGUMENTS,
        }),
        _ => None,
    }
}

/// CM.JT and CM.JALT.
#[tactic(auto, using(crate::proofs::ByStack::jump_off, crate::proofs::ByStack::jump_is, crate::proofs::ByStack::call_is, crate::proofs::ByStack::is_high))]
fn jump(extensions: Extensions, half: u32) -> Option<Insn>
    requires fits { half < 2 ^ 16 }
    requires quadrant { Bits.field half 1 0 ≡ 2 }
    requires form { Bits.field half 15 13 ≡ 5 }
    requires function { Bits.field half 12 10 ≡ 0 }
    ensures { result ≡ extension_form extensions half }
{
    if !extensions.zcmt {
        return None;
    }
    if field(half, 9, 7) == 0 {
        return Some(Insn::Away {
            kind: AwayKind::Unknown,
            reads: 0,
            writes: 0,
        });
    }
    Some(Insn::Away {
        kind: AwayKind::Call,
        reads: 0,
        writes: RETURN_ADDRESS,
    })
}

/// The mask of two saved registers by their numbers.
fn two_saved(first: u32, second: u32) -> u32
    requires first { first < 8 }
    requires second { second < 8 }
    ensures { result ≡ spec.two_saved first second }
{
    both(saved_register(first), saved_register(second))
}

/// A saved register by its number of three bits.
fn saved_register(number: u32) -> u8
    requires { number < 8 }
    ensures { result ≡ spec.saved_register number }
{
    if number < 2 {
        number as u8 + 8
    } else {
        number as u8 + 16
    }
}

/// The mask of a list of registers: x1, s0, s1, and from s2 on.
#[tactic(auto, using(crate::proofs::ByStack::list_cases))]
fn listed(list: u32) -> u32
    requires low { 4 ≤ list }
    requires high { list < 16 }
    ensures { result ≡ spec.listed list }
{
    match list {
        4 => 0x0000_0002,
        5 => 0x0000_0102,
        6 => 0x0000_0302,
        7 => 0x0004_0302,
        8 => 0x000c_0302,
        9 => 0x001c_0302,
        10 => 0x003c_0302,
        11 => 0x007c_0302,
        12 => 0x00fc_0302,
        13 => 0x01fc_0302,
        14 => 0x03fc_0302,
        _ => 0x0ffc_0302,
    }
}
