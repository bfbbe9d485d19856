//! The 16-bit instructions of the extensions, here those of Zcb and Zcmop (RISC-V Unprivileged ISA 20240411, chapters "Zc*" and
//! "Zimop").

ghost use Rattle.std.specs.Prelude.{◌≡◌, ◌<◌, ◌^◌, true, pos};
ghost use Rattle.rvc_expand.specs.Bits;
ghost use Rattle.rvc_expand.specs.Halfword;
ghost use Rattle.rv_extensions.specs.Forms;
ghost use Rattle.rv_extensions.specs.Forms.{extension_form};

use crate::meaning::only;
use crate::stack::stack;
use elf_image::Extensions;
use rv_decode::{ExtendKind, ImmKind, Insn, LoadKind, RegKind, StoreKind};
use rvc_expand::bits::field;
use rvc_expand::halfword::{first_popular, first_register, second_popular};

/// The instruction that the 16-bit instruction `half` stands for by the `extensions` that a file
/// names, or `None` if no form of them holds of the halfword.
#[tactic(auto, using(crate::proofs::ByForm::quadrant_0_none, crate::proofs::ByForm::quadrant_1_none, crate::proofs::ByForm::quadrant_2_none, crate::proofs::ByForm::quadrant_none))]
pub fn expand_extension(extensions: Extensions, half: u16) -> Option<Insn>
    ensures { result ≡ extension_form extensions half }
{
    let half = u32::from(half);
    match (field(half, 1, 0), field(half, 15, 13)) {
        (0b00, 0b100) => memory(extensions, half),
        (0b01, 0b100) => arithmetic(extensions, half),
        (0b01, 0b011) => may_be(extensions, half),
        (0b10, 0b101) => stack(extensions, half),
        _ => None,
    }
}

/// Loads and stores of bytes and halfwords: C.LBU, C.LHU, C.LH, C.SB and C.SH.
#[tactic(auto, using(crate::proofs::ByForm::memory_off, crate::proofs::ByForm::load_byte, crate::proofs::ByForm::load_half, crate::proofs::ByForm::load_signed, crate::proofs::ByForm::store_byte, crate::proofs::ByForm::store_half, crate::proofs::ByForm::store_none, crate::proofs::ByForm::memory_none, crate::proofs::ByForm::bit_6))]
fn memory(extensions: Extensions, half: u32) -> Option<Insn>
    requires fits { half < 2 ^ 16 }
    requires quadrant { Bits.field half 1 0 ≡ 0 }
    requires form { Bits.field half 15 13 ≡ 4 }
    ensures { result ≡ extension_form extensions half }
{
    if !extensions.zcb {
        return None;
    }
    match (field(half, 12, 10), field(half, 6, 6)) {
        (0, _) => Some(load(LoadKind::Lbu, half, byte_offset(half))),
        (1, 0) => Some(load(LoadKind::Lhu, half, half_offset(half))),
        (1, _) => Some(load(LoadKind::Lh, half, half_offset(half))),
        (2, _) => Some(store(StoreKind::Sb, half, byte_offset(half))),
        (3, 0) => Some(store(StoreKind::Sh, half, half_offset(half))),
        _ => None,
    }
}

/// Arithmetic on a register: the extensions of numbers, C.NOT and C.MUL.
#[tactic(auto, using(crate::proofs::ByForm::no_bit_12, crate::proofs::ByForm::no_arithmetic, crate::proofs::ByForm::arithmetic_off, crate::proofs::ByForm::multiply, crate::proofs::ByForm::zext_b, crate::proofs::ByForm::sext_b, crate::proofs::ByForm::zext_h, crate::proofs::ByForm::sext_h, crate::proofs::ByForm::zext_w, crate::proofs::ByForm::not_is, crate::proofs::ByForm::unary_none, crate::proofs::ByForm::arithmetic_none))]
fn arithmetic(extensions: Extensions, half: u32) -> Option<Insn>
    requires fits { half < 2 ^ 16 }
    requires quadrant { Bits.field half 1 0 ≡ 1 }
    requires form { Bits.field half 15 13 ≡ 4 }
    ensures { result ≡ extension_form extensions half }
{
    if !extensions.zcb || field(half, 12, 12) != 1 || field(half, 11, 10) != 0b11 {
        return None;
    }
    let register = first_popular(half) as u8;
    match (field(half, 6, 5), field(half, 4, 2)) {
        (0b10, _) => Some(Insn::Reg {
            kind: RegKind::Mul,
            rd: register,
            rs1: register,
            rs2: second_popular(half) as u8,
        }),
        (0b11, 0) => Some(immediate(ImmKind::Andi, register, 0xff)),
        (0b11, 1) => extensions
            .zbb
            .then_some(extend(ExtendKind::SextB, register)),
        (0b11, 2) => extensions
            .zbb
            .then_some(extend(ExtendKind::ZextH, register)),
        (0b11, 3) => extensions
            .zbb
            .then_some(extend(ExtendKind::SextH, register)),
        (0b11, 4) => extensions.zba.then_some(extend_word(register)),
        (0b11, 5) => Some(immediate(ImmKind::Xori, register, -1)),
        _ => None,
    }
}

/// C.MOP.n: C.LUI with the immediate 0, of an odd register below x16, which it reads.
#[tactic(auto, using(crate::proofs::ByForm::may_be_is))]
fn may_be(extensions: Extensions, half: u32) -> Option<Insn>
    requires fits { half < 2 ^ 16 }
    requires quadrant { Bits.field half 1 0 ≡ 1 }
    requires form { Bits.field half 15 13 ≡ 3 }
    ensures { result ≡ extension_form extensions half }
{
    let is_low = field(half, 12, 12) == 0 && field(half, 11, 11) == 0;
    let is_form = is_low && field(half, 7, 7) == 1 && field(half, 6, 2) == 0;
    (is_form && extensions.zcmop).then_some(Insn::Extension {
        reads: only(first_register(half) as u8),
        writes: 0,
    })
}

/// A load of the kind at the offset.
fn load(kind: LoadKind, half: u32, offset: u32) -> Insn
    ensures { result ≡ Insn.Load kind (Halfword.second_popular half) (Halfword.first_popular half) (pos offset) }
{
    Insn::Load {
        kind,
        rd: second_popular(half) as u8,
        rs1: first_popular(half) as u8,
        imm: i64::from(offset),
    }
}

/// A store of the kind at the offset.
fn store(kind: StoreKind, half: u32, offset: u32) -> Insn
    ensures { result ≡ Insn.Store kind (Halfword.first_popular half) (Halfword.second_popular half) (pos offset) }
{
    Insn::Store {
        kind,
        rs1: first_popular(half) as u8,
        rs2: second_popular(half) as u8,
        imm: i64::from(offset),
    }
}

/// An operation on a register and an immediate.
fn immediate(kind: ImmKind, register: u8, imm: i64) -> Insn
    ensures { result ≡ Insn.Imm kind register register imm }
{
    Insn::Imm {
        kind,
        rd: register,
        rs1: register,
        imm,
    }
}

/// The extension of a byte or a halfword in a register.
fn extend(kind: ExtendKind, register: u8) -> Insn
    ensures { result ≡ Insn.Extend kind register register }
{
    Insn::Extend {
        kind,
        rd: register,
        rs1: register,
    }
}

/// The zero extension of the low 32 bits of a register.
fn extend_word(register: u8) -> Insn
    ensures { result ≡ Insn.ShiftAdd 0 true register register 0 }
{
    Insn::ShiftAdd {
        shift: 0,
        zero_extended: true,
        rd: register,
        rs1: register,
        rs2: 0,
    }
}

/// The offset of a byte, 0 to 3.
fn byte_offset(half: u32) -> u32
    ensures { result ≡ Forms.byte_offset half }
{
    field(half, 6, 6) + field(half, 5, 5) * 2
}

/// The offset of a halfword, 0 or 2.
fn half_offset(half: u32) -> u32
    ensures { result ≡ Forms.half_offset half }
{
    field(half, 5, 5) * 2
}
