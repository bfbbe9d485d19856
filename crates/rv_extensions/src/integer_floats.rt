//! Floats in integer registers (RISC-V Unprivileged ISA 20240411, chapter "Zfinx, Zdinx, Zhinx,
//! Zhinxmin").

ghost use Rattle.std.specs.Prelude.{◌≡◌, ◌⊎◌, ◌==◌, ◌&&◌, ◌||◌, if◌then◌else◌, Some, None, [], ◌∷◌, true};
ghost use Rattle.rv_decode.specs.Fields.{opcode};
ghost use Rattle.rv_decode.specs.Fields;
ghost use Rattle.rv_float.specs.Table.{is_among};
ghost use Rattle.rv_extensions.specs.Rows.{meets};
ghost use Rattle.rv_extensions.specs.Registers as registers;
ghost use Rattle.rv_extensions.specs.Table as table;
ghost use Rattle.rv_extensions.specs.IntegerFloats as spec;

use crate::meaning::{binary, from_rs1, fused, to_rd, unary};
use elf_image::Extensions;
use rv_decode::Insn;
use rv_decode::fields::{funct3, funct6, funct7, opcode, rs1, rs2};
use rvc_expand::bits::field;

// The major opcodes, by the ISA manual's names.
const MADD: u8 = 0x43;

const MSUB: u8 = 0x47;

const NMSUB: u8 = 0x4b;

const NMADD: u8 = 0x4f;

const OP_FP: u8 = 0x53;

const OP_V: u8 = 0x57;

/// The operation on floats in integer registers that a word is, if the file names these.
#[tactic(auto, using(crate::proofs::IntegerBy::not_named, crate::proofs::IntegerBy::other_is))]
pub(crate) fn integer_float(extensions: Extensions, word: u32) -> Option<Insn>
    ensures { result ≡ spec.integer_float extensions word }
{
    if !extensions.zfinx {
        return None;
    }
    match opcode(word) {
        MADD | MSUB | NMSUB | NMADD => fused_operation(extensions, word),
        OP_FP => operation(extensions, word),
        OP_V => scalar(extensions, word),
        _ => None,
    }
}

/// A fused multiplication and addition, by its format.
#[tactic(auto, using(crate::proofs::IntegerBy::fused_43, crate::proofs::IntegerBy::fused_47, crate::proofs::IntegerBy::fused_4b, crate::proofs::IntegerBy::fused_4f))]
fn fused_operation(extensions: Extensions, word: u32) -> Option<Insn>
    requires named { extensions.zfinx ≡ true }
    requires code { (opcode word ≡ 0x43) ⊎ (opcode word ≡ 0x47) ⊎ (opcode word ≡ 0x4B)
        ⊎ (opcode word ≡ 0x4F) }
    ensures { result ≡ spec.integer_float extensions word }
{
    three(word, rounds(word) && has_format(extensions, word))
}

/// The operations under one opcode, by `funct7`.
#[tactic(auto, using(crate::proofs::IntegerBy::at_00, crate::proofs::IntegerBy::at_01, crate::proofs::IntegerBy::at_02, crate::proofs::IntegerBy::at_04, crate::proofs::IntegerBy::at_05, crate::proofs::IntegerBy::at_06, crate::proofs::IntegerBy::at_08, crate::proofs::IntegerBy::at_09, crate::proofs::IntegerBy::at_0a, crate::proofs::IntegerBy::at_0c, crate::proofs::IntegerBy::at_0d, crate::proofs::IntegerBy::at_0e, crate::proofs::IntegerBy::at_10, crate::proofs::IntegerBy::at_11, crate::proofs::IntegerBy::at_12, crate::proofs::IntegerBy::at_14, crate::proofs::IntegerBy::at_15, crate::proofs::IntegerBy::at_16, crate::proofs::IntegerBy::at_20, crate::proofs::IntegerBy::at_21, crate::proofs::IntegerBy::at_22, crate::proofs::IntegerBy::at_2c, crate::proofs::IntegerBy::at_2d, crate::proofs::IntegerBy::at_2e, crate::proofs::IntegerBy::at_50, crate::proofs::IntegerBy::at_51, crate::proofs::IntegerBy::at_52, crate::proofs::IntegerBy::at_60, crate::proofs::IntegerBy::at_61, crate::proofs::IntegerBy::at_62, crate::proofs::IntegerBy::at_68, crate::proofs::IntegerBy::at_69, crate::proofs::IntegerBy::at_6a, crate::proofs::IntegerBy::at_70, crate::proofs::IntegerBy::at_71, crate::proofs::IntegerBy::at_72, crate::proofs::IntegerBy::at_none))]
fn operation(extensions: Extensions, word: u32) -> Option<Insn>
    requires named { extensions.zfinx ≡ true }
    requires code { opcode word ≡ 0x53 }
    ensures { result ≡ spec.integer_float extensions word }
{
    let halves = extensions.zhinx;
    match funct7(word) {
        0x00 | 0x01 | 0x04 | 0x05 => two(word, rounds(word)),
        0x08 | 0x09 | 0x0c | 0x0d => two(word, rounds(word)),
        0x02 | 0x06 | 0x0a | 0x0e => two(word, rounds(word) && halves),
        0x2c | 0x2d => one(word, rs2(word) == 0 && rounds(word)),
        0x2e => one(word, rs2(word) == 0 && rounds(word) && halves),
        0x20 => one(word, rounds(word) && to_single(extensions, word)),
        0x21 => one(word, rounds(word) && to_double(extensions, word)),
        0x22 => one(word, rounds(word) && to_half(extensions, word)),
        0x10 | 0x11 | 0x50 | 0x51 => two(word, is_one_of_three(word)),
        0x12 | 0x52 => two(word, is_one_of_three(word) && halves),
        0x14 | 0x15 => two(word, is_one_of_two(word)),
        0x16 => two(word, is_one_of_two(word) && halves),
        0x60 | 0x61 | 0x68 | 0x69 => one(word, converts(word)),
        0x62 | 0x6a => one(word, converts(word) && halves),
        0x70 | 0x71 => one(word, rs2(word) == 0 && funct3(word) == 1),
        0x72 => one(word, rs2(word) == 0 && funct3(word) == 1 && halves),
        _ => None,
    }
}

/// A vector operation with a scalar: OPFVF, and VFMV.F.S.
#[tactic(auto, using(crate::proofs::IntegerBy::scalar_off, crate::proofs::IntegerBy::scalar_5, crate::proofs::IntegerBy::scalar_1, crate::proofs::IntegerBy::scalar_none))]
fn scalar(extensions: Extensions, word: u32) -> Option<Insn>
    requires named { extensions.zfinx ≡ true }
    requires code { opcode word ≡ 0x57 }
    ensures { result ≡ spec.integer_float extensions word }
{
    if !extensions.vector {
        return None;
    }
    match funct3(word) {
        5 => Some(from_rs1(word)),
        1 => (funct6(word) == 0b01_0000 && rs1(word) == 0).then_some(to_rd(word)),
        _ => None,
    }
}

/// Whether a rounding mode stands in `funct3`.
fn rounds(word: u32) -> bool
    ensures { result ≡ meets word table.rounds }
{
    matches!(funct3(word), 0..=4 | 7)
}

/// Whether a fused operation has a format that is named.
fn has_format(extensions: Extensions, word: u32) -> bool
    ensures { result ≡ (is_among (0 ∷ 1 ∷ []) (Fields.field word 26 25)
        || (Fields.field word 26 25 == 2 && extensions.zhinx)) }
{
    is_single_or_double(word) || field(word, 26, 25) == 2 && extensions.zhinx
}

/// Whether a fused operation is of single or double precision.
fn is_single_or_double(word: u32) -> bool
    ensures { result ≡ is_among (0 ∷ 1 ∷ []) (Fields.field word 26 25) }
{
    matches!(field(word, 26, 25), 0 | 1)
}

/// Whether `funct3` tells one of three operations.
fn is_one_of_three(word: u32) -> bool
    ensures { result ≡ is_among (0 ∷ 1 ∷ 2 ∷ []) (Fields.funct3 word) }
{
    matches!(funct3(word), 0 | 1 | 2)
}

/// Whether it tells one of two.
fn is_one_of_two(word: u32) -> bool
    ensures { result ≡ is_among (0 ∷ 1 ∷ []) (Fields.funct3 word) }
{
    matches!(funct3(word), 0 | 1)
}

/// Whether `rs2` names a format of integers, W, WU, L or LU, and a rounding mode stands in
/// `funct3`.
fn converts(word: u32) -> bool
    ensures { result ≡ (is_among spec.to_or_from (Fields.rs2 word) && meets word table.rounds) }
{
    rs2(word) <= 3 && rounds(word)
}

/// Whether `rs2` tells a conversion from half precision, if these are named.
fn from_half(extensions: Extensions, word: u32) -> bool
    ensures { result ≡ (Fields.rs2 word == 2 && (extensions.zhinx || extensions.zhinxmin)) }
{
    rs2(word) == 2 && (extensions.zhinx || extensions.zhinxmin)
}

/// Whether it tells a conversion to single precision, and one to double precision.
fn to_single(extensions: Extensions, word: u32) -> bool
    ensures { result ≡ (Fields.rs2 word == 1
        || (Fields.rs2 word == 2 && (extensions.zhinx || extensions.zhinxmin))) }
{
    rs2(word) == 1 || from_half(extensions, word)
}

fn to_double(extensions: Extensions, word: u32) -> bool
    ensures { result ≡ (Fields.rs2 word == 0
        || (Fields.rs2 word == 2 && (extensions.zhinx || extensions.zhinxmin))) }
{
    rs2(word) == 0 || from_half(extensions, word)
}

/// Whether it tells one to half precision.
fn to_half(extensions: Extensions, word: u32) -> bool
    ensures { result ≡ (is_among (0 ∷ 1 ∷ []) (Fields.rs2 word)
        && (extensions.zhinx || extensions.zhinxmin)) }
{
    matches!(rs2(word), 0 | 1) && (extensions.zhinx || extensions.zhinxmin)
}

/// An operation on three registers, if the word `fits` it.
fn three(word: u32, fits: bool) -> Option<Insn>
    ensures { result ≡ if fits then Some (registers.fused word) else None }
{
    fits.then_some(fused(word))
}

/// An operation on one register, if the word `fits` it.
fn one(word: u32, fits: bool) -> Option<Insn>
    ensures { result ≡ if fits then Some (registers.unary word) else None }
{
    fits.then_some(unary(word))
}

/// An operation on two registers, if the word `fits` it.
fn two(word: u32, fits: bool) -> Option<Insn>
    ensures { result ≡ if fits then Some (registers.binary word) else None }
{
    fits.then_some(binary(word))
}
