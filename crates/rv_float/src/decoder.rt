//! From a word to its instruction: a branch on the opcode, and then on the other fields that the
//! rows of the opcode name.

ghost use Rattle.std.specs.Prelude.{◌≡◌, ◌⊎◌, ◌==◌, ◌&&◌, if◌then◌else◌, Some, None, [], ◌∷◌};
ghost use Rattle.rv_decode.specs.Fields.{opcode, funct3, rs2};
ghost use Rattle.rv_float.specs.Table as table;
ghost use Rattle.rv_float.specs.Table.{float_instruction, first_meaning, operation_rows, is_among};
ghost use Rattle.rv_float.specs.Table.{precision};

use rv_decode::Insn;
use rv_decode::fields::{funct3, funct7, opcode, rd, rs1, rs2};

// The major opcodes, by the ISA manual's names.
const LOAD_FP: u8 = 0x07;

const STORE_FP: u8 = 0x27;

const MADD: u8 = 0x43;

const MSUB: u8 = 0x47;

const NMSUB: u8 = 0x4b;

const NMADD: u8 = 0x4f;

const OP_FP: u8 = 0x53;

/// The instruction of the F or D extension that a 32-bit word encodes (RISC-V Unprivileged ISA
/// 20240411, chapters 21 and 22), or `None` if no row of the table holds of the word.
///
/// Whether the word's length is 32 bits is not asked: each row's opcode ends in 11, and none ends
/// in
/// 11111.
#[tactic(auto, using(crate::proofs::ByOpcode::load_is, crate::proofs::ByOpcode::store_is, crate::proofs::ByOpcode::madd_is, crate::proofs::ByOpcode::msub_is, crate::proofs::ByOpcode::nmsub_is, crate::proofs::ByOpcode::nmadd_is, crate::proofs::ByOpcode::operation_is, crate::proofs::ByOpcode::other_is))]
pub fn decode_float(word: u32) -> Option<Insn>
    ensures { result ≡ float_instruction word }
{
    match opcode(word) {
        LOAD_FP | STORE_FP => from_integer(word, matches!(funct3(word), 2 | 3)),
        MADD | MSUB | NMSUB | NMADD => within(is_single_or_double(word) && rounds(word)),
        OP_FP => operation(word),
        _ => None,
    }
}

/// The operations under one opcode, by `funct7`.
#[tactic(auto, using(crate::proofs::ByOpcode::from_integer_to_single, crate::proofs::ByOpcode::from_integer_to_double), unfolding(crate::specs::Table::operation_rows))]
fn operation(word: u32) -> Option<Insn>
    requires { opcode word ≡ OP_FP }
    ensures { result ≡ first_meaning operation_rows word }
{
    match funct7(word) {
        0x00 | 0x01 | 0x04 | 0x05 | 0x08 | 0x09 | 0x0c | 0x0d => within(rounds(word)),
        0x2c | 0x2d | 0x21 => within(rs2(word) == 0 && rounds(word)),
        0x20 => within(rs2(word) == 1 && rounds(word)),
        0x10 | 0x11 => within(funct3(word) <= 2),
        0x14 | 0x15 => within(is_one_of_two(word)),
        0x50 | 0x51 => to_integer(word, funct3(word) <= 2),
        0x60 | 0x61 => to_integer(word, converts(word)),
        0x70 | 0x71 => to_integer(word, rs2(word) == 0 && is_one_of_two(word)),
        0x68 | 0x69 => from_integer(word, converts(word)),
        0x78 | 0x79 => from_integer(word, rs2(word) == 0 && funct3(word) == 0),
        _ => None,
    }
}

/// Whether a rounding mode stands in `funct3`.
fn rounds(word: u32) -> bool
    ensures { result ≡ table.rounds word }
{
    matches!(funct3(word), 0..=4 | 7)
}

/// Whether `rs2` names a format of integers, W, WU, L or LU, and a rounding mode stands in
/// `funct3`.
fn converts(word: u32) -> bool
    ensures { result ≡ (is_among (0 ∷ 1 ∷ 2 ∷ 3 ∷ []) (rs2 word) && table.rounds word) }
{
    rs2(word) <= 3 && rounds(word)
}

/// Whether `funct3` tells one of two operations.
fn is_one_of_two(word: u32) -> bool
    ensures { result ≡ is_among (0 ∷ 1 ∷ []) (funct3 word) }
{
    funct3(word) <= 1
}

/// Whether a fused operation is of single or double precision.
fn is_single_or_double(word: u32) -> bool
    ensures { result ≡ is_among (0 ∷ 1 ∷ []) (precision word) }
{
    (word >> 25 & 0b11) <= 1
}

/// An operation that uses no integer register, if the word `fits` it.
fn within(fits: bool) -> Option<Insn>
    ensures { result ≡ if fits then Some (Insn.Float 0 0) else None }
{
    fits.then_some(Insn::Float {
        writes: 0,
        reads: 0,
    })
}

/// One that writes an integer register.
fn to_integer(word: u32, fits: bool) -> Option<Insn>
    ensures { result ≡ if fits then Some (table.to_integer word) else None }
{
    fits.then_some(Insn::Float {
        writes: rd(word),
        reads: 0,
    })
}

/// One that reads an integer register.
fn from_integer(word: u32, fits: bool) -> Option<Insn>
    ensures { result ≡ if fits then Some (table.from_integer word) else None }
{
    fits.then_some(Insn::Float {
        writes: 0,
        reads: rs1(word),
    })
}
