//! Floating point beyond single and double precision (RISC-V Unprivileged ISA 20240411, chapters
//! "Zfh", "Zfa" and "BF16"), and the vector loads and stores that share its opcodes.

ghost use Rattle.std.specs.Prelude.{◌≡◌, ◌⊎◌, ◌==◌, ◌&&◌, ◌||◌, if◌then◌else◌, Some, None, [], ◌∷◌};
ghost use Rattle.rv_decode.specs.Fields.{opcode};
ghost use Rattle.rv_decode.specs.Fields;
ghost use Rattle.rv_float.specs.Table.{is_among};
ghost use Rattle.rv_extensions.specs.Rows.{meets};
ghost use Rattle.rv_extensions.specs.Registers as registers;
ghost use Rattle.rv_extensions.specs.Table.{extension_instruction};
ghost use Rattle.rv_extensions.specs.Table as table;

use crate::meaning::{from_rs1, to_rd, vector_memory, without};
use elf_image::Extensions;
use rv_decode::Insn;
use rv_decode::fields::{funct3, funct7, rs2};
use rvc_expand::bits::field;

/// A load of a half, or of vectors.
pub(crate) fn load(extensions: Extensions, word: u32) -> Option<Insn>
    requires { opcode word ≡ 0x07 }
    ensures { result ≡ extension_instruction extensions word }
{
    memory(extensions, word)
}

/// A store of a half, or of vectors.
pub(crate) fn store(extensions: Extensions, word: u32) -> Option<Insn>
    requires { opcode word ≡ 0x27 }
    ensures { result ≡ extension_instruction extensions word }
{
    memory(extensions, word)
}

/// Either, by the width in `funct3`.
#[tactic(auto, using(crate::proofs::ByOpcode::load_cases_00, crate::proofs::ByOpcode::load_cases_01, crate::proofs::ByOpcode::load_cases_05, crate::proofs::ByOpcode::load_cases_06, crate::proofs::ByOpcode::load_cases_07, crate::proofs::ByOpcode::load_cases_none, crate::proofs::ByOpcode::store_cases_00, crate::proofs::ByOpcode::store_cases_01, crate::proofs::ByOpcode::store_cases_05, crate::proofs::ByOpcode::store_cases_06, crate::proofs::ByOpcode::store_cases_07, crate::proofs::ByOpcode::store_cases_none))]
fn memory(extensions: Extensions, word: u32) -> Option<Insn>
    requires { (opcode word ≡ 0x07) ⊎ (opcode word ≡ 0x27) }
    ensures { result ≡ extension_instruction extensions word }
{
    match funct3(word) {
        1 => from_integer(word, moves_halves(extensions)),
        0 | 5 | 6 | 7 => extensions.vector.then_some(vector_memory(word)),
        _ => None,
    }
}

/// A fused multiplication and addition of half precision.
#[tactic(auto, using(crate::proofs::ByOpcode::fused_cases_43, crate::proofs::ByOpcode::fused_cases_47, crate::proofs::ByOpcode::fused_cases_4B, crate::proofs::ByOpcode::fused_cases_4F))]
pub(crate) fn fused(extensions: Extensions, word: u32) -> Option<Insn>
    requires { (opcode word ≡ 0x43) ⊎ (opcode word ≡ 0x47) ⊎ (opcode word ≡ 0x4B)
        ⊎ (opcode word ≡ 0x4F) }
    ensures { result ≡ extension_instruction extensions word }
{
    within(field(word, 26, 25) == 2 && rounds(word) && extensions.zfh)
}

/// The operations under one opcode, by `funct7`.
#[tactic(auto, using(crate::proofs::ByOpcode::float_cases_02, crate::proofs::ByOpcode::float_cases_06, crate::proofs::ByOpcode::float_cases_0a, crate::proofs::ByOpcode::float_cases_0e, crate::proofs::ByOpcode::float_cases_12, crate::proofs::ByOpcode::float_cases_14, crate::proofs::ByOpcode::float_cases_15, crate::proofs::ByOpcode::float_cases_16, crate::proofs::ByOpcode::to_single, crate::proofs::ByOpcode::to_double, crate::proofs::ByOpcode::to_half, crate::proofs::ByOpcode::float_cases_2e, crate::proofs::ByOpcode::float_cases_50, crate::proofs::ByOpcode::float_cases_51, crate::proofs::ByOpcode::float_cases_52, crate::proofs::ByOpcode::float_cases_61, crate::proofs::ByOpcode::float_cases_62, crate::proofs::ByOpcode::float_cases_6a, crate::proofs::ByOpcode::float_cases_78, crate::proofs::ByOpcode::float_cases_79, crate::proofs::ByOpcode::float_cases_none))]
pub(crate) fn operation(extensions: Extensions, word: u32) -> Option<Insn>
    requires { opcode word ≡ 0x53 }
    ensures { result ≡ extension_instruction extensions word }
{
    let Extensions {
        zfh,
        zfa,
        zfbfmin,
        ..
    } = extensions;
    match funct7(word) {
        0x02 | 0x06 | 0x0a | 0x0e => within(rounds(word) && zfh),
        0x2e => within(rs2(word) == 0 && rounds(word) && zfh),
        0x12 => within(funct3(word) <= 2 && zfh),
        0x14 | 0x15 => within(is_by_number(word) && zfa),
        0x16 => within((is_least_or_greatest(word) || is_by_number(word) && zfa) && zfh),
        0x20 => {
            within(rounds(word) && (rs2(word) == 6 && zfbfmin || converts(extensions, word)))
        }
        0x21 => within(rounds(word) && converts(extensions, word)),
        0x22 => within(rounds(word) && converts_to_half(extensions, word)),
        0x50 | 0x51 => to_integer(word, is_quiet(word) && zfa),
        0x52 => to_integer(word, (is_comparison(word) || is_quiet(word) && zfa) && zfh),
        0x61 => to_integer(word, rs2(word) == 8 && funct3(word) == 1 && zfa),
        0x62 => to_integer(word, converts_integer(word) && zfh),
        0x6a => from_integer(word, converts_integer(word) && zfh),
        0x72 => half_to_integer(extensions, word),
        0x78 | 0x79 => within(rs2(word) == 1 && funct3(word) == 0 && zfa),
        0x7a => integer_to_half(extensions, word),
        _ => None,
    }
}

/// FMV.X.H and FCLASS.H.
#[tactic(auto, using(crate::proofs::ByOpcode::float_cases_72))]
fn half_to_integer(extensions: Extensions, word: u32) -> Option<Insn>
    requires code { opcode word ≡ 0x53 }
    requires function { Fields.funct7 word ≡ 0x72 }
    ensures { result ≡ extension_instruction extensions word }
{
    match (rs2(word), funct3(word)) {
        (0, 0) => to_integer(word, moves_halves(extensions)),
        (0, 1) => to_integer(word, extensions.zfh),
        _ => None,
    }
}

/// FMV.H.X and FLI.H.
#[tactic(auto, using(crate::proofs::ByOpcode::float_cases_7a))]
fn integer_to_half(extensions: Extensions, word: u32) -> Option<Insn>
    requires code { opcode word ≡ 0x53 }
    requires function { Fields.funct7 word ≡ 0x7A }
    ensures { result ≡ extension_instruction extensions word }
{
    match (rs2(word), funct3(word)) {
        (0, 0) => from_integer(word, moves_halves(extensions)),
        (1, 0) => within(extensions.zfa && (extensions.zfh || extensions.zvfh)),
        _ => None,
    }
}

/// Whether `rs2` tells a conversion from half precision, FROUND or FROUNDNX.
fn converts(extensions: Extensions, word: u32) -> bool
    ensures { result ≡ ((Fields.rs2 word == 2 && table.converts_halves extensions)
        || (is_among (4 ∷ 5 ∷ []) (Fields.rs2 word) && extensions.zfa)) }
{
    let is_rounding = matches!(rs2(word), 4 | 5);
    rs2(word) == 2 && converts_halves(extensions) || is_rounding && extensions.zfa
}

/// Whether it tells a conversion to half precision or to BF16, FROUND.H or FROUNDNX.H.
fn converts_to_half(extensions: Extensions, word: u32) -> bool
    ensures { result ≡ ((is_among (0 ∷ 1 ∷ []) (Fields.rs2 word) && table.converts_halves extensions)
        || ((Fields.rs2 word == 8 && extensions.zfbfmin)
        || (is_among (4 ∷ 5 ∷ []) (Fields.rs2 word) && table.adds_to_halves extensions))) }
{
    let is_rounding = matches!(rs2(word), 4 | 5);
    matches!(rs2(word), 0 | 1) && converts_halves(extensions)
        || rs2(word) == 8 && extensions.zfbfmin
        || is_rounding && extensions.zfa && extensions.zfh
}

/// Whether `funct3` tells FMINM or FMAXM.
fn is_by_number(word: u32) -> bool
    ensures { result ≡ is_among (2 ∷ 3 ∷ []) (Fields.funct3 word) }
{
    matches!(funct3(word), 2 | 3)
}

/// Whether it tells FMIN or FMAX.
fn is_least_or_greatest(word: u32) -> bool
    ensures { result ≡ is_among (0 ∷ 1 ∷ []) (Fields.funct3 word) }
{
    matches!(funct3(word), 0 | 1)
}

/// Whether it tells FLE, FLT or FEQ.
fn is_comparison(word: u32) -> bool
    ensures { result ≡ is_among (0 ∷ 1 ∷ 2 ∷ []) (Fields.funct3 word) }
{
    matches!(funct3(word), 0 | 1 | 2)
}

/// Whether `rs2` names a format of integers, W, WU, L or LU, and a rounding mode stands in
/// `funct3`.
fn converts_integer(word: u32) -> bool
    ensures { result ≡ (is_among (0 ∷ 1 ∷ 2 ∷ 3 ∷ []) (Fields.rs2 word) && meets word table.rounds) }
{
    rs2(word) <= 3 && rounds(word)
}

/// Whether `funct3` tells FLEQ or FLTQ.
fn is_quiet(word: u32) -> bool
    ensures { result ≡ is_among (4 ∷ 5 ∷ []) (Fields.funct3 word) }
{
    matches!(funct3(word), 4 | 5)
}

/// Whether a rounding mode stands in `funct3`.
fn rounds(word: u32) -> bool
    ensures { result ≡ meets word table.rounds }
{
    matches!(funct3(word), 0..=4 | 7)
}

/// Whether the moves, loads and stores of 16-bit numbers are named.
fn moves_halves(extensions: Extensions) -> bool
    ensures { result ≡ table.moves_halves extensions }
{
    extensions.zfh || extensions.zfhmin || extensions.zfbfmin
}

/// Whether the conversions of half precision are named.
fn converts_halves(extensions: Extensions) -> bool
    ensures { result ≡ table.converts_halves extensions }
{
    extensions.zfh || extensions.zfhmin
}

/// An operation that uses no integer register, if the word `fits` it.
fn within(fits: bool) -> Option<Insn>
    ensures { result ≡ if fits then Some (Insn.Extension 0 0) else None }
{
    fits.then_some(without())
}

/// One that writes `rd`.
fn to_integer(word: u32, fits: bool) -> Option<Insn>
    ensures { result ≡ if fits then Some (registers.to_rd word) else None }
{
    fits.then_some(to_rd(word))
}

/// One that reads `rs1`.
fn from_integer(word: u32, fits: bool) -> Option<Insn>
    ensures { result ≡ if fits then Some (registers.from_rs1 word) else None }
{
    fits.then_some(from_rs1(word))
}
