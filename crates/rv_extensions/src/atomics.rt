//! Atomic operations, cache blocks, waits and may-be operations (RISC-V Unprivileged ISA 20240411,
//! chapters "Zacas", "Zabha", "Zicfiss",
//! "CMO", "Zawrs" and "Zimop").

ghost use Rattle.std.specs.Prelude.{◌≡◌, ◌⊎◌, [], ◌∷◌};
ghost use Rattle.rv_decode.specs.Fields.{opcode};
ghost use Rattle.rv_decode.specs.Fields;
ghost use Rattle.rv_float.specs.Table.{is_among};
ghost use Rattle.rv_extensions.specs.Table.{extension_instruction, fetched_operations};

use crate::meaning::{binary, from_rs1, ternary, ternary_pairs, unary, without};
use elf_image::Extensions;
use rv_decode::Insn;
use rv_decode::fields::{csr, funct3, funct5, rd, rs1};
use rvc_expand::bits::field;

/// The operation of a compare and swap.
const AMOCAS: u8 = 0b0_0101;

/// That of a swap on a shadow stack.
const SSAMOSWAP: u8 = 0b0_1001;

/// Atomic operations, by `funct3`, which is the width, and `funct5`.
#[tactic(auto, using(crate::proofs::ByOpcode::amo_cases_none))]
pub(crate) fn amo(extensions: Extensions, word: u32) -> Option<Insn>
    requires { opcode word ≡ 0x2F }
    ensures { result ≡ extension_instruction extensions word }
{
    match funct3(word) {
        0 | 1 => narrow(extensions, word),
        2 | 3 => whole(extensions, word),
        4 => quadword(extensions, word),
        _ => None,
    }
}

/// Those on a byte or a halfword.
#[tactic(auto, using(crate::proofs::ByOpcode::amo_cases_00, crate::proofs::ByOpcode::amo_cases_01))]
fn narrow(extensions: Extensions, word: u32) -> Option<Insn>
    requires code { opcode word ≡ 0x2F }
    requires width { (Fields.funct3 word ≡ 0) ⊎ (Fields.funct3 word ≡ 1) }
    ensures { result ≡ extension_instruction extensions word }
{
    if is_fetched(word) && extensions.zabha {
        return Some(binary(word));
    }
    let compares = funct5(word) == AMOCAS;
    (compares && extensions.zabha && extensions.zacas).then_some(ternary(word))
}

/// Those on a word or a doubleword: AMOCAS, and SSAMOSWAP of a shadow stack.
#[tactic(auto, using(crate::proofs::ByOpcode::amo_cases_02, crate::proofs::ByOpcode::amo_cases_03))]
fn whole(extensions: Extensions, word: u32) -> Option<Insn>
    requires code { opcode word ≡ 0x2F }
    requires width { (Fields.funct3 word ≡ 2) ⊎ (Fields.funct3 word ≡ 3) }
    ensures { result ≡ extension_instruction extensions word }
{
    match funct5(word) {
        AMOCAS => extensions.zacas.then_some(ternary(word)),
        SSAMOSWAP => extensions.zicfiss.then_some(binary(word)),
        _ => None,
    }
}

/// Whether `funct5` tells an operation that gives back what it found.
fn is_fetched(word: u32) -> bool
    ensures { result ≡ is_among fetched_operations (Fields.funct5 word) }
{
    matches!(
        funct5(word),
        0b0_0001
            | 0b0_0000
            | 0b0_0100
            | 0b0_1100
            | 0b0_1000
            | 0b1_0000
            | 0b1_0100
            | 0b1_1000
            | 0b1_1100
    )
}

/// AMOCAS.Q, whose pairs of registers begin at even ones.
#[tactic(auto, using(crate::proofs::ByOpcode::amo_cases_04, crate::proofs::ByOpcode::even_rd, crate::proofs::ByOpcode::even_rs2))]
fn quadword(extensions: Extensions, word: u32) -> Option<Insn>
    requires code { opcode word ≡ 0x2F }
    requires width { Fields.funct3 word ≡ 4 }
    ensures { result ≡ extension_instruction extensions word }
{
    if funct5(word) != AMOCAS || field(word, 7, 7) != 0 || field(word, 20, 20) != 0 {
        return None;
    }
    extensions.zacas.then_some(ternary_pairs(word))
}

/// Operations on cache blocks: CBO.INVAL, CBO.CLEAN, CBO.FLUSH and CBO.ZERO.
#[tactic(auto, using(crate::proofs::ByOpcode::block_cases))]
pub(crate) fn block(extensions: Extensions, word: u32) -> Option<Insn>
    requires { opcode word ≡ 0x0F }
    ensures { result ≡ extension_instruction extensions word }
{
    if funct3(word) != 2 || rd(word) != 0 {
        return None;
    }
    let manages = is_managing(word) && extensions.zicbom;
    (manages || csr(word) == 4 && extensions.zicboz).then_some(from_rs1(word))
}

/// Whether bits 31 to 20 tell CBO.INVAL, CBO.CLEAN or CBO.FLUSH.
fn is_managing(word: u32) -> bool
    ensures { result ≡ is_among (0 ∷ 1 ∷ 2 ∷ []) (Fields.csr word) }
{
    matches!(csr(word), 0 | 1 | 2)
}

/// WRS.NTO, WRS.STO and the may-be operations.
#[tactic(auto, using(crate::proofs::ByOpcode::system_cases_00, crate::proofs::ByOpcode::system_cases_none))]
pub(crate) fn system(extensions: Extensions, word: u32) -> Option<Insn>
    requires { opcode word ≡ 0x73 }
    ensures { result ≡ extension_instruction extensions word }
{
    match funct3(word) {
        0 => {
            let waits = rd(word) == 0 && rs1(word) == 0 && matches!(csr(word), 0x00d | 0x01d);
            (waits && extensions.zawrs).then_some(without())
        }
        4 => may_be(extensions, word),
        _ => None,
    }
}

/// MOP.R and MOP.RR, by the bits around their numbers.
#[tactic(auto, using(crate::proofs::ByOpcode::system_cases_04, crate::proofs::ByOpcode::bit_25))]
fn may_be(extensions: Extensions, word: u32) -> Option<Insn>
    requires code { opcode word ≡ 0x73 }
    requires function { Fields.funct3 word ≡ 4 }
    ensures { result ≡ extension_instruction extensions word }
{
    if field(word, 31, 31) != 1 || field(word, 29, 28) != 0 {
        return None;
    }
    if field(word, 25, 25) == 1 {
        return extensions.zimop.then_some(binary(word));
    }
    (field(word, 24, 22) == 7 && extensions.zimop).then_some(unary(word))
}
