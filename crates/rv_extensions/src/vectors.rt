//! Vector operations, by class (RISC-V Unprivileged ISA 20240411, chapter "V", "Vector Instruction
//! Formats").

ghost use Rattle.std.specs.Prelude.{◌≡◌, ◌==◌, [], ◌∷◌, if◌then◌else◌};
ghost use Rattle.rv_decode.specs.Fields.{opcode};
ghost use Rattle.rv_decode.specs.Fields;
ghost use Rattle.rv_float.specs.Table.{is_among};
ghost use Rattle.rv_extensions.specs.Registers as registers;
ghost use Rattle.rv_extensions.specs.Table.{extension_instruction};

use crate::meaning::{binary, from_rs1, to_rd, unary, vector_result, without};
use elf_image::Extensions;
use rv_decode::Insn;
use rv_decode::fields::funct3;
use rvc_expand::bits::field;

/// An operation on vectors, or one that sets their length, by `funct3`.
#[tactic(auto, using(crate::proofs::ByOpcode::vector_cases_00, crate::proofs::ByOpcode::vector_cases_01, crate::proofs::ByOpcode::vector_cases_02, crate::proofs::ByOpcode::vector_cases_03, crate::proofs::ByOpcode::vector_cases_04, crate::proofs::ByOpcode::vector_cases_05, crate::proofs::ByOpcode::vector_cases_06, crate::proofs::ByOpcode::length_is, crate::proofs::ByOpcode::vector_cases_none))]
pub(crate) fn vector(extensions: Extensions, word: u32) -> Option<Insn>
    requires { opcode word ≡ 0x57 }
    ensures { result ≡ extension_instruction extensions word }
{
    if !extensions.vector {
        return None;
    }
    match funct3(word) {
        0 | 1 | 3 | 5 => Some(without()),
        2 => Some(vector_result(word)),
        4 | 6 => Some(from_rs1(word)),
        7 => Some(length(word)),
        _ => None,
    }
}

/// VSETVLI, VSETIVLI and VSETVL, by bits 31 and 30.
fn length(word: u32) -> Insn
    ensures { result ≡ (if is_among (0 ∷ 1 ∷ []) (Fields.field word 31 30) then registers.unary word
        else (if Fields.field word 31 30 == 3 then registers.to_rd word else registers.binary word)) }
{
    match field(word, 31, 30) {
        0 | 1 => unary(word),
        3 => to_rd(word),
        _ => binary(word),
    }
}

/// A vector operation of cryptography.
#[tactic(auto, using(crate::proofs::ByOpcode::vector_crypto_cases))]
pub(crate) fn vector_crypto(extensions: Extensions, word: u32) -> Option<Insn>
    requires { opcode word ≡ 0x77 }
    ensures { result ≡ extension_instruction extensions word }
{
    extensions.vector.then_some(without())
}
