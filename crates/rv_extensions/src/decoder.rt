//! From a word to its instruction: a branch on the opcode, so that a word of another opcode is
//! refused at once, and then on the other fields that the rows of the opcode name.

ghost use Rattle.std.specs.Prelude.{◌≡◌};
ghost use Rattle.rv_extensions.specs.Table.{extension_instruction};
ghost use Rattle.rv_extensions.specs.IntegerFloats.{named_instruction};

use crate::atomics::{amo, block, system};
use crate::bits::{op, op_32, op_imm, op_imm_32};
use crate::floats::{fused, load, operation, store};
use crate::integer_floats::integer_float;
use crate::meaning::vendor_word;
use crate::vectors::{vector, vector_crypto};
use elf_image::Extensions;
use rv_decode::Insn;
use rv_decode::fields::opcode;

// The major opcodes, by the ISA manual's names.
const LOAD_FP: u8 = 0x07;

const CUSTOM_0: u8 = 0x0b;

const MISC_MEM: u8 = 0x0f;

const OP_IMM: u8 = 0x13;

const OP_IMM_32: u8 = 0x1b;

const STORE_FP: u8 = 0x27;

const AMO: u8 = 0x2f;

const OP: u8 = 0x33;

const OP_32: u8 = 0x3b;

const MADD: u8 = 0x43;

const MSUB: u8 = 0x47;

const NMSUB: u8 = 0x4b;

const NMADD: u8 = 0x4f;

const OP_FP: u8 = 0x53;

const OP_V: u8 = 0x57;

const SYSTEM: u8 = 0x73;

const OP_VE: u8 = 0x77;

/// The instruction that a 32-bit word encodes by the `extensions` that a file names, or `None` if
/// no row of them holds of the word. Every instruction of RV64GC is `None` here, but for operations
/// on floats if the file has these in integer registers.
///
/// Whether the word's length is 32 bits is not asked: each row's opcode ends in 11, and none ends
/// in 11111.
pub fn decode_extension(extensions: Extensions, word: u32) -> Option<Insn>
    ensures { result ≡ named_instruction extensions word }
{
    match integer_float(extensions, word) {
        None => decode_other(extensions, word),
        insn => insn,
    }
}

/// That by the table of all others.
#[tactic(auto, using(crate::proofs::ByOpcode::other_is, crate::proofs::ByOpcode::vendor_is))]
fn decode_other(extensions: Extensions, word: u32) -> Option<Insn>
    ensures { result ≡ extension_instruction extensions word }
{
    match opcode(word) {
        OP => op(extensions, word),
        OP_32 => op_32(extensions, word),
        OP_IMM => op_imm(extensions, word),
        OP_IMM_32 => op_imm_32(extensions, word),
        LOAD_FP => load(extensions, word),
        STORE_FP => store(extensions, word),
        MADD | MSUB | NMSUB | NMADD => fused(extensions, word),
        OP_FP => operation(extensions, word),
        OP_V => vector(extensions, word),
        OP_VE => vector_crypto(extensions, word),
        AMO => amo(extensions, word),
        MISC_MEM => block(extensions, word),
        SYSTEM => system(extensions, word),
        CUSTOM_0 => extensions.xthead.then_some(vendor_word(word)),
        _ => None,
    }
}
