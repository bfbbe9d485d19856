//! Whether control goes straight on after a word. Most words tell it by their opcode and funct3,
//! and are not decoded.

ghost use Rattle.std.specs.Prelude.{◌≡◌, is_some, [], ◌∷◌};
ghost use Rattle.rv_decode.specs.Fields.{opcode};
ghost use Rattle.rv_decode.specs.Fields;
ghost use Rattle.rv_decode.specs.Table.{instruction};
ghost use Rattle.rv_float.specs.Table.{is_among};
ghost use Rattle.rv_extensions.specs.IntegerFloats.{named_instruction};
ghost use Rattle.rv_flow.specs.Placed.{word_insn};
ghost use Rattle.rv_flow.specs.Inner.{goes_on_behind};

use crate::placed::word_insn;
use crate::straight::goes_on_behind;
use elf_image::Extensions;
use rv_decode::fields::{funct3, funct6, funct7, opcode};
use rv_extensions::decode_extension;

// The major opcodes, by the ISA manual's names (RISC-V Unprivileged ISA 20240411, "RV32/64G
// Instruction Set Listings").
const LOAD: u8 = 0x03;

const LOAD_FP: u8 = 0x07;

const OP_IMM: u8 = 0x13;

const AUIPC: u8 = 0x17;

const OP_IMM_32: u8 = 0x1B;

const STORE: u8 = 0x23;

const STORE_FP: u8 = 0x27;

const OP: u8 = 0x33;

const LUI: u8 = 0x37;

const BRANCH: u8 = 0x63;

const JALR: u8 = 0x67;

const JAL: u8 = 0x6F;

// The words of a vendor.
const CUSTOM_0: u8 = 0x0B;

// Those that no instruction has.
const CUSTOM_1: u8 = 0x2B;

const CUSTOM_2: u8 = 0x5B;

const CUSTOM_3: u8 = 0x7B;

const RESERVED_6B: u8 = 0x6B;

// The vector operations.
const OP_V: u8 = 0x57;

const OP_VE: u8 = 0x77;

/// Whether control goes straight on after a word, by the extensions that are named: not if it is no
/// instruction. They are asked only of a word that RV64GC does not have.
#[tactic(auto, using(crate::proofs::Extended::lui_goes_on, crate::proofs::Extended::auipc_goes_on, crate::proofs::Extended::jal_never, crate::proofs::Extended::jalr_never, crate::proofs::Extended::branch_never, crate::proofs::Extended::load_goes_on, crate::proofs::Extended::store_goes_on, crate::proofs::Extended::store_never, crate::proofs::Extended::addiw_goes_on, crate::proofs::Extended::custom_never, crate::proofs::Extended::vendor_goes, crate::proofs::Extended::imm_either, crate::proofs::Extended::op_either, crate::proofs::Extended::load_either, crate::proofs::Extended::store_either, crate::proofs::Extended::vector_goes, crate::proofs::Extended::vector_crypto_goes))]
#[inline(always)]
pub(crate) fn word_goes_on(extensions: &Extensions, word: u32) -> bool
    ensures { result ≡ goes_on_behind (word_insn extensions.now word) }
{
    match opcode(word) {
        LUI | AUIPC => true,
        JAL | JALR | BRANCH => false,
        LOAD => funct3(word) != 7,
        STORE => funct3(word) < 4,
        LOAD_FP | STORE_FP => {
            !extensions.zfinx && is_double_or_word(word) || is_extension(extensions, word)
        }
        OP_IMM => imm_goes_on(word) || is_extension(extensions, word),
        OP_IMM_32 if funct3(word) == 0 => true,
        OP => op_goes_on(word) || is_extension(extensions, word),
        OP_V | OP_VE => extensions.vector,
        CUSTOM_0 => extensions.xthead,
        CUSTOM_1 | CUSTOM_2 | CUSTOM_3 | RESERVED_6B => false,
        _ => goes_on_behind(word_insn(extensions, word)),
    }
}

// Whether a word is an instruction of an extension that is named. Each of these goes straight on.
#[cold]
#[inline(never)]
fn is_extension(extensions: &Extensions, word: u32) -> bool
    ensures { result ≡ is_some (named_instruction extensions.now word) }
{
    decode_extension(*extensions, word).is_some()
}

// Whether the width of a load or a store of a float is a word or a doubleword.
fn is_double_or_word(word: u32) -> bool
    ensures { result ≡ is_among (2 ∷ 3 ∷ []) (Fields.funct3 word) }
{
    matches!(funct3(word), 2 | 3)
}

// Operations on a register and an immediate: a shift needs the right bits above its amount.
#[tactic(auto, using(crate::proofs::Told::imm_goes, crate::proofs::Told::shift_left_goes, crate::proofs::Told::shift_right_goes, crate::proofs::Told::shift_signed_goes, crate::proofs::Told::no_shift))]
fn imm_goes_on(word: u32) -> bool
    requires { opcode word ≡ OP_IMM }
    ensures { result ≡ goes_on_behind (instruction word) }
{
    match funct3(word) {
        1 => funct6(word) == 0,
        5 => matches!(funct6(word), 0b00_0000 | 0b01_0000),
        _ => true,
    }
}

// Operations on two registers.
#[tactic(auto, using(crate::proofs::Told::base_goes, crate::proofs::Told::multiply_goes, crate::proofs::Told::negated_goes, crate::proofs::Told::negated_none, crate::proofs::Told::reg_stops))]
fn op_goes_on(word: u32) -> bool
    requires { opcode word ≡ OP }
    ensures { result ≡ goes_on_behind (instruction word) }
{
    match funct7(word) {
        0x00 | 0x01 => true,
        0x20 => matches!(funct3(word), 0 | 5),
        _ => false,
    }
}
