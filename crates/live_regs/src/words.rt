//! Which integer registers an instruction reads and writes, by its bits. What is no instruction of
//! RV64GC is looked up among the extensions that the file names.

ghost use Rattle.std.specs.Prelude.{◌≡◌, ℕ, ℤ, ◌<◌, ◌==◌, ◌&&◌, ◌||◌, not, nat_lt, Some};
ghost use Rattle.mask_flow.specs.Reaches.{has_bit};
ghost use Rattle.rv_decode.specs.Fields.{funct3, funct6, funct7};
ghost use Rattle.elf_image.specs.Architecture.{extensions_of};
ghost use Rattle.rv_flow.specs.Placed.{compressed_insn, rv64gc_insn, word_insn};
ghost use Rattle.live_regs.specs.Effects.{labelled, reads, writes};
ghost use Rattle.live_regs.specs.Inner.{AreEffectsIf, AreInsnEffects, label_effects};

use crate::effects::{Effects, effects_of, register};
use elf_image::{Extensions, Image};
use rv_decode::Insn;
use rv_decode::fields::{funct3, funct6, funct7, opcode, rd, rs1, rs2};
use rv_extensions::{decode_extension, expand_extension};
use rv_flow::{rv64gc_insn, rv64gc_word};

// The major opcodes, by the ISA manual's names (RISC-V Unprivileged ISA 20240411, "RV32/64G
// Instruction Set Listings").
const LOAD: u8 = 0x03;

const OP_IMM: u8 = 0x13;

const AUIPC: u8 = 0x17;

const OP_IMM_32: u8 = 0x1B;

const STORE: u8 = 0x23;

const OP: u8 = 0x33;

const LUI: u8 = 0x37;

const OP_32: u8 = 0x3B;

const BRANCH: u8 = 0x63;

const JALR: u8 = 0x67;

const JAL: u8 = 0x6F;

/// The mask of x7.
const LABEL: u32 = 1 << 7;

/// Of the 16-bit instruction that a halfword is; what is none neither reads nor writes.
pub(crate) fn effects_of_half(image: &Image, half: u16) -> Effects
    ensures reads { (r : ℕ) → r < 32 → has_bit result.reads r
        ≡ reads (compressed_insn (extensions_of image.now) half) r }
    ensures writes { (r : ℕ) → r < 32 → has_bit result.writes r
        ≡ writes (compressed_insn (extensions_of image.now) half) r }
{
    let extensions = image.extensions();
    match rv64gc_word(extensions, half) {
        None => effects_of(expand_extension(*extensions, half)),
        Some(word) => effects_of_short(extensions, word).unwrap_or(Effects::NONE),
    }
}

/// Of the instruction that a word is; `None` if it is no instruction.
pub(crate) fn effects_of_word(image: &Image, word: u32) -> Option<Effects>
    ensures { AreEffectsIf (labelled (extensions_of image.now).zicfilp
        (word_insn (extensions_of image.now) word)) result }
{
    let extensions = image.extensions();
    match effects_of_rv64gc(extensions, extensions.zicfilp, word) {
        None => effects_if(decode_extension(*extensions, word)),
        Some(effects) => Some(effects),
    }
}

/// Of the instruction that the word of a 16-bit one is, which is no landing pad.
fn effects_of_short(extensions: &Extensions, word: u32) -> Option<Effects>
    ensures { AreEffectsIf (rv64gc_insn extensions.now word) result }
{
    effects_of_rv64gc(extensions, false, word)
}

/// Of the instruction of RV64GC that a word is; `None` if it is none. Most words tell it by their
/// opcode and the fields below it, and are not decoded. `has_pads` is whether landing pads are
/// named.
fn effects_of_rv64gc(extensions: &Extensions, has_pads: bool, word: u32) -> Option<Effects>
    ensures { AreEffectsIf (labelled has_pads (rv64gc_insn extensions.now word)) result }
{
    match opcode(word) {
        LUI | JAL => Some(effects_by(rd(word), 0, 0)),
        AUIPC => Some(effects_of_auipc(has_pads, rd(word))),
        JALR if funct3(word) == 0 => Some(effects_by(rd(word), rs1(word), 0)),
        LOAD if funct3(word) != 7 => Some(effects_by(rd(word), rs1(word), 0)),
        OP_IMM if is_imm(word) => Some(effects_by(rd(word), rs1(word), 0)),
        OP_IMM_32 if funct3(word) == 0 => Some(effects_by(rd(word), rs1(word), 0)),
        OP if is_reg(word) => Some(effects_by(rd(word), rs1(word), rs2(word))),
        OP_32 if funct3(word) == 0 && is_reg(word) => {
            Some(effects_by(rd(word), rs1(word), rs2(word)))
        }
        STORE if funct3(word) < 4 => Some(effects_by(0, rs1(word), rs2(word))),
        BRANCH if is_branch(word) => Some(effects_by(0, rs1(word), rs2(word))),
        _ => effects_if(rv64gc_insn(extensions, word)),
    }
}

/// Of an AUIPC: one that writes x0 reads x7 where landing pads are named.
fn effects_of_auipc(has_pads: bool, rd: u8) -> Effects
    ensures { (imm : ℤ) → AreInsnEffects (labelled has_pads (Some (Insn.Auipc rd imm))) result }
{
    if rd == 0 {
        effects_of_label(has_pads)
    } else {
        effects_by(rd, 0, 0)
    }
}

/// Of one that writes x0.
fn effects_of_label(has_pads: bool) -> Effects
    ensures { result ≡ label_effects has_pads }
{
    Effects {
        reads: if has_pads { LABEL } else { 0 },
        writes: 0,
    }
}

/// Whether a word of OP-IMM is a plain operation, or a logical shift.
fn is_imm(word: u32) -> bool
    ensures { result ≡ (not (funct3 word == 1 || funct3 word == 5) || funct6 word == 0) }
{
    !matches!(funct3(word), 1 | 5) || funct6(word) == 0
}

/// Whether a word of OP is a base operation, a multiplication, a division or SUB.
fn is_reg(word: u32) -> bool
    ensures { result ≡ (nat_lt (funct7 word) 2 || (funct7 word == 0x20 && funct3 word == 0)) }
{
    funct7(word) < 2 || (funct7(word) == 0x20 && funct3(word) == 0)
}

/// Whether a word of BRANCH is a branch.
fn is_branch(word: u32) -> bool
    ensures { result ≡ not (funct3 word == 2 || funct3 word == 3) }
{
    !matches!(funct3(word), 2 | 3)
}

/// Of an instruction that was decoded, if it is one.
fn effects_if(insn: Option<Insn>) -> Option<Effects>
    ensures { AreEffectsIf insn result }
{
    match insn {
        None => None,
        insn => Some(effects_of(insn)),
    }
}

/// Of an instruction that writes `rd` and reads the two others; x0 stands for none.
fn effects_by(rd: u8, rs1: u8, rs2: u8) -> Effects
    ensures reads { (r : ℕ) → r < 32 → has_bit result.reads r
        ≡ (not (r == 0) && (r == rs1 || r == rs2)) }
    ensures writes { (r : ℕ) → r < 32 → has_bit result.writes r ≡ (not (r == 0) && r == rd) }
{
    Effects {
        reads: register(rs1) | register(rs2),
        writes: register(rd),
    }
}
