//! From a word to its instruction: a branch on the opcode, and then on the other fields that the
//! rows of the opcode name.

ghost use Rattle.std.specs.Prelude.{◌≡◌, ◌≢◌, ◌⊎◌, if◌then◌else◌, true, false};
ghost use Rattle.std.specs.Option.{option_map};
ghost use Rattle.rv_decode.specs.Fields.{opcode, funct3, funct7};
ghost use Rattle.rv_decode.specs.Table.{instruction, branch, load, store, imm, shift, imm_w};
ghost use Rattle.rv_decode.specs.Table.{shift_w, reg, reg_w, atomic, csr_access};

use crate::fields::{
    acquire, b_offset, csr, funct3, funct5, funct6, funct7, i_immediate, j_offset, opcode, rd,
    release, rs1, rs2, s_immediate, shift_amount, u_immediate, word_shift_amount,
};
use crate::instructions::{
    AtomicKind, BranchKind, CsrKind, ImmKind, ImmWKind, Insn, LoadKind, RegKind, RegWKind,
    StoreKind,
};
use crate::opcodes::{
    AMO, AUIPC, BRANCH, JAL, JALR, LOAD, LUI, MISC_MEM, OP, OP_32, OP_IMM, OP_IMM_32, STORE, SYSTEM,
};

/// The instruction of RV64IMA with Zicsr and Zifencei that a 32-bit word encodes, or `None` if no
/// row of the instruction table holds of the word.
///
/// Whether the word's length is 32 bits is not asked: each row's opcode ends in 11, and none ends
/// in 11111. Bits that a row leaves free, as those of FENCE, change nothing.
#[tactic(auto, using(crate::proofs::ByOpcode::lui_is, crate::proofs::ByOpcode::auipc_is, crate::proofs::ByOpcode::jal_is, crate::proofs::ByOpcode::opcode_none))]
pub fn decode(word: u32) -> Option<Insn>
    ensures { result ≡ instruction word }
{
    match opcode(word) {
        LUI => Some(Insn::Lui {
            rd: rd(word),
            imm: u_immediate(word),
        }),
        AUIPC => Some(Insn::Auipc {
            rd: rd(word),
            imm: u_immediate(word),
        }),
        JAL => Some(Insn::Jal {
            rd: rd(word),
            offset: j_offset(word),
        }),
        JALR => jump_register(word),
        BRANCH => branch(word),
        LOAD => load(word),
        STORE => store(word),
        OP_IMM => op_imm(word),
        OP_IMM_32 => op_imm_32(word),
        OP => op(word),
        OP_32 => op_32(word),
        AMO => amo(word),
        MISC_MEM => misc_mem(word),
        SYSTEM => system(word),
        _ => None,
    }
}

#[tactic(auto, using(crate::proofs::ByOpcode::jalr_cases))]
fn jump_register(word: u32) -> Option<Insn>
    requires { opcode word ≡ JALR }
    ensures { result ≡ instruction word }
{
    if funct3(word) != 0 {
        return None;
    }
    Some(Insn::Jalr {
        rd: rd(word),
        rs1: rs1(word),
        imm: i_immediate(word),
    })
}

fn branch(word: u32) -> Option<Insn>
    requires { opcode word ≡ BRANCH }
    ensures { result ≡ instruction word }
{
    let kind = branch_kind(word)?;
    Some(Insn::Branch {
        kind,
        rs1: rs1(word),
        rs2: rs2(word),
        offset: b_offset(word),
    })
}

#[tactic(auto, using(crate::proofs::ByOpcode::branch_cases))]
fn branch_kind(word: u32) -> Option<BranchKind>
    requires { opcode word ≡ BRANCH }
    ensures { option_map (λ kind. branch kind word) result ≡ instruction word }
{
    match funct3(word) {
        0 => Some(BranchKind::Beq),
        1 => Some(BranchKind::Bne),
        4 => Some(BranchKind::Blt),
        5 => Some(BranchKind::Bge),
        6 => Some(BranchKind::Bltu),
        7 => Some(BranchKind::Bgeu),
        _ => None,
    }
}

fn load(word: u32) -> Option<Insn>
    requires { opcode word ≡ LOAD }
    ensures { result ≡ instruction word }
{
    let kind = load_kind(word)?;
    Some(Insn::Load {
        kind,
        rd: rd(word),
        rs1: rs1(word),
        imm: i_immediate(word),
    })
}

#[tactic(auto, using(crate::proofs::ByOpcode::load_cases))]
fn load_kind(word: u32) -> Option<LoadKind>
    requires { opcode word ≡ LOAD }
    ensures { option_map (λ kind. load kind word) result ≡ instruction word }
{
    match funct3(word) {
        0 => Some(LoadKind::Lb),
        1 => Some(LoadKind::Lh),
        2 => Some(LoadKind::Lw),
        3 => Some(LoadKind::Ld),
        4 => Some(LoadKind::Lbu),
        5 => Some(LoadKind::Lhu),
        6 => Some(LoadKind::Lwu),
        _ => None,
    }
}

fn store(word: u32) -> Option<Insn>
    requires { opcode word ≡ STORE }
    ensures { result ≡ instruction word }
{
    let kind = store_kind(word)?;
    Some(Insn::Store {
        kind,
        rs1: rs1(word),
        rs2: rs2(word),
        imm: s_immediate(word),
    })
}

#[tactic(auto, using(crate::proofs::ByOpcode::store_cases))]
fn store_kind(word: u32) -> Option<StoreKind>
    requires { opcode word ≡ STORE }
    ensures { option_map (λ kind. store kind word) result ≡ instruction word }
{
    match funct3(word) {
        0 => Some(StoreKind::Sb),
        1 => Some(StoreKind::Sh),
        2 => Some(StoreKind::Sw),
        3 => Some(StoreKind::Sd),
        _ => None,
    }
}

fn op_imm(word: u32) -> Option<Insn>
    requires { opcode word ≡ OP_IMM }
    ensures { result ≡ instruction word }
{
    match funct3(word) {
        1 | 5 => shift(word),
        _ => Some(Insn::Imm {
            kind: imm_kind(word),
            rd: rd(word),
            rs1: rs1(word),
            imm: i_immediate(word),
        }),
    }
}

#[tactic(auto, using(crate::proofs::ByOpcode::imm_cases))]
fn imm_kind(word: u32) -> ImmKind
    requires code { opcode word ≡ OP_IMM }
    requires not_left { funct3 word ≢ 1 }
    requires not_right { funct3 word ≢ 5 }
    ensures { Some (imm result word) ≡ instruction word }
{
    match funct3(word) {
        0 => ImmKind::Addi,
        2 => ImmKind::Slti,
        3 => ImmKind::Sltiu,
        4 => ImmKind::Xori,
        6 => ImmKind::Ori,
        _ => ImmKind::Andi,
    }
}

fn shift(word: u32) -> Option<Insn>
    requires code { opcode word ≡ OP_IMM }
    requires is_shift { (funct3 word ≡ 1) ⊎ (funct3 word ≡ 5) }
    ensures { result ≡ instruction word }
{
    let kind = shift_kind(word)?;
    Some(Insn::Imm {
        kind,
        rd: rd(word),
        rs1: rs1(word),
        imm: shift_amount(word),
    })
}

#[tactic(auto, using(crate::proofs::ByOpcode::imm_cases))]
fn shift_kind(word: u32) -> Option<ImmKind>
    requires code { opcode word ≡ OP_IMM }
    requires is_shift { (funct3 word ≡ 1) ⊎ (funct3 word ≡ 5) }
    ensures { option_map (λ kind. shift kind word) result ≡ instruction word }
{
    match (funct3(word), funct6(word)) {
        (1, 0b00_0000) => Some(ImmKind::Slli),
        (5, 0b00_0000) => Some(ImmKind::Srli),
        (5, 0b01_0000) => Some(ImmKind::Srai),
        _ => None,
    }
}

#[tactic(auto, using(crate::proofs::ByOpcode::imm_w_cases))]
fn op_imm_32(word: u32) -> Option<Insn>
    requires { opcode word ≡ OP_IMM_32 }
    ensures { result ≡ instruction word }
{
    if funct3(word) == 0 {
        return Some(Insn::ImmW {
            kind: ImmWKind::Addiw,
            rd: rd(word),
            rs1: rs1(word),
            imm: i_immediate(word),
        });
    }
    let kind = shift_w_kind(word)?;
    Some(Insn::ImmW {
        kind,
        rd: rd(word),
        rs1: rs1(word),
        imm: word_shift_amount(word),
    })
}

#[tactic(auto, using(crate::proofs::ByOpcode::imm_w_cases))]
fn shift_w_kind(word: u32) -> Option<ImmWKind>
    requires code { opcode word ≡ OP_IMM_32 }
    requires is_shift { funct3 word ≢ 0 }
    ensures { option_map (λ kind. shift_w kind word) result ≡ instruction word }
{
    match (funct3(word), funct7(word)) {
        (1, 0x00) => Some(ImmWKind::Slliw),
        (5, 0x00) => Some(ImmWKind::Srliw),
        (5, 0x20) => Some(ImmWKind::Sraiw),
        _ => None,
    }
}

fn op(word: u32) -> Option<Insn>
    requires { opcode word ≡ OP }
    ensures { result ≡ instruction word }
{
    let kind = reg_kind(word)?;
    Some(Insn::Reg {
        kind,
        rd: rd(word),
        rs1: rs1(word),
        rs2: rs2(word),
    })
}

#[tactic(auto, using(crate::proofs::ByOpcode::negated_cases, crate::proofs::ByOpcode::reg_none))]
fn reg_kind(word: u32) -> Option<RegKind>
    requires { opcode word ≡ OP }
    ensures { option_map (λ kind. reg kind word) result ≡ instruction word }
{
    match funct7(word) {
        0x00 => Some(base_kind(word)),
        0x20 => match funct3(word) {
            0 => Some(RegKind::Sub),
            5 => Some(RegKind::Sra),
            _ => None,
        },
        0x01 => Some(multiply_kind(word)),
        _ => None,
    }
}

#[tactic(auto, using(crate::proofs::ByOpcode::base_cases))]
fn base_kind(word: u32) -> RegKind
    requires code { opcode word ≡ OP }
    requires base { funct7 word ≡ 0 }
    ensures { Some (reg result word) ≡ instruction word }
{
    match funct3(word) {
        0 => RegKind::Add,
        1 => RegKind::Sll,
        2 => RegKind::Slt,
        3 => RegKind::Sltu,
        4 => RegKind::Xor,
        5 => RegKind::Srl,
        6 => RegKind::Or,
        _ => RegKind::And,
    }
}

#[tactic(auto, using(crate::proofs::ByOpcode::multiply_cases))]
fn multiply_kind(word: u32) -> RegKind
    requires code { opcode word ≡ OP }
    requires multiply { funct7 word ≡ 1 }
    ensures { Some (reg result word) ≡ instruction word }
{
    match funct3(word) {
        0 => RegKind::Mul,
        1 => RegKind::Mulh,
        2 => RegKind::Mulhsu,
        3 => RegKind::Mulhu,
        4 => RegKind::Div,
        5 => RegKind::Divu,
        6 => RegKind::Rem,
        _ => RegKind::Remu,
    }
}

fn op_32(word: u32) -> Option<Insn>
    requires { opcode word ≡ OP_32 }
    ensures { result ≡ instruction word }
{
    let kind = reg_w_kind(word)?;
    Some(Insn::RegW {
        kind,
        rd: rd(word),
        rs1: rs1(word),
        rs2: rs2(word),
    })
}

#[tactic(auto, using(crate::proofs::ByOpcode::reg_w_cases))]
fn reg_w_kind(word: u32) -> Option<RegWKind>
    requires { opcode word ≡ OP_32 }
    ensures { option_map (λ kind. reg_w kind word) result ≡ instruction word }
{
    match (funct7(word), funct3(word)) {
        (0x00, 0) => Some(RegWKind::Addw),
        (0x00, 1) => Some(RegWKind::Sllw),
        (0x00, 5) => Some(RegWKind::Srlw),
        (0x20, 0) => Some(RegWKind::Subw),
        (0x20, 5) => Some(RegWKind::Sraw),
        (0x01, 0) => Some(RegWKind::Mulw),
        (0x01, 4) => Some(RegWKind::Divw),
        (0x01, 5) => Some(RegWKind::Divuw),
        (0x01, 6) => Some(RegWKind::Remw),
        (0x01, 7) => Some(RegWKind::Remuw),
        _ => None,
    }
}

#[tactic(auto, using(crate::proofs::ByOpcode::atomic_none))]
fn amo(word: u32) -> Option<Insn>
    requires { opcode word ≡ AMO }
    ensures { result ≡ instruction word }
{
    match funct3(word) {
        2 => atomic(word, false),
        3 => atomic(word, true),
        _ => None,
    }
}

fn atomic(word: u32, wide: bool) -> Option<Insn>
    requires code { opcode word ≡ AMO }
    requires width { funct3 word ≡ (if wide then 3 else 2) }
    ensures { result ≡ instruction word }
{
    let kind = atomic_kind(word)?;
    Some(Insn::Atomic {
        kind,
        wide,
        acquire: acquire(word),
        release: release(word),
        rd: rd(word),
        rs1: rs1(word),
        rs2: rs2(word),
    })
}

#[tactic(auto, using(crate::proofs::ByOpcode::atomic_word_cases, crate::proofs::ByOpcode::atomic_double_cases))]
fn atomic_kind(word: u32) -> Option<AtomicKind>
    requires { opcode word ≡ AMO }
    ensures word { funct3 word ≡ 2
        → option_map (λ kind. atomic false kind word) result ≡ instruction word }
    ensures doubleword { funct3 word ≡ 3
        → option_map (λ kind. atomic true kind word) result ≡ instruction word }
{
    match funct5(word) {
        0b00010 => (rs2(word) == 0).then_some(AtomicKind::Lr),
        0b00011 => Some(AtomicKind::Sc),
        0b00001 => Some(AtomicKind::Swap),
        0b00000 => Some(AtomicKind::Add),
        0b00100 => Some(AtomicKind::Xor),
        0b01100 => Some(AtomicKind::And),
        0b01000 => Some(AtomicKind::Or),
        0b10000 => Some(AtomicKind::Min),
        0b10100 => Some(AtomicKind::Max),
        0b11000 => Some(AtomicKind::Minu),
        0b11100 => Some(AtomicKind::Maxu),
        _ => None,
    }
}

#[tactic(auto, using(crate::proofs::ByOpcode::fence_cases))]
fn misc_mem(word: u32) -> Option<Insn>
    requires { opcode word ≡ MISC_MEM }
    ensures { result ≡ instruction word }
{
    match funct3(word) {
        0 => Some(Insn::Fence),
        1 => Some(Insn::FenceI),
        _ => None,
    }
}

#[tactic(auto, using(crate::proofs::ByOpcode::ecall_is, crate::proofs::ByOpcode::ebreak_is))]
fn system(word: u32) -> Option<Insn>
    requires { opcode word ≡ SYSTEM }
    ensures { result ≡ instruction word }
{
    match word {
        0x0000_0073 => Some(Insn::Ecall),
        0x0010_0073 => Some(Insn::Ebreak),
        _ => csr_access(word),
    }
}

fn csr_access(word: u32) -> Option<Insn>
    requires code { opcode word ≡ SYSTEM }
    requires no_ecall { word ≢ 0x73 }
    requires no_ebreak { word ≢ 0x100073 }
    ensures { result ≡ instruction word }
{
    let kind = csr_kind(word)?;
    Some(Insn::Csr {
        kind,
        rd: rd(word),
        source: rs1(word),
        csr: csr(word),
    })
}

#[tactic(auto, using(crate::proofs::ByOpcode::csr_cases))]
fn csr_kind(word: u32) -> Option<CsrKind>
    requires code { opcode word ≡ SYSTEM }
    requires no_ecall { word ≢ 0x73 }
    requires no_ebreak { word ≢ 0x100073 }
    ensures { option_map (λ kind. csr_access kind word) result ≡ instruction word }
{
    match funct3(word) {
        1 => Some(CsrKind::Csrrw),
        2 => Some(CsrKind::Csrrs),
        3 => Some(CsrKind::Csrrc),
        5 => Some(CsrKind::Csrrwi),
        6 => Some(CsrKind::Csrrsi),
        7 => Some(CsrKind::Csrrci),
        _ => None,
    }
}
