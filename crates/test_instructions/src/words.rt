//! The decoder at words from outside: what binutils' assembler makes of at least one instruction
//! of each row of the table, worked words, and words that no row holds of.

use crate::asserts::same_at;
use rv_decode::decode;
use std::alloc::Global;
use std::process::Abort;
use std::test::Fail;

/// `as -march=rv64ima_zicsr_zifencei`, with operands that set each bit of the immediates.
static ASSEMBLED: [(u32, &str); 98] = [
    (0xfffff2b7, "Lui { rd: 5, imm: -4096 }"),
    (0x7ffff337, "Lui { rd: 6, imm: 2147479552 }"),
    (0x80000397, "Auipc { rd: 7, imm: -2147483648 }"),
    (0x554550ef, "Jal { rd: 1, offset: 349524 }"),
    (0x80000fef, "Jal { rd: 31, offset: -1048576 }"),
    (0x800201e7, "Jalr { rd: 3, rs1: 4, imm: -2048 }"),
    (
        0x2a2085e3,
        "Branch { kind: Beq, rs1: 1, rs2: 2, offset: 2730 }",
    ),
    (
        0xd4419a63,
        "Branch { kind: Bne, rs1: 3, rs2: 4, offset: -2732 }",
    ),
    (
        0x7e62cfe3,
        "Branch { kind: Blt, rs1: 5, rs2: 6, offset: 4094 }",
    ),
    (
        0x8083d063,
        "Branch { kind: Bge, rs1: 7, rs2: 8, offset: -4096 }",
    ),
    (
        0x00a4e0e3,
        "Branch { kind: Bltu, rs1: 9, rs2: 10, offset: 2048 }",
    ),
    (
        0xfff5ffe3,
        "Branch { kind: Bgeu, rs1: 11, rs2: 31, offset: -2 }",
    ),
    (0xfffa0083, "Load { kind: Lb, rd: 1, rs1: 20, imm: -1 }"),
    (0x7ffa9103, "Load { kind: Lh, rd: 2, rs1: 21, imm: 2047 }"),
    (0x800b2183, "Load { kind: Lw, rd: 3, rs1: 22, imm: -2048 }"),
    (0x008bb203, "Load { kind: Ld, rd: 4, rs1: 23, imm: 8 }"),
    (0x001c4283, "Load { kind: Lbu, rd: 5, rs1: 24, imm: 1 }"),
    (0x000cd303, "Load { kind: Lhu, rd: 6, rs1: 25, imm: 0 }"),
    (0xffcd6383, "Load { kind: Lwu, rd: 7, rs1: 26, imm: -4 }"),
    (0xfe1c8fa3, "Store { kind: Sb, rs1: 25, rs2: 1, imm: -1 }"),
    (0x542d1aa3, "Store { kind: Sh, rs1: 26, rs2: 2, imm: 1365 }"),
    (
        0xaa3da523,
        "Store { kind: Sw, rs1: 27, rs2: 3, imm: -1366 }",
    ),
    (0x7e4e3fa3, "Store { kind: Sd, rs1: 28, rs2: 4, imm: 2047 }"),
    (0xfff60113, "Imm { kind: Addi, rd: 2, rs1: 12, imm: -1 }"),
    (0x7ff6a193, "Imm { kind: Slti, rd: 3, rs1: 13, imm: 2047 }"),
    (
        0x80073213,
        "Imm { kind: Sltiu, rd: 4, rs1: 14, imm: -2048 }",
    ),
    (0x5557c293, "Imm { kind: Xori, rd: 5, rs1: 15, imm: 1365 }"),
    (0xaaa86313, "Imm { kind: Ori, rd: 6, rs1: 16, imm: -1366 }"),
    (0x0018f393, "Imm { kind: Andi, rd: 7, rs1: 17, imm: 1 }"),
    (0x03f61113, "Imm { kind: Slli, rd: 2, rs1: 12, imm: 63 }"),
    (0x0206d193, "Imm { kind: Srli, rd: 3, rs1: 13, imm: 32 }"),
    (0x42175213, "Imm { kind: Srai, rd: 4, rs1: 14, imm: 33 }"),
    (0xff95049b, "ImmW { kind: Addiw, rd: 9, rs1: 10, imm: -7 }"),
    (0x01f6111b, "ImmW { kind: Slliw, rd: 2, rs1: 12, imm: 31 }"),
    (0x0106d19b, "ImmW { kind: Srliw, rd: 3, rs1: 13, imm: 16 }"),
    (0x4017521b, "ImmW { kind: Sraiw, rd: 4, rs1: 14, imm: 1 }"),
    (0x000f80b3, "Reg { kind: Add, rd: 1, rs1: 31, rs2: 0 }"),
    (0x007f1133, "Reg { kind: Sll, rd: 2, rs1: 30, rs2: 7 }"),
    (0x00eea1b3, "Reg { kind: Slt, rd: 3, rs1: 29, rs2: 14 }"),
    (0x015e3233, "Reg { kind: Sltu, rd: 4, rs1: 28, rs2: 21 }"),
    (0x01cdc2b3, "Reg { kind: Xor, rd: 5, rs1: 27, rs2: 28 }"),
    (0x003d5333, "Reg { kind: Srl, rd: 6, rs1: 26, rs2: 3 }"),
    (0x00ace3b3, "Reg { kind: Or, rd: 7, rs1: 25, rs2: 10 }"),
    (0x011c7433, "Reg { kind: And, rd: 8, rs1: 24, rs2: 17 }"),
    (0x418b84b3, "Reg { kind: Sub, rd: 9, rs1: 23, rs2: 24 }"),
    (0x41fb5533, "Reg { kind: Sra, rd: 10, rs1: 22, rs2: 31 }"),
    (0x026a85b3, "Reg { kind: Mul, rd: 11, rs1: 21, rs2: 6 }"),
    (0x02da1633, "Reg { kind: Mulh, rd: 12, rs1: 20, rs2: 13 }"),
    (0x0349a6b3, "Reg { kind: Mulhsu, rd: 13, rs1: 19, rs2: 20 }"),
    (0x03b93733, "Reg { kind: Mulhu, rd: 14, rs1: 18, rs2: 27 }"),
    (0x0228c7b3, "Reg { kind: Div, rd: 15, rs1: 17, rs2: 2 }"),
    (0x02985833, "Reg { kind: Divu, rd: 16, rs1: 16, rs2: 9 }"),
    (0x0307e8b3, "Reg { kind: Rem, rd: 17, rs1: 15, rs2: 16 }"),
    (0x03777933, "Reg { kind: Remu, rd: 18, rs1: 14, rs2: 23 }"),
    (0x000f80bb, "RegW { kind: Addw, rd: 1, rs1: 31, rs2: 0 }"),
    (0x007f113b, "RegW { kind: Sllw, rd: 2, rs1: 30, rs2: 7 }"),
    (0x00eed1bb, "RegW { kind: Srlw, rd: 3, rs1: 29, rs2: 14 }"),
    (0x415e023b, "RegW { kind: Subw, rd: 4, rs1: 28, rs2: 21 }"),
    (0x41cdd2bb, "RegW { kind: Sraw, rd: 5, rs1: 27, rs2: 28 }"),
    (0x023d033b, "RegW { kind: Mulw, rd: 6, rs1: 26, rs2: 3 }"),
    (0x02acc3bb, "RegW { kind: Divw, rd: 7, rs1: 25, rs2: 10 }"),
    (0x031c543b, "RegW { kind: Divuw, rd: 8, rs1: 24, rs2: 17 }"),
    (0x038be4bb, "RegW { kind: Remw, rd: 9, rs1: 23, rs2: 24 }"),
    (0x03fb753b, "RegW { kind: Remuw, rd: 10, rs1: 22, rs2: 31 }"),
    (
        0x100020af,
        "Atomic { kind: Lr, wide: false, acquire: false, release: false, rd: 1, rs1: 0, rs2: 0 }",
    ),
    (
        0x1c61a12f,
        "Atomic { kind: Sc, wide: false, acquire: true, release: false, rd: 2, rs1: 3, rs2: 6 }",
    ),
    (
        0x0ab321af,
        "Atomic { kind: Swap, wide: false, acquire: false, release: true, rd: 3, rs1: 6, rs2: 11 }",
    ),
    (
        0x0704a22f,
        "Atomic { kind: Add, wide: false, acquire: true, release: true, rd: 4, rs1: 9, rs2: 16 }",
    ),
    (
        0x215622af,
        "Atomic { kind: Xor, wide: false, acquire: false, release: false, rd: 5, rs1: 12, rs2: 21 }",
    ),
    (
        0x65a7a32f,
        "Atomic { kind: And, wide: false, acquire: true, release: false, rd: 6, rs1: 15, rs2: 26 }",
    ),
    (
        0x43f923af,
        "Atomic { kind: Or, wide: false, acquire: false, release: true, rd: 7, rs1: 18, rs2: 31 }",
    ),
    (
        0x864aa42f,
        "Atomic { kind: Min, wide: false, acquire: true, release: true, rd: 8, rs1: 21, rs2: 4 }",
    ),
    (
        0xa09c24af,
        "Atomic { kind: Max, wide: false, acquire: false, release: false, rd: 9, rs1: 24, rs2: 9 }",
    ),
    (
        0xc4eda52f,
        "Atomic { kind: Minu, wide: false, acquire: true, release: false, rd: 10, rs1: 27, rs2: 14 }",
    ),
    (
        0xe33f25af,
        "Atomic { kind: Maxu, wide: false, acquire: false, release: true, rd: 11, rs1: 30, rs2: 19 }",
    ),
    (
        0x1600b62f,
        "Atomic { kind: Lr, wide: true, acquire: true, release: true, rd: 12, rs1: 1, rs2: 0 }",
    ),
    (
        0x19d236af,
        "Atomic { kind: Sc, wide: true, acquire: false, release: false, rd: 13, rs1: 4, rs2: 29 }",
    ),
    (
        0x0c23b72f,
        "Atomic { kind: Swap, wide: true, acquire: true, release: false, rd: 14, rs1: 7, rs2: 2 }",
    ),
    (
        0x027537af,
        "Atomic { kind: Add, wide: true, acquire: false, release: true, rd: 15, rs1: 10, rs2: 7 }",
    ),
    (
        0x26c6b82f,
        "Atomic { kind: Xor, wide: true, acquire: true, release: true, rd: 16, rs1: 13, rs2: 12 }",
    ),
    (
        0x611838af,
        "Atomic { kind: And, wide: true, acquire: false, release: false, rd: 17, rs1: 16, rs2: 17 }",
    ),
    (
        0x4569b92f,
        "Atomic { kind: Or, wide: true, acquire: true, release: false, rd: 18, rs1: 19, rs2: 22 }",
    ),
    (
        0x83bb39af,
        "Atomic { kind: Min, wide: true, acquire: false, release: true, rd: 19, rs1: 22, rs2: 27 }",
    ),
    (
        0xa60cba2f,
        "Atomic { kind: Max, wide: true, acquire: true, release: true, rd: 20, rs1: 25, rs2: 0 }",
    ),
    (
        0xc05e3aaf,
        "Atomic { kind: Minu, wide: true, acquire: false, release: false, rd: 21, rs1: 28, rs2: 5 }",
    ),
    (
        0xe4afbb2f,
        "Atomic { kind: Maxu, wide: true, acquire: true, release: false, rd: 22, rs1: 31, rs2: 10 }",
    ),
    (0x0ff0000f, "Fence"),
    (0x0310000f, "Fence"),
    (0x8330000f, "Fence"),
    (0x0000100f, "FenceI"),
    (0x00000073, "Ecall"),
    (0x00100073, "Ebreak"),
    (
        0xffff90f3,
        "Csr { kind: Csrrw, rd: 1, source: 31, csr: 4095 }",
    ),
    (
        0xc0002173,
        "Csr { kind: Csrrs, rd: 2, source: 0, csr: 3072 }",
    ),
    (0x0013b1f3, "Csr { kind: Csrrc, rd: 3, source: 7, csr: 1 }"),
    (
        0x305fd273,
        "Csr { kind: Csrrwi, rd: 4, source: 31, csr: 773 }",
    ),
    (
        0x300462f3,
        "Csr { kind: Csrrsi, rd: 5, source: 8, csr: 768 }",
    ),
    (
        0xb000f373,
        "Csr { kind: Csrrci, rd: 6, source: 1, csr: 2816 }",
    ),
];

static WORKED: [(u32, &str); 19] = [
    (0x00000013, "Imm { kind: Addi, rd: 0, rs1: 0, imm: 0 }"),
    (0x00700793, "Imm { kind: Addi, rd: 15, rs1: 0, imm: 7 }"),
    (0x00251513, "Imm { kind: Slli, rd: 10, rs1: 10, imm: 2 }"),
    (0x00e50533, "Reg { kind: Add, rd: 10, rs1: 10, rs2: 14 }"),
    (0x00052783, "Load { kind: Lw, rd: 15, rs1: 10, imm: 0 }"),
    (0x00e787b3, "Reg { kind: Add, rd: 15, rs1: 15, rs2: 14 }"),
    (0x00078067, "Jalr { rd: 0, rs1: 15, imm: 0 }"),
    (0x00008067, "Jalr { rd: 0, rs1: 1, imm: 0 }"),
    (0x0000006f, "Jal { rd: 0, offset: 0 }"),
    (0x00100073, "Ebreak"),
    (0xfff50513, "Imm { kind: Addi, rd: 10, rs1: 10, imm: -1 }"),
    (
        0xfe051ee3,
        "Branch { kind: Bne, rs1: 10, rs2: 0, offset: -4 }",
    ),
    (
        0xfe051fe3,
        "Branch { kind: Bne, rs1: 10, rs2: 0, offset: -2 }",
    ),
    (
        0x00050463,
        "Branch { kind: Beq, rs1: 10, rs2: 0, offset: 8 }",
    ),
    (0x008000ef, "Jal { rd: 1, offset: 8 }"),
    (0xff5ff0ef, "Jal { rd: 1, offset: -12 }"),
    (0xffdff06f, "Jal { rd: 0, offset: -4 }"),
    (
        0x02a7e263,
        "Branch { kind: Bltu, rs1: 15, rs2: 10, offset: 36 }",
    ),
    (
        0xc0001073,
        "Csr { kind: Csrrw, rd: 0, source: 0, csr: 3072 }",
    ),
];

static REFUSED: [(u32, &str); 41] = [
    (0x00000000, "no opcode"),
    (0xffffffff, "no opcode"),
    (0x00000010, "the low bits of a 16-bit form"),
    (0x30200073, "MRET"),
    (0x10500073, "WFI"),
    (0x10200073, "SRET"),
    (0x00200073, "SYSTEM, funct12 = 2"),
    (0x000000f3, "ECALL with rd = 1"),
    (0x00008073, "ECALL with rs1 = 1"),
    (0x001000f3, "EBREAK with rd = 1"),
    (0x00004073, "SYSTEM, funct3 = 4"),
    (0x00007003, "LOAD, funct3 = 7"),
    (0x00002063, "BRANCH, funct3 = 2"),
    (0x00003063, "BRANCH, funct3 = 3"),
    (0x00001067, "JALR, funct3 = 1"),
    (0x00004023, "STORE, funct3 = 4"),
    (0x00007023, "STORE, funct3 = 7"),
    (0x04001013, "SLLI with bit 26 set"),
    (0x40001013, "SLLI with bit 30 set"),
    (0x80005013, "SRLI with bit 31 set"),
    (0x0200101b, "SLLIW with bit 25 set"),
    (0x4200501b, "SRAIW with bit 25 set"),
    (0x0000201b, "OP-IMM-32, funct3 = 2"),
    (0x40001033, "SLL with funct7 = 20"),
    (0x04000033, "OP, funct7 = 02"),
    (0x60000033, "OP, funct7 = 30"),
    (0x0200103b, "OP-32, funct7 = 01, funct3 = 1"),
    (0x4000103b, "OP-32, funct7 = 20, funct3 = 1"),
    (0x0000203b, "OP-32, funct3 = 2"),
    (0x1010202f, "LR.W with rs2 = 1"),
    (0x1010302f, "LR.D with rs2 = 1"),
    (0x0000002f, "AMO, funct3 = 0"),
    (0x0000402f, "AMO, funct3 = 4"),
    (0x2800202f, "AMO, funct5 = 00101"),
    (0x7000302f, "AMO, funct5 = 01110"),
    (0x0000200f, "MISC-MEM, funct3 = 2"),
    (0x00002007, "FLW"),
    (0x00002027, "FSW"),
    (0x00000053, "FADD.S"),
    (0x00000057, "V"),
    (0x0000000b, "custom-0"),
];

fn expect_insns(rt: &impl Abort, alloc: Global, table: &[(u32, &str)]) -> Result<(), Fail> {
    for (word, want) in table {
        let found = decode(*word).ok_or("a word of the table is refused")?;
        let text = format!(in alloc; "{found:?}")?;
        same_at(rt, &word, &text.as_str(), want);
    }
    Ok(())
}

#[test]
fn decodes(rt: HostRuntime) -> Result<(), Fail> {
    expect_insns(&rt, rt.alloc(), ASSEMBLED.as_slice())?;
    expect_insns(&rt, rt.alloc(), WORKED.as_slice())
}

#[test]
fn refuses(rt: HostRuntime) {
    for (word, what) in REFUSED.as_slice() {
        same_at(&rt, &word, &decode(*word), &None);
    }
}
