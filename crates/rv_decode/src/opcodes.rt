//! The major opcodes, bits 6 to 0 of a word (RISC-V Unprivileged ISA 20240411, "RV32/64G
//! Instruction Set Listings").

/// LB to LWU.
pub const LOAD: u8 = 0x03;

/// FENCE and FENCE.I.
pub const MISC_MEM: u8 = 0x0f;

/// Operations on a register and an immediate.
pub const OP_IMM: u8 = 0x13;

/// AUIPC.
pub const AUIPC: u8 = 0x17;

/// Operations on 32 bits of a register and an immediate.
pub const OP_IMM_32: u8 = 0x1b;

/// SB to SD.
pub const STORE: u8 = 0x23;

/// The atomic instructions.
pub const AMO: u8 = 0x2f;

/// Operations on two registers.
pub const OP: u8 = 0x33;

/// LUI.
pub const LUI: u8 = 0x37;

/// Operations on 32 bits of two registers.
pub const OP_32: u8 = 0x3b;

/// The conditional branches.
pub const BRANCH: u8 = 0x63;

/// JALR.
pub const JALR: u8 = 0x67;

/// JAL.
pub const JAL: u8 = 0x6f;

/// ECALL, EBREAK, and the operations on control and status registers.
pub const SYSTEM: u8 = 0x73;
