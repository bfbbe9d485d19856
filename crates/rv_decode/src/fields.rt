//! The fields and the immediates of an instruction word (RISC-V Unprivileged ISA 20240411,
//! sections 2.2 and 2.3).

ghost use Rattle.std.specs.Prelude.{◌≡◌, ◌*◌, ◌^◌, ◌<◌, ◌≤◌, nat_lt, if◌then◌else◌, pos, ◌-ℤ◌};
ghost use Rattle.rv_decode.specs.Fields.{opcode, rd, funct3, rs1, rs2, funct7, funct6, funct5};
ghost use Rattle.rv_decode.specs.Fields.{acquire, release, csr, shift_amount, word_shift_amount};
ghost use Rattle.rv_decode.specs.Fields.{i_immediate, s_immediate, b_offset, j_offset, u_immediate};

/// Bits 6 to 0.
pub fn opcode(word: u32) -> u8
    ensures { result ≡ opcode word }
{
    (word & 0x7f) as u8
}

/// Bits 11 to 7.
pub fn rd(word: u32) -> u8
    ensures { result ≡ rd word }
{
    (word >> 7 & 0x1f) as u8
}

/// Bits 14 to 12.
pub fn funct3(word: u32) -> u8
    ensures { result ≡ funct3 word }
{
    (word >> 12 & 0x7) as u8
}

/// Bits 19 to 15.
pub fn rs1(word: u32) -> u8
    ensures { result ≡ rs1 word }
{
    (word >> 15 & 0x1f) as u8
}

/// Bits 24 to 20.
pub fn rs2(word: u32) -> u8
    ensures { result ≡ rs2 word }
{
    (word >> 20 & 0x1f) as u8
}

/// Bits 31 to 25.
pub fn funct7(word: u32) -> u8
    ensures { result ≡ funct7 word }
{
    (word >> 25) as u8
}

/// Bits 31 to 26.
pub fn funct6(word: u32) -> u8
    ensures { result ≡ funct6 word }
{
    (word >> 26) as u8
}

/// Bits 31 to 27.
pub fn funct5(word: u32) -> u8
    ensures { result ≡ funct5 word }
{
    (word >> 27) as u8
}

/// The ordering bit `aq`, bit 26.
pub fn acquire(word: u32) -> bool
    ensures { result ≡ acquire word }
{
    word >> 26 & 1 == 1
}

/// The ordering bit `rl`, bit 25.
pub fn release(word: u32) -> bool
    ensures { result ≡ release word }
{
    word >> 25 & 1 == 1
}

/// Bits 31 to 20, the number of a control and status register.
pub fn csr(word: u32) -> u16
    ensures { result ≡ csr word }
{
    (word >> 20) as u16
}

/// The amount of a shift of 64 bits, bits 25 to 20.
pub fn shift_amount(word: u32) -> i64
    ensures { result ≡ shift_amount word }
{
    i64::from(word >> 20 & 0x3f)
}

/// The amount of a shift of 32 bits, bits 24 to 20.
pub fn word_shift_amount(word: u32) -> i64
    ensures { result ≡ word_shift_amount word }
{
    i64::from(word >> 20 & 0x1f)
}

/// `n` in two's complement, where `sign` is the place value of its highest bit.
fn sign_extended(n: u32, sign: u32) -> i64
    ensures { result ≡ (if nat_lt n sign then pos n else pos n -ℤ pos (2 * sign)) }
{
    if n < sign {
        i64::from(n)
    } else {
        i64::from(n) - 2 * i64::from(sign)
    }
}

/// The immediate of the I format.
pub fn i_immediate(word: u32) -> i64
    ensures { result ≡ i_immediate word }
{
    sign_extended(word >> 20, 1 << 11)
}

/// The immediate of the S format.
pub fn s_immediate(word: u32) -> i64
    ensures { result ≡ s_immediate word }
{
    sign_extended(word >> 25 << 5 | word >> 7 & 0x1f, 1 << 11)
}

/// The immediate of the B format, in bytes.
pub fn b_offset(word: u32) -> i64
    ensures { result ≡ b_offset word }
{
    let bits = (word >> 31) << 12
        | (word >> 7 & 0x1) << 11
        | (word >> 25 & 0x3f) << 5
        | (word >> 8 & 0xf) << 1;
    sign_extended(bits, 1 << 12)
}

/// The immediate of the J format, in bytes.
pub fn j_offset(word: u32) -> i64
    ensures { result ≡ j_offset word }
{
    let bits = (word >> 31) << 20
        | (word >> 12 & 0xff) << 12
        | (word >> 20 & 0x1) << 11
        | (word >> 21 & 0x3ff) << 1;
    sign_extended(bits, 1 << 20)
}

/// The immediate of the U format.
pub fn u_immediate(word: u32) -> i64
    ensures { result ≡ u_immediate word }
{
    sign_extended(word & 0xffff_f000, 1 << 31)
}
