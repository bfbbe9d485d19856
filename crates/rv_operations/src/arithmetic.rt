//! Arithmetic on registers of 64 bits that Rust has under another name, or leaves undefined for a
//! zero divisor.

ghost use Rattle.std.specs.Prelude.{◌≡◌, ◌%◌};
ghost use Rattle.std.specs.Int.{w32, w64};
ghost use Rattle.rv_operations.specs.Arithmetic.{low_word, sign_extended, shifted_left};
ghost use Rattle.rv_operations.specs.Arithmetic.{shifted_right, shifted_right_signed, is_less};
ghost use Rattle.rv_operations.specs.Arithmetic.{is_less_unsigned, quotient, quotient_unsigned};
ghost use Rattle.rv_operations.specs.Arithmetic.{remainder, remainder_unsigned};

/// The low 32 bits of a register.
pub(crate) fn low_word(x: u64) -> u32
    ensures { result ≡ low_word x }
{
    (x % (1 << 32)) as u32
}

/// A word, sign-extended to 64 bits.
pub fn sign_extended_word(x: u32) -> u64
    ensures { result ≡ sign_extended w32 x }
{
    i64::from(x.cast_signed()).cast_unsigned()
}

/// The low 6 bits of a shift's amount.
fn amount(y: u64) -> u32
    ensures { result ≡ y % 64 }
{
    (y % 64) as u32
}

pub(crate) fn shifted_left(x: u64, y: u64) -> u64
    ensures { result ≡ shifted_left w64 x y }
{
    x << amount(y)
}

pub(crate) fn shifted_right(x: u64, y: u64) -> u64
    ensures { result ≡ shifted_right w64 x y }
{
    x >> amount(y)
}

pub(crate) fn shifted_right_signed(x: u64, y: u64) -> u64
    ensures { result ≡ shifted_right_signed w64 x y }
{
    (x.cast_signed() >> amount(y)).cast_unsigned()
}

/// 1 if `x` is less than `y` as a signed number, else 0.
pub(crate) fn is_less(x: u64, y: u64) -> u64
    ensures { result ≡ is_less x y }
{
    u64::from(x.cast_signed() < y.cast_signed())
}

/// 1 if `x` is less than `y`, else 0.
pub(crate) fn is_less_unsigned(x: u64, y: u64) -> u64
    ensures { result ≡ is_less_unsigned x y }
{
    u64::from(x < y)
}

pub(crate) fn quotient(x: u64, y: u64) -> u64
    ensures { result ≡ quotient w64 x y }
{
    if y == 0 {
        u64::MAX
    } else {
        x.cast_signed()
            .wrapping_div(y.cast_signed())
            .cast_unsigned()
    }
}

pub(crate) fn quotient_unsigned(x: u64, y: u64) -> u64
    ensures { result ≡ quotient_unsigned w64 x y }
{
    if y == 0 { u64::MAX } else { x / y }
}

pub(crate) fn remainder(x: u64, y: u64) -> u64
    ensures { result ≡ remainder w64 x y }
{
    if y == 0 {
        x
    } else {
        x.cast_signed()
            .wrapping_rem(y.cast_signed())
            .cast_unsigned()
    }
}

pub(crate) fn remainder_unsigned(x: u64, y: u64) -> u64
    ensures { result ≡ remainder_unsigned x y }
{
    if y == 0 { x } else { x % y }
}
