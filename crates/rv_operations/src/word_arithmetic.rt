//! The same arithmetic on words of 32 bits.

ghost use Rattle.std.specs.Prelude.{◌≡◌};
ghost use Rattle.std.specs.Int.{w32};
ghost use Rattle.rv_operations.specs.Arithmetic.{shifted_left, shifted_right};
ghost use Rattle.rv_operations.specs.Arithmetic.{shifted_right_signed, quotient};
ghost use Rattle.rv_operations.specs.Arithmetic.{quotient_unsigned, remainder, remainder_unsigned};

pub(crate) fn shifted_left(x: u32, y: u32) -> u32
    ensures { result ≡ shifted_left w32 x y }
{
    x << (y % 32)
}

pub(crate) fn shifted_right(x: u32, y: u32) -> u32
    ensures { result ≡ shifted_right w32 x y }
{
    x >> (y % 32)
}

pub(crate) fn shifted_right_signed(x: u32, y: u32) -> u32
    ensures { result ≡ shifted_right_signed w32 x y }
{
    (x.cast_signed() >> (y % 32)).cast_unsigned()
}

pub(crate) fn quotient(x: u32, y: u32) -> u32
    ensures { result ≡ quotient w32 x y }
{
    if y == 0 {
        u32::MAX
    } else {
        x.cast_signed()
            .wrapping_div(y.cast_signed())
            .cast_unsigned()
    }
}

pub(crate) fn quotient_unsigned(x: u32, y: u32) -> u32
    ensures { result ≡ quotient_unsigned w32 x y }
{
    if y == 0 { u32::MAX } else { x / y }
}

pub(crate) fn remainder(x: u32, y: u32) -> u32
    ensures { result ≡ remainder w32 x y }
{
    if y == 0 {
        x
    } else {
        x.cast_signed()
            .wrapping_rem(y.cast_signed())
            .cast_unsigned()
    }
}

pub(crate) fn remainder_unsigned(x: u32, y: u32) -> u32
    ensures { result ≡ remainder_unsigned x y }
{
    if y == 0 { x } else { x % y }
}
