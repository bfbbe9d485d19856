//! The high halves of products of 128 bits (RISC-V Unprivileged ISA 20240411, section 13.1).

ghost use Rattle.std.specs.Prelude.{◌≡◌, ◌^◌, ◌-◌, ◌≤◌, pos, unsigned_abs};
ghost use Rattle.std.specs.Int.{w64, cast_signed};
ghost use Rattle.rv_operations.specs.Arithmetic.{high_half, high_half_unsigned};

/// Of a signed number and one whose magnitude is below 2^64.
fn high_half(x: i64, y: i128) -> u64
    requires { unsigned_abs y ≤ 2 ^ 64 - 1 }
    ensures { result ≡ high_half x y }
{
    let product = i128::from(x) * y;
    ((product >> 64) as i64).cast_unsigned()
}

/// Of two signed numbers.
pub(crate) fn high_half_signed(x: u64, y: u64) -> u64
    ensures { result ≡ high_half (cast_signed w64 x) (cast_signed w64 y) }
{
    high_half(x.cast_signed(), i128::from(y.cast_signed()))
}

/// Of a signed and an unsigned number.
pub(crate) fn high_half_mixed(x: u64, y: u64) -> u64
    ensures { result ≡ high_half (cast_signed w64 x) (pos y) }
{
    high_half(x.cast_signed(), i128::from(y))
}

/// Of two unsigned numbers.
pub(crate) fn high_half_unsigned(x: u64, y: u64) -> u64
    ensures { result ≡ high_half_unsigned x y }
{
    let (_low, high) = x.carrying_mul(y, 0);
    high
}
