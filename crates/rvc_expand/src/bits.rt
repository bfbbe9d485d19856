//! Fields of a word.

ghost use Rattle.std.specs.Prelude.{◌≡◌, ◌+◌, ◌<◌, ◌≤◌};
ghost use Rattle.rvc_expand.specs.Bits.{field};

/// Bits `high` to `low` of a number, both included, moved down to bit 0.
#[inline]
pub fn field(number: u32, high: u32, low: u32) -> u32
    requires ordered { low ≤ high }
    requires within { high < 32 }
    requires partial { high < low + 31 }
    ensures { result ≡ field number high low }
{
    (number >> low) & ((1 << (high + 1 - low)) - 1)
}
