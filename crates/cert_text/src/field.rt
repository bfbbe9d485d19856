//! The fields of a line, read from the front of the bytes.

ghost use Rattle.std.specs.Prelude.{◌≡◌, ◌<◌, ◌+◌};
ghost use Rattle.std.specs.Option.{option_map};
ghost use Rattle.cert_text.specs.Reading.{after, hex_value, hex_from, address_at};
ghost use Rattle.cert_text.specs.Reading.{rank_from, digits_at, rank_at};

/// The bytes after `word`, if they begin with it.
#[tactic(auto, unfolding(crate::specs::Reading::after))]
#[inline(always)]
pub fn after<'a>(bytes: &'a [u8], word: &[u8]) -> Option<&'a [u8]>
    ensures { option_map (λ s. s.now) result ≡ after word.now bytes.entry.now }
{
    bytes.strip_prefix(word)
}

/// The value of a hexadecimal digit in lower case.
#[tactic(auto, unfolding(crate::specs::Reading::hex_value))]
#[inline(always)]
fn hex_value(digit: u8) -> Option<u8>
    ensures { result ≡ hex_value digit }
{
    match digit {
        b'0'..=b'9' => Some(digit - b'0'),
        b'a'..=b'f' => Some(digit - 87),
        _ => None,
    }
}

/// Sixteen hexadecimal digits.
#[inline(always)]
fn sixteen_digits(bytes: &[u8]) -> Option<(u64, &[u8])>
    ensures { option_map (λ x. (x.0, x.1.now)) result ≡ hex_from 16 0 bytes.entry.now }
{
    let mut address: u64 = 0;
    let mut rest = bytes;
    for _digit in 0..16u8 {
        let (digit, others) = rest.split_first()?;
        address = address * 16 + u64::from(hex_value(*digit)?);
        rest = others;
    }
    Some((address, rest))
}

/// A space and an address.
#[tactic(auto, unfolding(crate::specs::Reading::address_at))]
#[inline(always)]
pub fn address_at(bytes: &[u8]) -> Option<(u64, &[u8])>
    ensures { option_map (λ x. (x.0, x.1.now)) result ≡ address_at bytes.entry.now }
{
    let digits = after(bytes, b" ")?;
    sixteen_digits(digits)
}

/// The decimal digits at the front, after those of a number; `None` if the number of all of them
/// has more than 64 bits.
#[tactic(auto, unfolding(crate::specs::Reading::rank_from))]
#[inline(always)]
fn rank_from(first: u64, bytes: &[u8]) -> Option<(u64, &[u8])>
    ensures { option_map (λ x. (x.0, x.1.now)) result ≡ rank_from first bytes.entry.now }
{
    let mut rank = first;
    for (i, digit) in bytes.iter().enumerate() {
        if !digit.is_ascii_digit() {
            return Some((rank, &bytes[i..]));
        }
        rank = rank.checked_mul(10)?.checked_add(u64::from(*digit - b'0'))?;
    }
    Some((rank, &bytes[bytes.len()..]))
}

/// A decimal number of 64 bits without leading zeros.
#[tactic(auto, unfolding(crate::specs::Reading::digits_at))]
#[inline(always)]
fn digits_at(bytes: &[u8]) -> Option<(u64, &[u8])>
    ensures { option_map (λ x. (x.0, x.1.now)) result ≡ digits_at bytes.entry.now }
{
    let (first, rest) = bytes.split_first()?;
    match first {
        b'0' => Some((0, rest)),
        b'1'..=b'9' => rank_from(u64::from(*first - b'0'), rest),
        _ => None,
    }
}

/// A space and a rank.
#[tactic(auto, unfolding(crate::specs::Reading::rank_at))]
#[inline(always)]
pub fn rank_at(bytes: &[u8]) -> Option<(u64, &[u8])>
    ensures { option_map (λ x. (x.0, x.1.now)) result ≡ rank_at bytes.entry.now }
{
    let digits = after(bytes, b" ")?;
    digits_at(digits)
}
