//! Numbers and pointers by their encodings (LSB Core, "DWARF Exception Header Encoding"; DWARF 5,
//! "Variable Length Data").

ghost use Rattle.std.specs.Prelude.{◌≡◌, ◌<◌, ◌≤◌, ◌^◌, nat_lt, length, IfSome};
ghost use Rattle.std.specs.List.{position};
ghost use Rattle.std.specs.Option.{option_map};
ghost use Rattle.elf_image.specs.Number.{u16_at, u32_at};
ghost use Rattle.landing_pads.specs.Number as spec;
ghost use Rattle.landing_pads.specs.Pointer as pointer_spec;
ghost use Rattle.landing_pads.specs.Inner.{place_of, read_of, last_as, leb_of};

use crate::cursor::Cursor;

/// The place of the last byte of a LEB128.
fn last_of_leb(bytes: &[u8]) -> Option<usize>
    ensures { result ≡ position (λ b. nat_lt b 128) bytes.now }
{
    bytes.iter().position(|b| *b < 128)
}

/// What the last byte of a LEB128 counts as: that of a SLEB128 has a sign.
fn last_as(is_signed: bool, b: u8) -> u64
    requires { b < 128 }
    ensures { result ≡ last_as is_signed b }
{
    if is_signed && b >= 64 {
        u64::from(b) + (u64::MAX - 127)
    } else {
        u64::from(b)
    }
}

/// A LEB128 at the front of some bytes: its value modulo 2^64, and how many bytes it takes.
fn leb128(is_signed: bool, bytes: &[u8]) -> Option<(u64, usize)>
    ensures value { result ≡ option_map leb_of (spec.leb128 (last_as is_signed) bytes.now) }
    ensures within { IfSome result (λ n. n.1 ≤ length bytes.now) }
    ensures some { IfSome result (λ n. 0 < n.1) }
{
    let last = last_of_leb(bytes)?;
    let mut value = last_as(is_signed, bytes[last]);
    let mut i = last;
    while i > 0 {
        i -= 1;
        value = value
            .wrapping_mul(128)
            .wrapping_add(u64::from(bytes[i] % 128));
    }
    Some((value, last + 1))
}

/// A number of 16 bits, of which the highest is a sign, as one of 64 bits.
fn extended_16(x: u64) -> u64
    requires { x < 2 ^ 16 }
    ensures { result ≡ spec.extended 16 x }
{
    if x < 0x8000 {
        x
    } else {
        x + 0xFFFF_FFFF_FFFF_0000
    }
}

/// A number of 32 bits, of which the highest is a sign, as one of 64 bits.
fn extended_32(x: u64) -> u64
    requires { x < 2 ^ 32 }
    ensures { result ≡ spec.extended 32 x }
{
    if x < 0x8000_0000 {
        x
    } else {
        x + 0xFFFF_FFFF_0000_0000
    }
}

impl<'a> Cursor<'a> {
    /// A LEB128.
    fn leb(self, is_signed: bool) -> Option<(u64, Cursor<'a>)>
        ensures value { read_of result ≡ spec.leb_at (last_as is_signed) (place_of self.entry) }
        ensures shorter { IfSome result
            (λ r. length r.1.bytes.now < length self.entry.bytes.now) }
    {
        let (value, size) = leb128(is_signed, self.bytes)?;
        Some((value, self.after(size)))
    }

    /// A ULEB128.
    #[tactic(auto, unfolding(crate::specs::Number::uleb128))]
    pub(crate) fn uleb128(self) -> Option<(u64, Cursor<'a>)>
        ensures value { read_of result ≡ spec.uleb128 (place_of self.entry) }
        ensures shorter { IfSome result
            (λ r. length r.1.bytes.now < length self.entry.bytes.now) }
    {
        self.leb(false)
    }

    /// A SLEB128.
    #[tactic(auto, unfolding(crate::specs::Number::sleb128))]
    pub(crate) fn sleb128(self) -> Option<(u64, Cursor<'a>)>
        ensures value { read_of result ≡ spec.sleb128 (place_of self.entry) }
        ensures shorter { IfSome result
            (λ r. length r.1.bytes.now < length self.entry.bytes.now) }
    {
        self.leb(true)
    }

    /// A number of two bytes with a sign.
    fn i16(self) -> Option<(u64, Cursor<'a>)>
        ensures value { read_of result ≡ spec.signed 2 u16_at (place_of self.entry) }
        ensures shorter { IfSome result
            (λ r. length r.1.bytes.now < length self.entry.bytes.now) }
    {
        let (x, rest) = self.u16()?;
        Some((extended_16(x), rest))
    }

    /// A number of four bytes with a sign.
    fn i32(self) -> Option<(u64, Cursor<'a>)>
        ensures value { read_of result ≡ spec.signed 4 u32_at (place_of self.entry) }
        ensures shorter { IfSome result
            (λ r. length r.1.bytes.now < length self.entry.bytes.now) }
    {
        let (x, rest) = self.u32()?;
        Some((extended_32(x), rest))
    }

    /// The number of an encoding.
    #[tactic(auto, unfolding(crate::specs::Number::number))]
    pub(crate) fn number(self, encoding: u8) -> Option<(u64, Cursor<'a>)>
        ensures value { read_of result ≡ spec.number encoding (place_of self.entry) }
        ensures shorter { IfSome result
            (λ r. length r.1.bytes.now < length self.entry.bytes.now) }
    {
        match encoding % 16 {
            0 | 4 | 12 => self.u64(),
            1 => self.uleb128(),
            2 => self.u16(),
            3 => self.u32(),
            9 => self.sleb128(),
            10 => self.i16(),
            11 => self.i32(),
            _ => None,
        }
    }

    /// The pointer of an encoding.
    #[tactic(auto, unfolding(crate::specs::Pointer::pointer))]
    pub(crate) fn pointer(self, encoding: u8) -> Option<(u64, Cursor<'a>)>
        ensures { read_of result ≡ pointer_spec.pointer encoding (place_of self.entry) }
    {
        match encoding / 16 {
            0 => self.number(encoding),
            1 => self.relative(encoding),
            _ => None,
        }
    }

    /// A pointer that counts from its first byte.
    fn relative(self, encoding: u8) -> Option<(u64, Cursor<'a>)>
        ensures { read_of result
            ≡ option_map (λ r. (pointer_spec.relative self.entry.address r.0, r.1))
            (spec.number encoding (place_of self.entry)) }
    {
        let (n, rest) = self.number(encoding)?;
        if n == 0 {
            return Some((0, rest));
        }
        Some((self.address.wrapping_add(n), rest))
    }
}
