//! A cursor over bytes of memory.

ghost use Rattle.std.specs.Prelude.{◌≡◌, ◌+◌, ◌<◌, ◌≤◌, ◌^◌, length, IfSome};
ghost use Rattle.std.specs.Option.{option_map};
ghost use Rattle.elf_image.specs.Number.{u16_at, u32_at, u64_at};
ghost use Rattle.landing_pads.specs.Place as spec;
ghost use Rattle.landing_pads.specs.Inner.{place_of, read_of};

use elf_image::{u16_at, u32_at, u64_at};

/// The bytes of memory that are left to read. Each call reads from their front, and gives what it
/// read and the cursor after that; `None` if it says nothing.
#[derive(Clone, Copy)]
pub(crate) struct Cursor<'a> {
    /// The address of the first byte that is left.
    pub(crate) address: u64,
    /// The bytes that are left.
    pub(crate) bytes: &'a [u8],
}

impl<'a> Cursor<'a> {
    /// The cursor `n` bytes further on.
    pub(crate) fn after(self, n: usize) -> Cursor<'a>
        requires { n ≤ length self.bytes.now }
        ensures place { place_of result ≡ spec.after n (place_of self.entry) }
        ensures left { length result.bytes.now + n ≡ length self.entry.bytes.now }
    {
        Cursor {
            address: self.address.wrapping_add(n as u64),
            bytes: &self.bytes[n..],
        }
    }

    /// One byte.
    #[tactic(auto, unfolding(crate::specs::Place::byte))]
    pub(crate) fn byte(self) -> Option<(u8, Cursor<'a>)>
        ensures value { read_of result ≡ spec.byte (place_of self.entry) }
        ensures left { IfSome result
            (λ r. length r.1.bytes.now + 1 ≡ length self.entry.bytes.now) }
    {
        if self.bytes.is_empty() {
            return None;
        }
        Some((self.bytes[0], self.after(1)))
    }

    /// The first `n` of the bytes that are left.
    pub(crate) fn first(self, n: u64) -> Option<Cursor<'a>>
        ensures value { option_map place_of result ≡ spec.first n (place_of self.entry) }
        ensures within { IfSome result
            (λ c. length c.bytes.now ≤ length self.entry.bytes.now) }
    {
        if n > self.bytes.len() as u64 {
            return None;
        }
        Some(Cursor {
            address: self.address,
            bytes: &self.bytes[..n as usize],
        })
    }

    /// An unsigned number of two bytes.
    pub(crate) fn u16(self) -> Option<(u64, Cursor<'a>)>
        ensures value { read_of result ≡ spec.fixed 2 u16_at (place_of self.entry) }
        ensures small { IfSome result (λ r. r.0 < 2 ^ 16) }
        ensures left { IfSome result
            (λ r. length r.1.bytes.now + 2 ≡ length self.entry.bytes.now) }
    {
        if self.bytes.len() < 2 {
            return None;
        }
        Some((u64::from(u16_at(self.bytes, 0)), self.after(2)))
    }

    /// An unsigned number of four bytes.
    pub(crate) fn u32(self) -> Option<(u64, Cursor<'a>)>
        ensures value { read_of result ≡ spec.fixed 4 u32_at (place_of self.entry) }
        ensures small { IfSome result (λ r. r.0 < 2 ^ 32) }
        ensures left { IfSome result
            (λ r. length r.1.bytes.now + 4 ≡ length self.entry.bytes.now) }
    {
        if self.bytes.len() < 4 {
            return None;
        }
        Some((u64::from(u32_at(self.bytes, 0)), self.after(4)))
    }

    /// An unsigned number of eight bytes.
    pub(crate) fn u64(self) -> Option<(u64, Cursor<'a>)>
        ensures value { read_of result ≡ spec.fixed 8 u64_at (place_of self.entry) }
        ensures left { IfSome result
            (λ r. length r.1.bytes.now + 8 ≡ length self.entry.bytes.now) }
    {
        if self.bytes.len() < 8 {
            return None;
        }
        Some((u64_at(self.bytes, 0), self.after(8)))
    }
}
