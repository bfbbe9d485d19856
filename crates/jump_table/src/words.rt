//! The data words of a table.

ghost use Rattle.std.specs.Prelude.{◌≡◌, ◌+◌, ◌^◌, ◌<◌, length, OnSome};
ghost use Rattle.std.proofs.Props.{props};
ghost use Rattle.elf_image.specs.ReadOnly.{data_word, AreWordsFrom};

use elf_image::{Image, u32_at};

/// The data words from an address on.
#[derive(Clone, Copy)]
pub(crate) struct Words<'a> {
    pub(crate) image: &'a Image,
    /// The address of the first.
    pub(crate) base: u64,
    /// The bytes of those whose section is known: no section is searched for these.
    near: &'a [u8],
    ghost near_words: { AreWordsFrom image.now base near.now } by { Prim.hlevel props },
    ghost in_memory: { base + length near.now < 2 ^ 64 },
}

impl<'a> Words<'a> {
    /// The data words from `base` on.
    pub(crate) fn new(image: &'a Image, base: u64) -> Words<'a>
        ensures image { result.image.now ≡ image.now }
        ensures base { result.base ≡ base }
    {
        Words {
            image,
            base,
            near: image.data_from(base),
        }
    }

    /// The data word that begins `at` bytes after the first.
    #[inline(always)]
    pub(crate) fn word(&self, at: u64) -> Option<u32>
        requires { self.now.base + at < 2 ^ 64 }
        ensures value { result ≡ data_word self.now.image.now (self.now.base + at) }
        ensures in_memory { OnSome result (self.now.base + at + 4 < 2 ^ 64) }
    {
        let len = self.near.len() as u64;
        if at < len && len - at >= 4 {
            Some(u32_at(self.near, at as usize))
        } else {
            self.image.data_word(self.base + at)
        }
    }
}
