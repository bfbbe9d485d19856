//! Code sections with the reaches of their halfwords, looked up by address.

ghost use Rattle.std.specs.Prelude.{◌≡◌, ℕ, ◌+◌, ◌-◌, ◌*◌, ◌/◌, ◌≤◌, ◌<◌, List, length, Some};
ghost use Rattle.std.specs.Prelude.{IfSome, IfNone, nat_le, nat_lt, ◌&&◌, true};
ghost use Rattle.elf_image.specs.Code.{half_at, is_code};
ghost use Rattle.rv_flow.specs.InsnBytes.{AreBytesAt};
ghost use Rattle.chain_index.specs.Chain.{IsChainEnd};
ghost use Rattle.chain_index.specs.Found.{AreFalling, AreChainEndsOf, BeginsAt, last_count};
ghost use Rattle.chain_index.specs.Numbers.{codes_below, code_count};
ghost use Rattle.chain_index.specs.Inner.{AreRight, IsCountAbove};
ghost use Rattle.chain_index.specs.Inner.{IsReachedAt, Reaches};

use elf_image::{Image, Span, u16_at, u32_at};
use rv_flow::InsnBytes;

/// A code section, and how far the chains of its halfwords reach.
#[derive(Drop)]
pub(crate) struct SectionReaches {
    /// The address of its first byte in memory.
    pub(crate) address: u64,
    /// Where its bytes begin in the file.
    pub(crate) offset: u64,
    /// How many halfwords of code there are from its address on, in this section and those above.
    pub(crate) from: u32,
    /// Of each of its halfwords, how many halfwords the last address of the chain lies ahead.
    pub(crate) reaches: Vec<u32>,
}

impl SectionReaches {
    /// Whether the halfword at the even address `a` is one of its.
    #[inline]
    pub(crate) fn holds(&self, a: u64) -> bool
        ensures { result ≡ (nat_le self.now.address a
            && nat_lt ((a - self.now.address) / 2) (length self.now.reaches.items)) }
    {
        a >= self.address && (a - self.address) / 2 < self.reaches.len() as u64
    }

    /// Whether the number `n`, of `numbers` in all, is that of one of its halfwords.
    #[inline]
    pub(crate) fn has_number(&self, numbers: u32, n: u32) -> bool
        ensures { result ≡ (nat_le numbers (n + self.now.from)
            && nat_lt (n + self.now.from - numbers) (length self.now.reaches.items)) }
    {
        let above = u64::from(n) + u64::from(self.from);
        let numbers = u64::from(numbers);
        above >= numbers && above - numbers < self.reaches.len() as u64
    }

    /// How many halfwords the end of the chain of its address `a` lies ahead.
    #[inline]
    pub(crate) fn reach(&self, a: u64) -> u32
        requires start { self.now.address ≤ a }
        requires within { (a - self.now.address) / 2 < length self.now.reaches.items }
        ensures { (bytes : List ℕ) → IsReachedAt bytes a self.now
            → IsChainEnd bytes a (a + 2 * result) }
    {
        self.reaches[((a - self.address) / 2) as usize]
    }

    /// The bytes at its address `a`.
    #[inline]
    pub(crate) fn bytes_at(&self, image: &Image, a: u64) -> InsnBytes
        requires { IsReachedAt image.now a self.now }
        ensures { AreBytesAt image.now a result }
    {
        if (a - self.address) / 2 + 1 >= self.reaches.len() as u64 {
            return InsnBytes {
                half: self.half(image, a),
                word: None,
            };
        }
        let bytes = image.bytes(Span {
            at: (self.offset + (a - self.address)) as u32,
            len: 4,
        });
        InsnBytes {
            half: u16_at(bytes, 0),
            word: Some(u32_at(bytes, 0)),
        }
    }

    /// The halfword at its address `a`.
    #[inline]
    pub(crate) fn half(&self, image: &Image, a: u64) -> u16
        requires { IsReachedAt image.now a self.now }
        ensures { half_at image.now a ≡ Some result }
    {
        let at = self.offset + (a - self.address);
        let bytes = image.bytes(Span {
            at: at as u32,
            len: 2,
        });
        u16_at(bytes, 0)
    }
}

/// The place of the section with the most halfwords; 0 if there is none.
pub(crate) fn widest(sections: &[SectionReaches]) -> usize {
    sections
        .iter()
        .enumerate()
        .max_by_key(|(_, s)| s.reaches.len())
        .map_or(0, |(place, _)| place)
}

/// How many halfwords of code the sections have together, of which the last begins at the lowest
/// address.
pub(crate) fn halfwords(sections: &[SectionReaches]) -> u32
    ensures { result ≡ last_count 0 sections.now }
{
    match sections.last() {
        None => 0,
        Some(lowest) => lowest.from,
    }
}

/// How many of the sections begin above `a`: the next one, if there is one, is the last that begins
/// at `a` or before.
pub(crate) fn count_above(sections: &[SectionReaches], a: u64) -> usize
    requires { AreFalling sections.now }
    ensures { IsCountAbove sections.now a result }
{
    sections.partition_point(|s| s.address > a)
}

/// How many of the sections begin above the code address with the number `n`, of `numbers` in all.
pub(crate) fn count_above_number(sections: &[SectionReaches], numbers: u32, n: u32) -> usize
    requires { (bytes : List ℕ) × AreChainEndsOf bytes sections.now }
    ensures { (bytes : List ℕ) (a : ℕ) → AreChainEndsOf bytes sections.now
        → numbers ≡ code_count bytes → is_code bytes a ≡ true → n ≡ codes_below bytes a
        → IsCountAbove sections.now a result }
{
    sections.partition_point(|s| u64::from(n) + u64::from(s.from) < u64::from(numbers))
}

/// How far the chain of the address `a` reaches, if one of the sections begins there.
pub(crate) fn first_reach(sections: &[SectionReaches], a: u64) -> Option<u32>
    requires { AreFalling sections.now }
    ensures some { IfSome result
        (λ _. (bytes : List ℕ) → AreRight bytes sections.now → Reaches bytes a result) }
    ensures none { IfNone result
        ((bytes : List ℕ) → AreRight bytes sections.now → BeginsAt sections.now a → ⊥) }
{
    let s = sections.get(count_above(sections, a))?;
    if s.address == a {
        s.reaches.first().copied()
    } else {
        None
    }
}
