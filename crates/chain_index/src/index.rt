//! The index of an image's chains.

ghost use Rattle.std.specs.Prelude.{◌≡◌, ℕ, ◌+◌, ◌*◌, ◌/◌, ◌<◌, ◌≤◌, IsTrue, IfOk, true};
ghost use Rattle.std.specs.Prelude.{vec_len};
ghost use Rattle.std.specs.List.Sorted.{IsNonDecreasing};
ghost use Rattle.elf_image.specs.Architecture.{extensions_of};
ghost use Rattle.elf_image.specs.Code.{is_code};
ghost use Rattle.rv_flow.specs.InsnBytes.{AreBytesAt};
ghost use Rattle.chain_index.specs.Chain.{next_of, IsChainEnd};
ghost use Rattle.chain_index.specs.Found.{AreChainEndsOf, IsCodeOf};
ghost use Rattle.chain_index.specs.Numbers.{codes_below, code_count};
ghost use Rattle.chain_index.specs.Inner.{IsNumberedIn, IsReachedAt, Reaches, length_by};

use crate::Memory;
use crate::lookup::{SectionReaches, count_above, count_above_number, halfwords, widest};
use crate::over_sections::over_sections;
use crate::reach::section_reaches;
use crate::sharing::{reaches_by, workers_for};
use elf_image::Image;
use parallel::MOST_WORKERS;
use rv_flow::InsnBytes;
use std::alloc::Global;
use std::marker::Model;
use std::thread::Threads;

/// How far the chain of each code address of an image reaches. To a contract it is the list of the
/// bytes of the file.
#[derive(Drop)]
pub struct ChainIndex<'a> {
    image: &'a Image,
    /// The code sections that hold a halfword, from the highest address down.
    sections: Vec<SectionReaches>,
    /// How many code addresses there are.
    numbers: u32,
    /// The place of the widest of them, where most addresses lie; 0 if there is none.
    widest: usize,
}

impl<'a> Model for ChainIndex<'a> {
    ghost use Rattle.std.specs.Prelude.{List, ℕ};

    ghost Value = { List ℕ };

    ghost view = { λ index. index.image.now };

    ghost use Rattle.std.specs.Prelude.{◌≡◌};
    ghost use Rattle.chain_index.specs.Found.{AreChainEndsOf};
    ghost use Rattle.chain_index.specs.Numbers.{code_count};

    ghost invariant = { λ index. AreChainEndsOf index.image.now index.sections.items
        × (index.numbers ≡ code_count index.image.now) };
}

/// What an index keeps beside the image, so that it can be made if no image can be borrowed for
/// that long. Contracts see what is kept of each section.
#[derive(Drop)]
pub struct ChainEnds {
    sections: Vec<SectionReaches>,
}

impl Model for ChainEnds {
    ghost use Rattle.std.specs.Prelude.{List};
    ghost use Rattle.chain_index.specs.declared.lookup.SectionReaches.{SectionReaches};

    ghost Value = { List SectionReaches };

    ghost view = { λ reaches. reaches.sections.items };
}

impl ChainEnds {
    /// What an index keeps of an image. Memory is taken once a section, four bytes for each
    /// halfword. The only error is that memory ran out.
    /// Time: O(bytes of code). Memory: O(bytes of code).
    pub fn new(alloc: Global, image: &Image) -> Result<ChainEnds, Memory>
        ensures { IfOk result (AreChainEndsOf image.now) }
    {
        let sections = over_sections(alloc, image, |forms, s, behind| {
            section_reaches(alloc, image, forms, s, behind)
        })?;
        Ok(ChainEnds { sections })
    }

    /// The same, made by `workers` workers, from 1 to 64. With one worker no thread is started, nor
    /// for a section of fewer than 65,536 halfwords. In a longer one each worker makes the reaches
    /// of a range. Before that it walks the chains of the two halfwords after its range. On one
    /// long straight run these have the length of all the rest of the section.
    pub fn new_by<R: Threads + Sync>(
        rt: &R,
        alloc: Global,
        image: &Image,
        workers: u32,
    ) -> Result<ChainEnds, Memory>
        requires some { 1 ≤ workers }
        requires most { workers ≤ MOST_WORKERS }
        ensures { IfOk result (AreChainEndsOf image.now) }
    {
        if workers == 1 {
            return ChainEnds::new(alloc, image);
        }
        ChainEnds::shared(rt, alloc, image, workers)
    }

    /// The same, with threads for longer sections.
    fn shared<R: Threads + Sync>(
        rt: &R,
        alloc: Global,
        image: &Image,
        workers: u32,
    ) -> Result<ChainEnds, Memory>
        requires { 1 ≤ workers }
        ensures { IfOk result (AreChainEndsOf image.now) }
    {
        let workers = workers as usize;
        let sections = over_sections(
            alloc,
            image,
            |forms, s, behind|
                requires forms { forms.old ≡ extensions_of image.now }
                requires section { IsCodeOf image.now s }
                requires behind { Reaches image.now (s.address + 2 * (s.size / 2)) behind }
                requires workers { 0 < workers }
            {
                let count = workers_for(s.size / 2, workers);
                reaches_by(rt, alloc, image, forms, s, behind, count)
            },
        )?;
        Ok(ChainEnds { sections })
    }
}

impl<'a> ChainIndex<'a> {
    /// The index of an image, made on this thread as [`ChainEnds::new`] makes what it keeps. The
    /// only error is that memory ran out.
    pub fn new(alloc: Global, image: &'a Image) -> Result<ChainIndex<'a>, Memory>
        ensures { IfOk result (λ index. index ≡ image.now) }
    {
        let reaches = ChainEnds::new(alloc, image)?;
        Ok(ChainIndex::of(image, reaches))
    }

    /// The index of an image with what is to be kept of it.
    pub fn of(image: &'a Image, reaches: ChainEnds) -> ChainIndex<'a>
        requires { AreChainEndsOf image.now reaches }
        ensures { result ≡ image.now }
    {
        ChainIndex {
            image,
            numbers: halfwords(&reaches.sections),
            widest: widest(&reaches.sections),
            sections: reaches.sections,
        }
    }

    /// The last address of the chain of the code address `a`: the first one from there on after
    /// which control does not go straight on to code.
    /// Time: O(1) in the widest of n code sections, else O(log n).
    #[inline]
    pub fn term(&self, a: u64) -> u64
        requires { IsTrue (is_code self.now a) }
        ensures { IsChainEnd self.now a result }
    {
        let s = self.section(a);
        a + 2 * u64::from(s.reach(a))
    }

    /// The address after the instruction at the code address `a`, if control goes straight on to
    /// code there; `None` exactly if `a` ends its chain. It decodes nothing.
    /// Time: as [`term`](Self::term).
    #[inline]
    pub fn next(&self, a: u64) -> Option<u64>
        requires { IsTrue (is_code self.now a) }
        ensures { result ≡ next_of self.now a }
    {
        let s = self.section(a);
        if s.reach(a) == 0 {
            return None;
        }
        Some(a + straight_length(s.half(self.image, a)))
    }

    /// The bytes at the code address `a` that an instruction there may have.
    /// Time: as [`term`](Self::term).
    #[inline]
    pub fn bytes_at(&self, a: u64) -> InsnBytes
        requires { IsTrue (is_code self.now a) }
        ensures { AreBytesAt self.now a result }
    {
        self.section(a).bytes_at(self.image, a)
    }

    /// Whether `a` is a code address: [`Image::is_code`] of the image.
    /// Time: as [`term`](Self::term).
    #[inline]
    pub fn is_code(&self, a: u64) -> bool
        ensures { result ≡ is_code self.now a }
    {
        match self.sections.get(self.widest) {
            Some(s) if a % 2 == 0 && s.holds(a) => true,
            _ => self.is_code_elsewhere(a),
        }
    }

    /// The same, by a search among all sections.
    #[inline(never)]
    fn is_code_elsewhere(&self, a: u64) -> bool
        ensures { result ≡ is_code self.now a }
    {
        self.image.is_code(a)
    }

    /// The number of the code address `a`: how many code addresses lie below it. So different ones
    /// have different numbers, in the order of the addresses. Time: that of [`term`](Self::term).
    pub fn number(&self, a: u64) -> u32
        requires { IsTrue (is_code self.now a) }
        ensures number { result ≡ codes_below self.now a }
        ensures below { result < code_count self.now }
    {
        let s = self.section(a);
        self.numbers - s.from + ((a - s.address) / 2) as u32
    }

    /// The code address with the number `n`: what [`number`](Self::number) gives `n` for.
    /// Time: as [`term`](Self::term).
    #[inline]
    pub fn address(&self, n: u32) -> u64
        requires { (a : ℕ) × (is_code self.now a ≡ true) × (n ≡ codes_below self.now a) }
        ensures { (a : ℕ) → is_code self.now a ≡ true → n ≡ codes_below self.now a → result ≡ a }
    {
        let s = self.section_of(n);
        let place = u64::from(n) + u64::from(s.from) - u64::from(self.numbers);
        s.address + 2 * place
    }

    /// The section of the code address with the number `n`: the widest is asked first.
    #[inline(always)]
    fn section_of(&self, n: u32) -> &SectionReaches
        requires { (a : ℕ) × (is_code self.now a ≡ true) × (n ≡ codes_below self.now a) }
        ensures { (a : ℕ) → is_code self.now a ≡ true → n ≡ codes_below self.now a
            → IsNumberedIn self.now a result.now }
    {
        match self.sections.get(self.widest) {
            Some(s) if s.has_number(self.numbers, n) => s,
            _ => self.section_by_number(n),
        }
    }

    /// The same, by a search among all sections.
    fn section_by_number(&self, n: u32) -> &SectionReaches
        requires { (a : ℕ) × (is_code self.now a ≡ true) × (n ≡ codes_below self.now a) }
        ensures { (a : ℕ) → is_code self.now a ≡ true → n ≡ codes_below self.now a
            → IsNumberedIn self.now a result.now }
    {
        &self.sections[count_above_number(&self.sections, self.numbers, n)]
    }

    /// How many code addresses there are: all numbers are below.
    pub fn numbers(&self) -> u32
        ensures { result ≡ code_count self.now }
    {
        self.numbers
    }

    /// `count - 1` addresses that cut the code into `count` ranges of about the same size in bytes,
    /// over all code sections in the order of their addresses. They may be equal if there is little
    /// code.
    pub fn bounds(&self, alloc: Global, count: u32) -> Result<Vec<u64>, Memory>
        requires { 1 ≤ count }
        ensures few { IfOk result (λ bounds. vec_len bounds ≤ count) }
        ensures rising { IfOk result (λ bounds. IsNonDecreasing bounds.items) }
    {
        let share = u64::from(self.numbers) / u64::from(count);
        let mut bounds = Vec::new(alloc);
        for i in 1..count {
            bounds.push(self.nth_halfword(share.saturating_mul(u64::from(i))))?;
        }
        bounds.sort_unstable();
        Ok(bounds)
    }

    /// The address of the `n`-th halfword of the code, from 0 on; 0 if there is none.
    fn nth_halfword(&self, n: u64) -> u64 {
        let mut left = n;
        for s in self.sections.iter().rev() {
            let size = s.reaches.len() as u64;
            if left < size {
                return s.address.saturating_add(left.saturating_mul(2));
            }
            left -= size;
        }
        0
    }

    /// The section of the code address `a`: the widest is asked first.
    #[inline(always)]
    fn section(&self, a: u64) -> &SectionReaches
        requires { IsTrue (is_code self.now a) }
        ensures { IsReachedAt self.now a result.now }
    {
        match self.sections.get(self.widest) {
            Some(s) if s.holds(a) => s,
            _ => self.section_before(a),
        }
    }

    /// The section of the code address `a`: the last that begins at `a` or before.
    fn section_before(&self, a: u64) -> &SectionReaches
        requires { IsTrue (is_code self.now a) }
        ensures { IsReachedAt self.now a result.now }
    {
        &self.sections[count_above(&self.sections, a)]
    }
}

/// The length in bytes of an instruction that begins with the halfword `half` and goes straight on:
/// its low two bits tell a 16-bit one.
fn straight_length(half: u16) -> u64
    ensures { result ≡ length_by half }
{
    if half & 0b11 != 0b11 { 2 } else { 4 }
}
