//! An accepted file and what is read of it.

ghost use Rattle.std.specs.Prelude.{◌≡◌, ℕ, ◌+◌, ◌-◌, ◌<◌, ◌≤◌, ◌^◌, List, length, true, false};
ghost use Rattle.std.specs.Prelude.{IsTrue, IsSome, IfOk, IfErr, OnOk, OnSome, IfSome, None, Some};
ghost use Rattle.std.specs.Option.{option_copied, option_map};
ghost use Rattle.elf_image.specs.Header as header;
ghost use Rattle.elf_image.specs.Sections.{section, is_code_section, holds_bytes, file_offset};
ghost use Rattle.elf_image.specs.Sections.{section_names, name_begins};
ghost use Rattle.elf_image.specs.Code.{is_even, code_section_of, is_code, section_start, half_at};
ghost use Rattle.elf_image.specs.Code.{word_at, is_code_byte};
ghost use Rattle.elf_image.specs.ReadOnly.{is_read_only, data_section_of, data_word, span_bytes};
ghost use Rattle.elf_image.specs.ReadOnly.{AreWordsFrom, byte_section_of, bytes_from};
ghost use Rattle.elf_image.specs.Fixed.{is_fixed, is_fixed_byte};
ghost use Rattle.elf_image.specs.Architecture.{extensions_of};
ghost use Rattle.elf_image.specs.DeclaredTables.{declared_at};
ghost use Rattle.elf_image.specs.DeclaredNoReturns.{declared_no_returns};
ghost use Rattle.elf_image.specs.FaultTests.{is_out_of_file};
ghost use Rattle.elf_image.specs.Faults.{first_fault, first_image_fault, first_symbol_fault};
ghost use Rattle.elf_image.specs.Faults.{IsImage};
ghost use Rattle.elf_image.specs.Outcome.{IfMalformed};
ghost use Rattle.elf_image.specs.Inner.Found.{IsFoundAt};

use crate::declared::{DeclaredTable, first_of_jump, no_returns};
use crate::extensions::Extensions;
use crate::fault::ElfError;
use crate::layout::{Layout, code_section, judge};
use crate::number::{u16_at, u32_at, u64_at};
use crate::section::{Section, Span};
use std::alloc::{AllocError, Global};
use std::marker::Model;

/// A file without any of the faults up to [`Fault::Entry`](crate::Fault::Entry). To a caller it is
/// the list of the file's bytes.
#[derive(Drop)]
pub struct Image {
    bytes: Vec<u8>,
    layout: Layout,
}

impl Model for Image {
    ghost use Rattle.std.specs.Prelude.{List, ℕ};

    ghost Value = { List ℕ };

    ghost use Rattle.elf_image.specs.Inner.Image.{IsPrepared};

    ghost view = { λ a. a.bytes.items };

    ghost invariant = { IsPrepared };
}

impl Image {
    /// Judges the bytes of a file, and keeps them. `Malformed` names the file's first fault, if
    /// that is one of those up to [`Fault::Entry`](crate::Fault::Entry); faults of the symbols are
    /// not judged. After a refusal the bytes are gone.
    pub fn parse(alloc: Global, bytes: Vec<u8>) -> Result<Image, ElfError>
        ensures ok { IfOk result (λ image. image ≡ bytes.items) }
        ensures accepted { OnOk result (IsImage bytes.items) }
        ensures rest { OnOk result (first_fault bytes.items ≡ first_symbol_fault bytes.items) }
        ensures malformed { IfErr result
            (λ e. IfMalformed e (λ f. first_image_fault bytes.items ≡ Some f)) }
        ensures first { IfErr result (λ e. IfMalformed e (λ f. first_fault bytes.items ≡ Some f)) }
    {
        let layout = judge(alloc, &bytes)?;
        Ok(Image { bytes, layout })
    }

    /// The address where the program starts, a code address (`e_entry`).
    pub fn entry(&self) -> u64
        ensures entry { result ≡ header.entry self.now }
        ensures code { IsTrue (is_code self.now result) }
        ensures image { IsImage self.now }
        ensures rest { first_fault self.now ≡ first_symbol_fault self.now }
    {
        u64_at(&self.bytes, 24)
    }

    /// The code section of a code address.
    #[inline]
    fn code_section(&self, a: u64) -> Option<&Section>
        ensures value { option_copied result ≡ code_section_of self.now a }
        ensures found { IfSome (option_copied result) (IsFoundAt self.now a 2) }
        ensures image { IsImage self.now }
    {
        code_section(&self.layout.code, a)
    }

    /// The first read-only section, in table order, that has the four bytes at `a`.
    fn data_section(&self, a: u64) -> Option<&Section>
        ensures value { option_copied result ≡ data_section_of self.now a }
        ensures found { IfSome (option_copied result) (IsFoundAt self.now a 4) }
    {
        self.layout.read_only.find(a, 4)
    }

    /// Whether `a` is a code address: an even address whose two bytes lie inside one code section.
    /// The other reads of code take the same time.
    /// Time: O(1) in the widest of n code sections, else O(log n).
    #[inline(always)]
    pub fn is_code(&self, a: u64) -> bool
        ensures value { result ≡ is_code self.now a }
        ensures in_memory { IsTrue result → a + 2 < 2 ^ 64 }
        ensures image { IsImage self.now }
    {
        a % 2 == 0 && self.layout.code.has(a, 2)
    }

    /// The address of the code section of a code address; `None` if `a` is no code address.
    pub fn section_start(&self, a: u64) -> Option<u64>
        ensures value { result ≡ section_start self.now a }
        ensures below { IfSome result (λ start. start ≤ a) }
        // Each even address from the start on up to `a` has the same start.
        ensures same { IfSome result
            (λ start. (b : ℕ) → start ≤ b → b ≤ a → is_even b ≡ true
            → section_start self.now b ≡ Some start) }
        ensures image { IsImage self.now }
    {
        let s = self.code_section(a)?;
        Some(s.address)
    }

    /// The halfword at a code address; `None` if `a` is no code address.
    pub fn half_at(&self, a: u64) -> Option<u16>
        ensures value { result ≡ half_at self.now a }
        ensures in_memory { OnSome result (a + 2 < 2 ^ 64) }
        ensures image { IsImage self.now }
    {
        let s = self.code_section(a)?;
        Some(u16_at(&self.bytes, file_offset(s, a)))
    }

    /// The word at a code address; `None` if `a` is no code address or its four bytes leave its
    /// code section.
    pub fn word_at(&self, a: u64) -> Option<u32>
        ensures value { result ≡ word_at self.now a }
        ensures in_memory { OnSome result (a + 4 < 2 ^ 64) }
    {
        let s = self.code_section(a)?;
        if s.holds_bytes(a, 4) {
            Some(u32_at(&self.bytes, file_offset(s, a)))
        } else {
            None
        }
    }

    /// Whether the byte at `a` lies in a read-only section.
    /// Time: O(1) in the widest of n sections, else O(log n); O(n) if two share an address.
    pub fn is_read_only(&self, a: u64) -> bool
        ensures { result ≡ is_read_only self.now a }
    {
        self.layout.read_only.find(a, 1).is_some()
    }

    /// Whether the byte at `a` lies in a code section. `a` may be odd.
    /// Time: as [`is_code`](Self::is_code). Memory: none.
    pub fn is_code_byte(&self, a: u64) -> bool
        ensures { result ≡ is_code_byte self.now a }
    {
        self.layout.code.find(a, 1).is_some()
    }

    /// Whether the byte at `a` lies in a code or a read-only section.
    fn is_fixed_byte(&self, a: u64) -> bool
        ensures { result ≡ is_fixed_byte self.now a }
    {
        self.is_code_byte(a) || self.is_read_only(a)
    }

    /// Whether one of the `n` bytes from `a` on lies in a code or a read-only section. Addresses
    /// wrap around at the end of memory.
    /// Time: `n` times that of [`is_read_only`](Self::is_read_only). Memory: none.
    #[tactic(auto, unfolding(crate::specs::Fixed::is_fixed))]
    pub fn is_fixed(&self, a: u64, n: u64) -> bool
        ensures { result ≡ is_fixed self.now a n }
    {
        (0..n).any(|i| self.is_fixed_byte(a.wrapping_add(i)))
    }

    /// The word at `a` in the first read-only section, in table order, that has all four bytes;
    /// `None` if none has.
    /// Time: as [`is_read_only`](Self::is_read_only).
    pub fn data_word(&self, a: u64) -> Option<u32>
        ensures value { result ≡ data_word self.now a }
        ensures in_memory { OnSome result (a + 4 < 2 ^ 64) }
    {
        let s = self.data_section(a)?;
        Some(u32_at(&self.bytes, file_offset(s, a)))
    }

    /// The bytes from `a` on in the section that [`data_word`](Self::data_word) reads at `a`, for a
    /// caller that reads many words: up to the end of the section if no two read-only sections
    /// share an address, and else four. No bytes if there is no data word at `a`.
    /// Time: as [`is_read_only`](Self::is_read_only). Memory: none.
    pub fn data_from(&self, a: u64) -> &[u8]
        ensures words { AreWordsFrom self.now a result.now }
        ensures first { IsSome (data_word self.now a) → 4 ≤ length result.now }
        ensures in_memory { a + length result.now < 2 ^ 64 }
    {
        let bytes: &[u8] = &self.bytes;
        let Some(s) = self.data_section(a) else {
            return &[];
        };
        let at = file_offset(s, a);
        let len = self.layout.read_only.found_from(s, a, 4);
        &bytes[at..at + len as usize]
    }

    /// The first read-only section, in table order, that has the byte at `a`.
    fn byte_section(&self, a: u64) -> Option<&Section>
        ensures value { option_copied result ≡ byte_section_of self.now a }
        ensures found { IfSome (option_copied result) (IsFoundAt self.now a 1) }
    {
        self.layout.read_only.find(a, 1)
    }

    /// The bytes from `a` on, up to the end of the first read-only section, in table order, that has
    /// the byte at `a`; `None` if none has.
    /// Time: as [`is_read_only`](Self::is_read_only). Memory: none.
    pub fn bytes_from(&self, a: u64) -> Option<&[u8]>
        ensures { option_map (λ b. b.now) result ≡ bytes_from self.now a }
    {
        let bytes: &[u8] = &self.bytes;
        let s = self.byte_section(a)?;
        let begin = file_offset(s, a);
        let len = s.size - (a - s.address);
        Some(&bytes[begin..begin + len as usize])
    }

    /// The extensions beyond RV64GC that the file names. A section that cannot be read names none.
    /// Time: O(1). Memory: none.
    #[inline]
    pub fn extensions(&self) -> &Extensions
        ensures { result.now ≡ extensions_of self.now }
    {
        &self.layout.extensions
    }

    /// What the file declares of the table of the jump at `j`: the first record that names `j`, and
    /// `None` if none does. Whether there is such a table is not judged.
    /// Time: O(log n) for n records. Memory: none.
    pub fn declared(&self, j: u64) -> Option<DeclaredTable>
        ensures { result ≡ declared_at self.now j }
    {
        first_of_jump(&self.layout.declared, j)
    }

    /// The addresses of the functions that the file declares not to return, as they stand in it.
    /// Time: O(n) in the sections and the records.
    pub fn declared_no_returns(&self, alloc: Global) -> Result<Vec<u64>, AllocError>
        ensures { IfOk result (λ v. v.items ≡ declared_no_returns self.now) }
    {
        no_returns(alloc, &self.bytes, &self.layout.sections)
    }

    /// The index of the section with the names of all sections (`e_shstrndx`).
    fn names_index(&self) -> u32
        ensures { result ≡ header.names_index self.now }
    {
        u16_at(&self.bytes, 62).into()
    }

    /// The names of the sections: the bytes of the section that the header names (`e_shstrndx`), if
    /// it is a string table, and else none.
    fn section_names(&self) -> &[u8]
        ensures { result.now ≡ section_names self.now }
    {
        let index = self.names_index();
        if index >= self.section_count() {
            return &[];
        }
        let names = self.section(index);
        if !names.is_string_table() {
            return &[];
        }
        let at = names.offset as usize;
        &self.bytes[at..at + names.size as usize]
    }

    /// Whether what stands at the name of a section begins with `text`. With a zero byte at its end
    /// `text` is the whole name.
    pub fn name_begins(&self, s: &Section, text: &[u8]) -> bool
        ensures { result ≡ name_begins self.now text.now s.now }
    {
        let names = self.section_names();
        let at = (s.name as usize).min(names.len());
        names[at..].starts_with(text)
    }

    /// The number of sections (`e_shnum`).
    pub fn section_count(&self) -> u32
        ensures count { result ≡ header.section_count self.now }
        ensures some { 0 < result }
    {
        u16_at(&self.bytes, 60).into()
    }

    /// The section at an index, which is below [`section_count`](Self::section_count).
    pub fn section(&self, i: u32) -> Section
        requires { i < header.section_count self.now }
        ensures section { result ≡ section self.now i }
        ensures in_file { is_out_of_file (length self.now) result ≡ false }
        ensures small { length self.now ≤ 67108864 }
        ensures image { IsImage self.now }
        // A code section is that of each code address in it.
        ensures code { (a : ℕ) → is_code_section result ≡ true → is_even a ≡ true
            → holds_bytes a 2 result ≡ true
            → code_section_of self.now a ≡ Some result }
    {
        self.layout.sections[i as usize]
    }

    /// The bytes of a span, which lies in the file.
    pub fn bytes(&self, span: Span) -> &[u8]
        requires { span.at + span.len ≤ length self.now }
        ensures { result.now ≡ span_bytes self.now span }
    {
        let at = span.at as usize;
        &self.bytes[at..at + span.len as usize]
    }
}

/// Where the byte at address `a` of a section stands in the file.
fn file_offset(s: &Section, a: u64) -> usize
    requires start { s.now.address ≤ a }
    requires fits { s.now.offset + (a - s.now.address) < 2 ^ 64 }
    ensures { result ≡ file_offset s.now a }
{
    (s.offset + (a - s.address)) as usize
}
