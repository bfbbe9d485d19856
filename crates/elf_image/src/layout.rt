//! The sections of a file, judged and prepared to be searched.

ghost use Rattle.std.specs.Prelude.{◌≡◌, ◌≤◌, ◌&&◌, nat_lt, not, length, IfOk, IfErr, Some, None};
ghost use Rattle.std.specs.Prelude.{if◌then◌else◌, false};
ghost use Rattle.std.specs.List.{find, filter};
ghost use Rattle.std.specs.Option.{option_copied};
ghost use Rattle.elf_image.specs.Sections.{sections, is_code_section, is_read_only_section};
ghost use Rattle.elf_image.specs.Sections.{holds_bytes};
ghost use Rattle.elf_image.specs.Code.{is_even};
ghost use Rattle.elf_image.specs.FaultTests.{any_pair, shares_address};
ghost use Rattle.elf_image.specs.Faults.{has_fault, first_among, first_fault, first_image_fault};
ghost use Rattle.elf_image.specs.Faults.{IsImage};
ghost use Rattle.elf_image.specs.Architecture.{extensions_of};
ghost use Rattle.elf_image.specs.Inner.Passes.{code_faults};
ghost use Rattle.elf_image.specs.Outcome.{IfMalformed};
ghost use Rattle.elf_image.specs.Inner.Layout.{FindsAmong, IsLayoutOf};

use crate::address_index::AddressIndex;
use crate::attributes::architecture;
use crate::declared::{DeclaredTable, tables_by_jump};
use crate::extensions::Extensions;
use crate::fault::{ElfError, Fault};
use crate::header::file_fault;
use crate::names::named_in;
use crate::number::u64_at;
use crate::section::Section;
use crate::table::{read_sections, section_fault};
use std::alloc::{AllocError, Global};

/// All sections of a file in table order, those of code and of read-only data to be searched by
/// address, and what sections of other types say.
#[derive(Drop)]
pub(crate) struct Layout {
    pub(crate) sections: Vec<Section>,
    pub(crate) code: AddressIndex,
    pub(crate) read_only: AddressIndex,
    /// The declared tables in the order of their jumps.
    pub(crate) declared: Vec<DeclaredTable>,
    pub(crate) extensions: Extensions,
}

/// The code sections that are not empty.
fn code_index(alloc: Global, sections: &[Section]) -> Result<AddressIndex, AllocError>
    ensures finds { IfOk result
        (λ index. FindsAmong is_code_section index.sections.items sections.now) }
    ensures overlap { IfOk result
        (λ index. not index.is_laid_out
        ≡ any_pair shares_address (filter is_code_section sections.now)) }
{
    AddressIndex::new(alloc, filled_code(alloc, sections)?)
}

/// The code sections that are not empty, in table order.
fn filled_code(alloc: Global, sections: &[Section]) -> Result<Vec<Section>, AllocError>
    ensures { IfOk result
        (λ v. v.items ≡ filter (λ s. is_code_section s && nat_lt 0 s.size) sections.now) }
{
    sections
        .iter()
        .copied()
        .filter(|s| s.is_code() && s.size > 0)
        .collect(alloc)
}

/// The read-only sections that are not empty.
fn read_only_index(alloc: Global, sections: &[Section]) -> Result<AddressIndex, AllocError>
    ensures { IfOk result
        (λ index. FindsAmong is_read_only_section index.sections.items sections.now) }
{
    AddressIndex::new(alloc, filled_read_only(alloc, sections)?)
}

/// The read-only sections that are not empty, in table order.
fn filled_read_only(alloc: Global, sections: &[Section]) -> Result<Vec<Section>, AllocError>
    ensures { IfOk result
        (λ v. v.items ≡ filter (λ s. is_read_only_section s && nat_lt 0 s.size) sections.now) }
{
    sections
        .iter()
        .copied()
        .filter(|s| s.is_read_only() && s.size > 0)
        .collect(alloc)
}

/// The extensions that a file names. `headers` are all of the file.
#[tactic(auto, unfolding(crate::specs::Architecture::extensions_of))]
fn extensions_of(bytes: &[u8], headers: &[Section]) -> Extensions
    requires headers { headers.now ≡ sections bytes.now }
    requires in_file { has_fault bytes.now Fault.SectionRange ≡ false }
    ensures { result ≡ extensions_of bytes.now }
{
    match architecture(bytes, headers) {
        Some(text) => named_in(text),
        None => Extensions::none(),
    }
}

/// The section that has both bytes of the halfword at `a`, if `a` is even.
#[inline]
pub(crate) fn code_section(code: &AddressIndex, a: u64) -> Option<&Section>
    ensures { option_copied result ≡ (if is_even a
        then find (holds_bytes a 2) code.now.sections.items else None) }
{
    if a % 2 == 0 { code.find(a, 2) } else { None }
}

/// The first fault of all code sections. `code` are those of the file.
#[tactic(auto, unfolding(crate::specs::Faults::first_among, crate::specs::Faults::has_fault, crate::specs::FaultTests::has_code_overlap, crate::specs::FaultTests::has_entry_outside_code, crate::specs::Code::code_section_of))]
fn code_fault(bytes: &[u8], code: &AddressIndex) -> Option<Fault>
    requires header { 64 ≤ length bytes.now }
    requires finds { FindsAmong is_code_section code.now.sections.items (sections bytes.now) }
    requires overlap { not code.now.is_laid_out
        ≡ any_pair shares_address (filter is_code_section (sections bytes.now)) }
    ensures { result ≡ first_among code_faults bytes.now }
{
    if code.overlap() {
        return Some(Fault::CodeOverlap);
    }
    if code_section(code, u64_at(bytes, 24)).is_none() {
        return Some(Fault::Entry);
    }
    None
}

/// Judges a file by the faults of an image, and prepares what is searched.
pub(crate) fn judge(alloc: Global, bytes: &[u8]) -> Result<Layout, ElfError>
    ensures image { IfOk result (λ _. IsImage bytes.now) }
    ensures layout { IfOk result (λ layout. IsLayoutOf bytes.now layout) }
    ensures malformed { IfErr result
        (λ e. IfMalformed e (λ f. first_image_fault bytes.now ≡ Some f)) }
    ensures first { IfErr result (λ e. IfMalformed e (λ f. first_fault bytes.now ≡ Some f)) }
{
    if let Some(fault) = file_fault(bytes) {
        return Err(ElfError::Malformed(fault));
    }
    let sections = read_sections(alloc, bytes)?;
    if let Some(fault) = section_fault(bytes, &sections) {
        return Err(ElfError::Malformed(fault));
    }
    let code = code_index(alloc, &sections)?;
    if let Some(fault) = code_fault(bytes, &code) {
        return Err(ElfError::Malformed(fault));
    }
    let read_only = read_only_index(alloc, &sections)?;
    let declared = tables_by_jump(alloc, bytes, &sections)?;
    let extensions = extensions_of(bytes, &sections);
    Ok(Layout {
        sections,
        code,
        read_only,
        declared,
        extensions,
    })
}
