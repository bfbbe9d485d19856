//! The section header table, read and judged (System V ABI, "Section Header").

ghost use Rattle.std.specs.Prelude.{◌≡◌, ◌+◌, ◌<◌, ◌≤◌, ◌||◌, ◌&&◌, not, nat_lt, length, false};
ghost use Rattle.std.specs.Prelude.{IfOk};
ghost use Rattle.elf_image.specs.Sections.{section_header, section, sections};
ghost use Rattle.elf_image.specs.Header.{section_count};
ghost use Rattle.elf_image.specs.Faults.{has_fault, first_among};
ghost use Rattle.elf_image.specs.FaultTests.{is_out_of_file, is_wrapping, is_odd_code};
ghost use Rattle.elf_image.specs.Inner.Passes.{section_faults};

use crate::fault::Fault;
use crate::header::{SECTION_HEADER_SIZE, leaves_file};
use crate::number::{u16_at, u32_at, u64_at};
use crate::section::Section;
use std::alloc::{AllocError, Global};

/// The section header at an offset.
fn read_section(bytes: &[u8], at: usize) -> Section
    requires { at + 64 ≤ length bytes.now }
    ensures { result ≡ section_header bytes.now at }
{
    Section {
        name: u32_at(bytes, at),
        kind: u32_at(bytes, at + 4),
        flags: u64_at(bytes, at + 8),
        address: u64_at(bytes, at + 16),
        offset: u64_at(bytes, at + 24),
        size: u64_at(bytes, at + 32),
        link: u32_at(bytes, at + 40),
        entry_size: u64_at(bytes, at + 56),
    }
}

/// The section header at an index of the table.
#[tactic(auto, unfolding(crate::specs::Faults::has_fault, crate::specs::FaultTests::has_bad_section_table, crate::specs::Sections::section))]
fn section_at(bytes: &[u8], i: usize) -> Section
    requires header { 64 ≤ length bytes.now }
    requires table { has_fault bytes.now Fault.SectionTable ≡ false }
    requires within { i < section_count bytes.now }
    ensures { result ≡ section bytes.now i }
{
    let table = u64_at(bytes, 40) as usize;
    read_section(bytes, table + SECTION_HEADER_SIZE as usize * i)
}

/// All section headers, in table order.
#[tactic(auto, unfolding(crate::specs::Sections::sections))]
pub(crate) fn read_sections(alloc: Global, bytes: &[u8]) -> Result<Vec<Section>, AllocError>
    requires header { 64 ≤ length bytes.now }
    requires table { has_fault bytes.now Fault.SectionTable ≡ false }
    ensures { IfOk result (λ v. v.items ≡ sections bytes.now) }
{
    let count = u16_at(bytes, 60) as usize;
    let mut headers = Vec::with_capacity(alloc, count)?;
    for i in 0..count {
        headers.push(section_at(bytes, i))?;
    }
    Ok(headers)
}

/// Whether a section that has bytes in the file leaves a file of `len` bytes.
fn is_out_of_file(len: usize, s: &Section) -> bool
    ensures { result ≡ is_out_of_file len s.now }
{
    !s.is_without_bytes() && leaves_file(len, s.offset, s.size)
}

/// Whether a section in memory passes the last address.
fn is_wrapping(s: &Section) -> bool
    ensures { result ≡ is_wrapping s.now }
{
    s.is_allocated() && s.size > u64::MAX - s.address
}

/// Whether a section is code at an odd address.
fn is_odd_code(s: &Section) -> bool
    ensures { result ≡ is_odd_code s.now }
{
    s.is_code() && s.address % 2 != 0
}

/// Whether a section leaves the file. `headers` are all of the file.
#[tactic(auto, unfolding(crate::specs::Faults::has_fault, crate::specs::FaultTests::has_section_out_of_file))]
fn has_section_out_of_file(bytes: &[u8], headers: &[Section]) -> bool
    requires { headers.now ≡ sections bytes.now }
    ensures { result ≡ has_fault bytes.now Fault.SectionRange }
{
    let len = bytes.len();
    headers.iter().any(|s| is_out_of_file(len, s))
}

/// Whether a section passes the last address. `headers` are all of the file.
#[tactic(auto, unfolding(crate::specs::Faults::has_fault, crate::specs::FaultTests::has_wrapping_section))]
fn has_wrapping_section(bytes: &[u8], headers: &[Section]) -> bool
    requires { headers.now ≡ sections bytes.now }
    ensures { result ≡ has_fault bytes.now Fault.SectionWrap }
{
    headers.iter().any(is_wrapping)
}

/// Whether code stands at an odd address. `headers` are all of the file.
#[tactic(auto, unfolding(crate::specs::Faults::has_fault, crate::specs::FaultTests::has_odd_code))]
fn has_odd_code(bytes: &[u8], headers: &[Section]) -> bool
    requires { headers.now ≡ sections bytes.now }
    ensures { result ≡ has_fault bytes.now Fault.CodeParity }
{
    headers.iter().any(is_odd_code)
}

/// The first fault of a single section. `headers` are all of the file.
#[tactic(auto, unfolding(crate::specs::Faults::first_among))]
pub(crate) fn section_fault(bytes: &[u8], headers: &[Section]) -> Option<Fault>
    requires { headers.now ≡ sections bytes.now }
    ensures { result ≡ first_among section_faults bytes.now }
{
    if has_section_out_of_file(bytes, headers) {
        return Some(Fault::SectionRange);
    }
    if has_wrapping_section(bytes, headers) {
        return Some(Fault::SectionWrap);
    }
    if has_odd_code(bytes, headers) {
        return Some(Fault::CodeParity);
    }
    None
}
