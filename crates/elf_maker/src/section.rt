//! Section headers, and where the parts of a file stand.

ghost use Rattle.std.specs.Prelude.{◌≡◌, ◌+◌, ◌*◌, ◌++◌, ◌≤◌, length, OnOk};
ghost use Rattle.elf_maker.specs.Symbols.{symbol_table, string_table};
ghost use Rattle.std.specs.List.{flat_map};
ghost use Rattle.elf_maker.specs.Sections.{section_bytes, code_header, rodata_header};
ghost use Rattle.elf_maker.specs.Sections.{symbols_header, strings_header, symbol_headers};
ghost use Rattle.elf_maker.specs.Sections.{section_headers, headers_place, section_table};
ghost use Rattle.elf_maker.specs.Inner.Layout.{layout_of};

use crate::Memory;
use crate::fields::{padded_len, put_words, put_xwords};
use crate::parts::Parts;

const SHT_NULL: u32 = 0;

const SHT_PROGBITS: u32 = 1;

const SHT_SYMTAB: u32 = 2;

const SHT_STRTAB: u32 = 3;

const SHF_ALLOC: u64 = 2;

const SHF_EXECINSTR: u64 = 4;

/// Where the code stands in the file: after the ELF header.
const CODE_PLACE: u64 = 64;

/// The header of one section, an `Elf64_Shdr` (System V ABI, "Section Header"), without its name.
#[derive(Clone, Copy)]
pub(crate) struct SectionHeader {
    pub(crate) kind: u32,
    pub(crate) flags: u64,
    pub(crate) address: u64,
    pub(crate) offset: u64,
    pub(crate) size: u64,
    pub(crate) link: u32,
    pub(crate) info: u32,
    pub(crate) alignment: u64,
    pub(crate) entry_size: u64,
}

/// The header of section 0.
const NULL: SectionHeader = SectionHeader {
    kind: SHT_NULL,
    flags: 0,
    address: 0,
    offset: 0,
    size: 0,
    link: 0,
    info: 0,
    alignment: 0,
    entry_size: 0,
};

/// Where the parts after the code stand in the file, and the sizes of the two tables, in bytes.
#[derive(Clone, Copy)]
pub(crate) struct Layout {
    pub(crate) rodata: u64,
    pub(crate) symbols: u64,
    pub(crate) symbols_size: u64,
    pub(crate) strings: u64,
    pub(crate) strings_size: u64,
    pub(crate) headers: u64,
}

/// Where the parts stand whose symbol table and string table are these.
#[tactic(auto, unfolding(crate::specs::Sections::rodata_place, crate::specs::Sections::symbols_place, crate::specs::Sections::strings_place, crate::specs::Sections::headers_place))]
pub(crate) fn layout_of(parts: &Parts, symbols: &[u8], strings: &[u8]) -> Layout
    requires symbols { symbols.now ≡ symbol_table parts.now.symbols }
    requires strings { strings.now ≡ string_table parts.now.symbols }
    requires fits { headers_place parts.now ≤ 67108864 }
    ensures { result ≡ layout_of parts.now }
{
    let rodata = CODE_PLACE + padded_len(parts.code.as_slice());
    let symbols_place = rodata + padded_len(parts.rodata.as_slice());
    let symbols_size = symbols.len() as u64;
    let strings_place = symbols_place + symbols_size;
    Layout {
        rodata,
        symbols: symbols_place,
        symbols_size,
        strings: strings_place,
        strings_size: strings.len() as u64,
        headers: strings_place + padded_len(strings),
    }
}

/// The header of section 1, the code.
fn code_header(parts: &Parts) -> SectionHeader
    ensures { result ≡ code_header parts.now }
{
    SectionHeader {
        kind: SHT_PROGBITS,
        flags: SHF_ALLOC | SHF_EXECINSTR,
        address: parts.code_at,
        offset: CODE_PLACE,
        size: parts.code.as_slice().len() as u64,
        alignment: 2,
        ..NULL
    }
}

/// The header of section 2, the read-only data.
fn rodata_header(parts: &Parts, layout: &Layout) -> SectionHeader
    requires { layout.now ≡ layout_of parts.now }
    ensures { result ≡ rodata_header parts.now }
{
    SectionHeader {
        kind: SHT_PROGBITS,
        flags: SHF_ALLOC,
        address: parts.rodata_at,
        offset: layout.rodata,
        size: parts.rodata.as_slice().len() as u64,
        alignment: 4,
        ..NULL
    }
}

/// The header of section 3, the symbol table: its strings are section 4, and symbol 1 is its first
/// that is not local.
fn symbols_header(parts: &Parts, layout: &Layout) -> SectionHeader
    requires { layout.now ≡ layout_of parts.now }
    ensures { result ≡ symbols_header parts.now }
{
    SectionHeader {
        kind: SHT_SYMTAB,
        offset: layout.symbols,
        size: layout.symbols_size,
        link: 4,
        info: 1,
        alignment: 8,
        entry_size: 24,
        ..NULL
    }
}

/// The header of section 4, the string table.
fn strings_header(parts: &Parts, layout: &Layout) -> SectionHeader
    requires { layout.now ≡ layout_of parts.now }
    ensures { result ≡ strings_header parts.now }
{
    SectionHeader {
        kind: SHT_STRTAB,
        offset: layout.strings,
        size: layout.strings_size,
        alignment: 1,
        ..NULL
    }
}

/// The number of sections.
#[tactic(auto, unfolding(crate::specs::Sections::section_headers, crate::specs::Sections::symbol_headers))]
pub(crate) fn section_count(parts: &Parts) -> u16
    ensures { result ≡ length (section_headers parts.now) }
{
    if parts.symbols.as_slice().is_empty() {
        3
    } else {
        5
    }
}

/// The length of a file with this layout and this many section headers, which stand at its end.
pub(crate) fn file_size(layout: &Layout, count: u16) -> usize
    requires { layout.now.headers ≤ 67108864 }
    ensures { result ≡ layout.now.headers + 64 * count }
{
    layout.headers as usize + 64 * count as usize
}

/// Appends a section header.
#[tactic(auto, using(std::proofs::lemmas::List::append_assoc), unfolding(crate::specs::Sections::section_bytes))]
fn put_section(file: &mut Vec<u8>, section: &SectionHeader) -> Result<(), Memory>
    ensures { OnOk result (file.new.items ≡ file.old.items ++ section_bytes section.now) }
{
    put_words(file, &[0, section.kind])?;
    put_xwords(
        file,
        &[section.flags, section.address, section.offset, section.size],
    )?;
    put_words(file, &[section.link, section.info])?;
    put_xwords(file, &[section.alignment, section.entry_size])
}

/// Appends the headers of the symbol table and the string table, if there is a symbol.
#[tactic(auto, using(std::proofs::lemmas::List::append_assoc), unfolding(crate::specs::Sections::symbol_headers))]
fn put_symbol_sections(file: &mut Vec<u8>, parts: &Parts, layout: &Layout) -> Result<(), Memory>
    requires { layout.now ≡ layout_of parts.now }
    ensures { OnOk result
        (file.new.items ≡ file.old.items ++ flat_map section_bytes (symbol_headers parts.now)) }
{
    if parts.symbols.as_slice().is_empty() {
        return Ok(());
    }
    put_section(file, &symbols_header(parts, layout))?;
    put_section(file, &strings_header(parts, layout))
}

/// Appends the section header table.
#[tactic(auto, using(std::proofs::lemmas::List::append_assoc), unfolding(crate::specs::Sections::section_table, crate::specs::Sections::section_headers))]
pub(crate) fn put_section_table(
    file: &mut Vec<u8>,
    parts: &Parts,
    layout: &Layout,
) -> Result<(), Memory>
    requires { layout.now ≡ layout_of parts.now }
    ensures { OnOk result (file.new.items ≡ file.old.items ++ section_table parts.now) }
{
    put_section(file, &NULL)?;
    put_section(file, &code_header(parts))?;
    put_section(file, &rodata_header(parts, layout))?;
    put_symbol_sections(file, parts, layout)
}
