//! The symbol table of a file and its string table (System V ABI, "Symbol Table" and "String
//! Table").

ghost use Rattle.std.specs.Prelude.{◌≡◌, ◌≤◌, length, false, is_none, IfOk, IfErr, IfSome, OnOk};
ghost use Rattle.std.specs.Prelude.{Some};
ghost use Rattle.elf_image.specs.Sections.{section};
ghost use Rattle.elf_image.specs.Symbols as spec;
ghost use Rattle.elf_image.specs.FaultTests.{is_bad_symbol_table};
ghost use Rattle.elf_image.specs.Faults.{has_fault, first_symbol_fault};
ghost use Rattle.elf_symbols.specs.Inner.Tables.{IsInFile, IsTable};

use elf_image::{Fault, Image, Section};

/// `SHT_SYMTAB` of `sh_type`.
const SHT_SYMTAB: u32 = 2;

/// `SHT_STRTAB` of `sh_type`.
const SHT_STRTAB: u32 = 3;

/// The size of an `Elf64_Sym`.
pub(crate) const SYMBOL_SIZE: u64 = 24;

/// A symbol table and the string table that its header names. Both lie in the file.
#[derive(Clone, Copy)]
pub(crate) struct SymbolTable {
    pub(crate) symbols: Section,
    pub(crate) strings: Section,
}

/// How many symbol tables a file has.
#[tactic(auto, using(crate::proofs::Tables::count_more), unfolding(elf_image::specs::Symbols::symbol_tables, elf_image::specs::Sections::sections))]
fn table_count(image: &Image) -> u32
    ensures { result ≡ length (spec.symbol_tables image.now) }
{
    let mut count = 0;
    for i in 0..image.section_count() {
        if image.section(i).kind == SHT_SYMTAB {
            count += 1;
        }
    }
    count
}

/// The first symbol table of a file.
fn first_table(image: &Image) -> Option<Section>
    ensures first { result ≡ spec.symbol_table image.now }
    ensures within { IfSome result (IsInFile image.now) }
{
    for i in 0..image.section_count() {
        let section = image.section(i);
        if section.kind == SHT_SYMTAB {
            return Some(section);
        }
    }
    None
}

/// The string table of a symbol table; `None` if the symbol table is not one that is read here.
fn string_table(image: &Image, table: &Section) -> Option<Section>
    ensures bad { is_none result ≡ is_bad_symbol_table image.now table.now }
    ensures strings { IfSome result (λ s. s ≡ section image.now table.now.link) }
    ensures within { IfSome result (IsInFile image.now) }
{
    if table.entry_size != SYMBOL_SIZE || table.size % SYMBOL_SIZE != 0 {
        return None;
    }
    if table.link >= image.section_count() {
        return None;
    }
    let strings = image.section(table.link);
    if strings.kind == SHT_STRTAB {
        Some(strings)
    } else {
        None
    }
}

/// The symbol table of a file, if it has one, or the fault of it.
pub(crate) fn symbol_table(image: &Image) -> Result<Option<SymbolTable>, Fault>
    ensures table { IfOk result (IsTable image.now) }
    ensures good { OnOk result (has_fault image.now Fault.SymbolTable ≡ false) }
    ensures bad { IfErr result (λ f. first_symbol_fault image.now ≡ Some f) }
{
    if table_count(image) > 1 {
        return Err(Fault::SymbolTable);
    }
    let Some(symbols) = first_table(image) else {
        return Ok(None);
    };
    let Some(strings) = string_table(image, &symbols) else {
        return Err(Fault::SymbolTable);
    };
    Ok(Some(SymbolTable { symbols, strings }))
}
