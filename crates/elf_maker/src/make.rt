//! The call that makes a file.

ghost use Rattle.std.specs.Prelude.{◌≡◌, ◌+◌, ◌-◌, ◌^◌, ◌%◌, ◌<◌, ◌≤◌, length, IsTrue, IfOk};
ghost use Rattle.elf_maker.specs.Fit.{AreDisjoint, have_whole_names};
ghost use Rattle.elf_maker.specs.MadeFile.{made_file};
ghost use Rattle.elf_maker.specs.MadeOf.{IsMadeOf};

use crate::Memory;
use crate::fields::put_padded;
use crate::header::put_file_header;
use crate::parts::Parts;
use crate::section::{file_size, layout_of, put_section_table, section_count};
use crate::symbol::{string_table, symbol_table};
use std::alloc::Global;

/// Makes an executable of one code section, one section of read-only data and, if there are
/// symbols, a symbol table and its string table (System V ABI, ELF-64). After the ELF header stand
/// the code, the read-only data, the symbol table, the string table and the section headers. Zero
/// bytes follow code, read-only data and strings up to a multiple of eight.
///
/// Room for the file is taken once. The only error is that memory ran out.
#[tactic(auto, unfolding(crate::specs::MadeFile::made_file))]
pub fn make_elf(alloc: Global, parts: &Parts) -> Result<Vec<u8>, Memory>
    requires some_code { 0 < length parts.now.code }
    requires even_length { length parts.now.code % 2 ≡ 0 }
    requires even_code { parts.now.code_at % 2 ≡ 0 }
    requires even_entry { parts.now.entry % 2 ≡ 0 }
    requires entry_start { parts.now.code_at ≤ parts.now.entry }
    requires entry_end { parts.now.entry < parts.now.code_at + length parts.now.code }
    requires disjoint { AreDisjoint parts.now.code_at (length parts.now.code) parts.now.rodata_at
        (length parts.now.rodata) }
    requires code_end { parts.now.code_at + length parts.now.code ≤ 2 ^ 64 - 1 }
    requires rodata_end { parts.now.rodata_at + length parts.now.rodata ≤ 2 ^ 64 - 1 }
    requires names { IsTrue (have_whole_names parts.now.symbols) }
    requires small { length (made_file parts.now) ≤ 67108864 }
    ensures bytes { IfOk result (λ file. file.items ≡ made_file parts.now) }
    ensures made { IfOk result (λ file. IsMadeOf parts.now file.items) }
{
    let symbols = symbol_table(alloc, parts.symbols.as_slice())?;
    let strings = string_table(alloc, parts.symbols.as_slice())?;
    let layout = layout_of(parts, &symbols, &strings);
    let count = section_count(parts);
    let mut file = Vec::with_capacity(alloc, file_size(&layout, count))?;
    put_file_header(&mut file, parts.entry, layout.headers, count)?;
    put_padded(&mut file, parts.code.as_slice())?;
    put_padded(&mut file, parts.rodata.as_slice())?;
    file.extend_from_slice(&symbols)?;
    put_padded(&mut file, &strings)?;
    put_section_table(&mut file, parts, &layout)?;
    Ok(file)
}
