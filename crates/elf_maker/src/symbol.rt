//! The symbol table and the string table.

ghost use Rattle.std.specs.Prelude.{◌≡◌, ◌+◌, ◌^◌, ◌<◌, ◌++◌, length, OnOk, IfOk};
ghost use Rattle.std.specs.List.{flat_map, All};
ghost use Rattle.elf_maker.specs.Symbols.{symbol_entry, symbol_entries, terminated_name};
ghost use Rattle.elf_maker.specs.Symbols.{symbol_table, string_table};

use crate::Memory;
use crate::fields::{put_halves, put_words, put_xwords};
use crate::parts::MadeSymbol;
use std::alloc::Global;

/// `st_info` of a global function: `STB_GLOBAL` and `STT_FUNC`.
const GLOBAL_FUNCTION: u8 = 0x12;

/// `st_shndx`: the index of the code section.
const CODE_SECTION: u16 = 1;

/// Appends the symbol of a function at an address, whose name begins at the offset `name` of the
/// string table.
#[tactic(auto, using(std::proofs::lemmas::List::append_assoc), unfolding(crate::specs::Symbols::symbol_entry))]
fn put_symbol(table: &mut Vec<u8>, name: u32, address: u64) -> Result<(), Memory>
    ensures { OnOk result (table.new.items ≡ table.old.items ++ symbol_entry name address) }
{
    put_words(table, &[name])?;
    table.extend_from_slice(&[GLOBAL_FUNCTION, 0])?;
    put_halves(table, &[CODE_SECTION])?;
    put_xwords(table, &[address, 0])
}

/// Appends symbols, whose names stand in the string table from offset 1 on.
#[tactic(auto, unfolding(crate::specs::Symbols::symbol_entries))]
fn put_symbols(table: &mut Vec<u8>, symbols: &[MadeSymbol]) -> Result<(), Memory>
    requires { length (flat_map terminated_name symbols.now) + 1 < 2 ^ 32 }
    ensures entries { OnOk result
        (table.new.items ≡ table.old.items ++ symbol_entries 1 symbols.now) }
    ensures addresses { OnOk result (All (λ s. s.address < 2 ^ 64) symbols.now) }
{
    let mut name = 1;
    for symbol in symbols {
        put_symbol(table, name, symbol.address)?;
        name += symbol.name.as_slice().len() as u32 + 1;
    }
    Ok(())
}

/// Appends names, each with a zero byte at its end.
fn put_names(table: &mut Vec<u8>, symbols: &[MadeSymbol]) -> Result<(), Memory>
    ensures { OnOk result
        (table.new.items ≡ table.old.items ++ flat_map terminated_name symbols.now) }
{
    for symbol in symbols {
        table.extend_from_slice(symbol.name.as_slice())?;
        table.push(0)?;
    }
    Ok(())
}

/// The symbol table, empty if there is no symbol.
#[tactic(auto, unfolding(crate::specs::Symbols::symbol_table, crate::specs::Symbols::string_table))]
pub(crate) fn symbol_table(alloc: Global, symbols: &[MadeSymbol]) -> Result<Vec<u8>, Memory>
    requires { length (string_table symbols.now) < 2 ^ 32 }
    ensures entries { IfOk result (λ table. table.items ≡ symbol_table symbols.now) }
    ensures addresses { OnOk result (All (λ s. s.address < 2 ^ 64) symbols.now) }
{
    let mut table = Vec::new(alloc);
    if symbols.is_empty() {
        return Ok(table);
    }
    table.extend_from_slice(&[0; 24])?;
    put_symbols(&mut table, symbols)?;
    Ok(table)
}

/// The string table, empty if there is no symbol.
#[tactic(auto, unfolding(crate::specs::Symbols::string_table))]
pub(crate) fn string_table(alloc: Global, symbols: &[MadeSymbol]) -> Result<Vec<u8>, Memory>
    ensures { IfOk result (λ table. table.items ≡ string_table symbols.now) }
{
    let mut table = Vec::new(alloc);
    if symbols.is_empty() {
        return Ok(table);
    }
    table.push(0)?;
    put_names(&mut table, symbols)?;
    Ok(table)
}
