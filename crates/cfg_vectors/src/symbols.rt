//! The symbols of the rows.

ghost use Rattle.std.specs.Prelude.{◌≡◌, ◌≤◌, [], ◌∷◌, IfOk};
ghost use Rattle.cfg_vectors.specs.Rows.{IsRow, each_halfword, row_symbols};

use crate::Memory;
use elf_maker::{Bytes, MadeSymbol};
use std::alloc::Global;

/// One function with a name.
fn symbol(alloc: Global, name: &[u8], address: u64) -> Result<MadeSymbol, Memory>
    ensures { IfOk result (λ s. s ≡ record { name = name.now; address = address }) }
{
    Ok(MadeSymbol {
        name: Bytes::from_vec(name.to_vec(alloc)?),
        address,
    })
}

/// The list of one function.
fn one_symbol(alloc: Global, name: &[u8], address: u64) -> Result<Vec<MadeSymbol>, Memory>
    ensures { IfOk result (λ ss. ss.items ≡ record { name = name.now; address = address } ∷ []) }
{
    let mut symbols = Vec::new(alloc);
    symbols.push(symbol(alloc, name, address)?)?;
    Ok(symbols)
}

/// The symbols of the first part of row 5: two at one address, one at an odd address and one at
/// another.
#[tactic(auto, unfolding(crate::specs::Rows::row_symbols))]
fn four_symbols(alloc: Global) -> Result<Vec<MadeSymbol>, Memory>
    ensures { IfOk result (λ ss. ss.items ≡ row_symbols 5 0) }
{
    let mut symbols = Vec::new(alloc);
    symbols.push(symbol(alloc, b"b", 0x10000)?)?;
    symbols.push(symbol(alloc, b"a", 0x10000)?)?;
    symbols.push(symbol(alloc, b"odd", 0x10001)?)?;
    symbols.push(symbol(alloc, b"c", 0x10004)?)?;
    Ok(symbols)
}

/// The symbols of a part of row 5.
#[tactic(auto, unfolding(crate::specs::Rows::row_symbols))]
fn row_5_symbols(alloc: Global, part: u32) -> Result<Vec<MadeSymbol>, Memory>
    requires { part ≤ 3 }
    ensures { IfOk result (λ ss. ss.items ≡ row_symbols 5 part) }
{
    match part {
        0 => four_symbols(alloc),
        1 => one_symbol(alloc, b"-", 0x10000),
        2 => one_symbol(alloc, b"a b", 0x10000),
        _ => one_symbol(alloc, b"a\\b", 0x10000),
    }
}

/// The symbols of row 31: one function `s` for each halfword of its code.
fn row_31_symbols(alloc: Global) -> Result<Vec<MadeSymbol>, Memory>
    ensures { IfOk result (λ ss. ss.items ≡ each_halfword 0x10000 301) }
{
    let mut symbols = Vec::new(alloc);
    for i in 0..301u64 {
        symbols.push(symbol(alloc, b"s", 0x10000 + 2 * i)?)?;
    }
    Ok(symbols)
}

/// The symbols of a row. Row 5 has others for each part.
#[tactic(auto, unfolding(crate::specs::Rows::row_symbols))]
pub(crate) fn row_symbols(alloc: Global, row: u32, part: u32) -> Result<Vec<MadeSymbol>, Memory>
    requires { IsRow row part }
    ensures { IfOk result (λ ss. ss.items ≡ row_symbols row part) }
{
    match row {
        5 => row_5_symbols(alloc, part),
        7 | 28 => one_symbol(alloc, b"two", 0x10002),
        15 => one_symbol(alloc, b"b", 0x10028),
        17 => one_symbol(alloc, b"g", 0x1000C),
        31 => row_31_symbols(alloc),
        34 => one_symbol(alloc, b"b", 0x10020),
        _ => Ok(Vec::new(alloc)),
    }
}
