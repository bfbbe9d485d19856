//! What a file is made of, as plain data and lists.

ghost use Rattle.std.specs.Prelude.{◌≡◌};

use std::marker::Model;

/// What a file is made of.
#[derive(Drop)]
pub struct Parts {
    /// The address where the program starts, `e_entry`.
    pub entry: u64,
    /// The address of the first byte of the code.
    pub code_at: u64,
    /// The bytes of the code.
    pub code: Bytes,
    /// The address of the first byte of the read-only data.
    pub rodata_at: u64,
    /// The bytes of the read-only data.
    pub rodata: Bytes,
    /// The functions that the symbol table names.
    pub symbols: MadeSymbols,
}

/// A function that the symbol table names.
#[derive(Drop)]
pub struct MadeSymbol {
    /// The bytes of its name, without the zero byte at its end.
    pub name: Bytes,
    /// The address of its first byte, `st_value`.
    pub address: u64,
}

/// A list of bytes.
#[derive(Drop)]
pub struct Bytes {
    items: Vec<u8>,
}

impl Model for Bytes {
    ghost use Rattle.std.specs.Prelude.{ℕ, List};

    ghost Value = { List ℕ };

    ghost view = { λ a. a.items.items };
}

impl Bytes {
    /// The list of these items.
    pub fn from_vec(items: Vec<u8>) -> Self
        ensures { result ≡ items.items }
    {
        Self { items }
    }

    /// The items, in order.
    pub fn as_slice(&self) -> &[u8]
        ensures { result.now ≡ self.now }
    {
        self.items.as_slice()
    }
}

/// A list of symbols.
#[derive(Drop)]
pub struct MadeSymbols {
    items: Vec<MadeSymbol>,
}

impl Model for MadeSymbols {
    ghost use Rattle.std.specs.Prelude.{List};
    ghost use Rattle.elf_maker.specs.declared.parts.MadeSymbol.{MadeSymbol};

    ghost Value = { List MadeSymbol };

    ghost view = { λ a. a.items.items };
}

impl MadeSymbols {
    /// The list of these items.
    pub fn from_vec(items: Vec<MadeSymbol>) -> Self
        ensures { result ≡ items.items }
    {
        Self { items }
    }

    /// The items, in order.
    pub fn as_slice(&self) -> &[MadeSymbol]
        ensures { result.now ≡ self.now }
    {
        self.items.as_slice()
    }
}
