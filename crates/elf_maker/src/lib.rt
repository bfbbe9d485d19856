//! ELF-64 files of given code, read-only data and symbols, to try readers of such files on.
#![tactic(auto)]

mod fields;
mod header;
mod make;
mod parts;
mod section;
mod symbol;

pub use make::make_elf;
pub use parts::{Bytes, MadeSymbol, MadeSymbols, Parts};
pub use std::alloc::AllocError as Memory;
