//! The seeds of an accepted file: its entry and the functions that its symbol table names (System V
//! ABI, ELF-64).
#![tactic(auto)]

mod merge;
mod no_return;
mod read;
mod seed;
mod symbol;
mod table;

pub use no_return::NoReturns;
pub use read::seeds;
pub use seed::{Seed, Seeds};
