//! Tests of the crates that read instructions.
//!
//! Each test tells something that no contract can say: that the definitions fit what an assembler
//! makes of each instruction, that a call answers while there is memory, and that several threads
//! make an index.
//!
//! - `words`: 32-bit instructions (`rv_decode`).
//! - `halfwords`: 16-bit instructions (`rvc_expand`).
//! - `floats`: instructions of floating point (`rv_float`).
//! - `extensions`: instructions of the extensions that a file names (`rv_extensions`).
//! - `groups`: those of its groups that take encodings of others, or are read by class.
//! - `flows`: where an instruction sends control (`rv_flow`).
//! - `chains`: where straight runs end (`chain_index`).
//! - `tables`: the table of a jump through a register (`jump_table`).
//! - `declared`: the same of tables that a file declares, and of further extensions.
//! - `hoisted`: the same of tables whose address is set far before the jump.
#![tactic(auto)]

#[cfg(test)]
mod asserts;
#[cfg(test)]
mod chains;
#[cfg(test)]
mod declared;
#[cfg(test)]
mod extensions;
#[cfg(test)]
mod floats;
#[cfg(test)]
mod flows;
#[cfg(test)]
mod further;
#[cfg(test)]
mod groups;
#[cfg(test)]
mod halfwords;
#[cfg(test)]
mod hoisted;
#[cfg(test)]
mod tables;
#[cfg(test)]
mod words;
