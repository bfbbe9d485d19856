//! The instructions of the extensions beyond RV64GC that a file may name: which words and halfwords
//! they are, and what is known of each.
//!
//! What a file names is its [`Extensions`](elf_image::Extensions). An instruction that computes an
//! address or extends a number is known by its operands; every other one by the integer registers
//! that it reads and writes. Only compressed ones return or jump.
//!
//! - `decoder`: `decode_extension`, the table of 32-bit words, by opcode.
//! - `bits`, `atomics`, `floats`, `vectors`: the groups of one opcode, or of few.
//! - `integer_floats`: floats in integer registers, a table of its own.
//! - `forms`, `stack`: `expand_extension`, the table of 16-bit words.
//! - `meaning`: what a word is by its registers.
//! - `laws`: what holds of both tables.
#![tactic(auto)]

mod atomics;
mod bits;
mod decoder;
mod floats;
mod forms;
mod integer_floats;
pub mod laws;
mod meaning;
mod stack;
mod vectors;

pub use decoder::decode_extension;
pub use forms::expand_extension;
