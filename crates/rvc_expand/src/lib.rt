//! The 16-bit instructions of RV64C, each as the 32-bit instruction that it stands for (RISC-V
//! Unprivileged ISA 20240411, chapter "C" Extension for Compressed Instructions). Nothing here
//! decodes: the answer is a word.
//!
//! - `rows`: `expand`, which chooses the row of the table that holds of a halfword.
//! - `laws`: what holds of that table.
//! - `halfword`: the registers and immediates of a halfword.
//! - `instructions`, `formats`: 32-bit instructions from their fields.
#![tactic(auto)]

pub mod bits;
pub mod formats;
pub mod halfword;
mod instructions;
pub mod laws;
mod rows;

pub use rows::expand;
