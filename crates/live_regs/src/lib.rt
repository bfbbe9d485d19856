//! Live registers: of each block of a function, the integer registers whose value on entry may still
//! be used.
//!
//! - `effects`: which registers an instruction and a block read and write.
//! - `words`: the same by the bits of an instruction, mostly without decoding it.
//! - [`program`]: the blocks and edges of a program, and what its blocks read and write.
//! - `search`: blocks and edges by their addresses.
//! - `gather`: the masks of one function's blocks to begin with, and the ways between them.
//! - [`function`]: the live registers of one function.
//! - `laws`: what determines them.
#![tactic(auto)]

mod effects;
pub mod function;
mod gather;
mod laws;
pub mod program;
mod search;
mod words;

pub use effects::{Effects, effects_of};
pub use function::{Scratch, lives, lives_with};
pub use laws::one_mask;
pub use program::{PIECE_BLOCKS, Program, effects_of_piece};
