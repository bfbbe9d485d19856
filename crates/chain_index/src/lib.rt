//! Where the chain of each instruction of an image ends.
//!
//! Whether control goes straight on after an instruction, and how long it is, depends on the file
//! alone, and not on the cuts of jump tables. So the ends are found once, in one pass from the back
//! of each code section, and are looked up from then on.
//!
//! - `index`: [`ChainIndex`], what is kept and looked up.
//! - `laws`: that a chain has one end, and that each code address has a number of its own.
//! - `lookup`: what is kept of each section, and the search for one.
//! - `sections`: the code sections of an image, in the order of their addresses.
//! - `reach`: the pass over one section, or over a range of it.
//! - `walk`: the chain of one halfword, walked.
//! - `sharing`: the passes over the ranges of one section, by several threads.
//! - `over_sections`: the passes over all sections.
#![tactic(auto)]

mod index;
mod laws;
mod lookup;
mod over_sections;
mod reach;
mod sections;
mod sharing;
mod walk;

pub use index::{ChainEnds, ChainIndex};
pub use laws::{numbers_differ, one_chain_end};
pub use std::alloc::AllocError as Memory;
