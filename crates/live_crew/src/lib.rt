//! The live registers of all functions of a program, one list for each, in order.
//!
//! - [`by_one`]: made on the caller's thread.
//! - [`sharing`]: made by several workers; the answer is the same for every number of them.
//! - `pieces`: the pieces that the workers draw.
#![tactic(auto)]

pub mod by_one;
mod pieces;
pub mod sharing;

pub use by_one::graph_lives;
pub use sharing::graph_lives_by;
