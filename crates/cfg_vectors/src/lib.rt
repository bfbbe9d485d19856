//! The files of the worked rows of `docs/ROWS.md`, for the tests of the crates above.
#![tactic(auto)]

mod bytes;
mod file;
mod rows;
mod symbols;

pub use file::row_file;
pub use std::alloc::AllocError as Memory;
