//! The canonical certificate of a program and of a file.
//!
//! - `specs/FileCanonical`: the canonical certificate of a file.
//! - [`part`]: the canonical part of a program, from what it reaches.
//! - [`file`]: the canonical certificate of a file, from its image and seeds.
//! - [`laws`]: a file has one canonical certificate, and that is a valid one.
#![tactic(auto)]

mod file;
pub mod laws;
mod part;

pub use file::file_certificate;
pub use laws::one_canonical_certificate;
pub use part::part_reached;
pub use std::alloc::AllocError as Memory;
