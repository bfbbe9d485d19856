//! Large executables made from one number, to try and to measure the program on.
//!
//! - [`make`]: the call that makes the file, and its parts.
//! - [`code`]: the code, slot by slot.
//! - [`rodata`]: the jump tables.
//! - [`pair`]: two instructions that reach an address by its distance.
//! - [`place`]: where the slots and the tables stand.
#![tactic(auto)]

mod code;
mod make;
mod pair;
mod place;
mod rodata;

pub use make::big_file;
pub use std::alloc::AllocError as Memory;
