//! The landing pads of a file: where the unwinder goes on if a call throws (LSB Core, "Exception
//! Frames"; Itanium C++ ABI, "Exception Handling Tables").
//!
//! A section `.eh_frame` has a record for each function, its frame. It names a common record, which
//! says how pointers are written, and an exception table. That gives ranges of calls, each with a pad.
//! What is malformed says nothing, and is no fault of the file.
//!
//! - `cursor`: reading from the front of bytes at an address.
//! - `number`: numbers and pointers by their encodings.
//! - `common`, `frame`, `table`: the three, read.
//! - `frames`: the ranges of all sections.
//! - `range`: the search among ranges.
//! - `landings`: [`Landings`], what is kept and asked.
//!
//! Readings, all of this project's profile:
//!
//! - Sections of frames are found by their name, not by a program header, and as jump tables are only
//!   if the program cannot write them.
//! - A record of length 0 does not end a section.
//! - Neither the range of the frame itself nor the actions of a table are asked: pads that clean up,
//!   filter and catch count alike.
//! - Where ranges overlap, the nearest beginning counts, even if that range has ended. An
//!   entry with the pad 0 makes no range, and hides none.
#![tactic(auto)]

mod common;
mod cursor;
mod frame;
mod frames;
mod landings;
mod number;
mod range;
mod table;

pub use landings::Landings;
pub use range::Range;
pub use std::alloc::AllocError as Memory;
