//! Reading a whole input and writing a whole output, with every failure counted.
//!
//! An [`Input`] is opened once and read from front to back; a [`Sink`] is written to. Each call
//! that answers [`Failed`] has raised the object's count of faults, so that a caller's contract can
//! say that a failure came from outside and was not made up. [`read_whole`] and [`write_whole`] go
//! on until all is read or written, or a call fails.
//!
//! [`MemInput`] and [`MemSink`] are in memory and fail at given calls. [`FileInput`] and [`StdSink`]
//! stand on std's files and writers.
#![tactic(auto)]

mod failed;
mod file_input;
mod giving;
mod input;
mod mem_input;
mod mem_sink;
mod reading;
mod script;
mod sink;
mod std_sink;
mod writing;

pub use failed::Failed;
pub use file_input::FileInput;
pub use input::Input;
pub use mem_input::MemInput;
pub use mem_sink::MemSink;
pub use reading::{MAX_LIMIT, ReadEnd, read_whole};
pub use sink::Sink;
pub use std::alloc::AllocError as Memory;
pub use std_sink::StdSink;
pub use writing::write_whole;
