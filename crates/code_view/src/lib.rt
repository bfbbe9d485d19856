//! A file's code as a program: the control flow of its instructions under table cuts.
//!
//! - `cuts`: how many entries are kept of a jump table. `calls`: what a file says of its calls.
//! - `table_jump`: a jump with its table. `tables`: all of them that some code has.
//! - `code`: the instructions of an image.
#![tactic(auto)]

mod calls;
mod code;
mod cuts;
mod flow;
mod jump_word;
mod kept;
mod register_jump;
mod table_jump;
mod tables;

pub use calls::Calls;
pub use code::Code;
pub use cuts::Cuts;
pub use std::alloc::AllocError as Memory;
pub use table_jump::TableJump;
pub use tables::AllTables;
