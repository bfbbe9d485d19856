//! What a closed state shows of a program, as marks by the numbers of its addresses.
//!
//! Workers build a state, and one thread alone marks what a program reaches. Both meet in these
//! marks: from them on, the way to the graph is the same.
//!
//! - `marks`: the marks of a state, made by one thread.
//! - `sharing`: the same, made by several threads.
//! - `seen`: the numbers of the addresses of which a shard shows something.
#![tactic(auto)]

mod marks;
mod seen;
mod sharing;

pub use cfg_model::Memory;
pub use marks::marks_of;
pub use sharing::{marks_from_by, marks_of_by};
