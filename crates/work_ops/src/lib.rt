//! The operations of a builder, each a few changes with their reasons, over any place.
//!
//! An operation makes allowed changes alone, and passes on the work that they make. Each may be
//! refused in the middle: what was done until then stands, and the operation may be made again.
//!
//! - [`want_op`]: makes an address the start of a block.
//! - [`parse_op`]: follows a start's chain to its end.
//! - [`move_op`]: places a start that was displaced by a split.
//! - [`edges_op`]: follows the edges of a terminator.
//! - [`tell_op`]: tells a waiter that a terminator returns.
//! - [`finish`]: works on a whole state until nothing is left.
#![tactic(auto)]

mod closing;
mod code;
mod desk;
mod edges;
mod joining;
mod moves;
mod parse;
mod parts;
mod tell;
mod walk;
mod want;
mod work;

pub use closing::finish;
pub use edges::edges_op;
pub use moves::move_op;
pub use parse::parse_op;
pub use tell::tell_op;
pub use want::want_op;
