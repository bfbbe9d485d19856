//! The state of a builder on a board that threads share: its 192 shards, each under a lock of its
//! own, its turn. A seat, one for each thread, takes the turn of one shard, makes one change there
//! or looks at it, and gives the turn back. No call waits: if the turn is taken, the call is
//! refused.
//!
//! Each change that a call answers is one event of the builder's state, made while the seat held
//! the shard's turn. Some kept state allows it: one that has that shard as its part, and in which
//! every fact that the seat knew holds. The contract of a change says no more of the other shards.
//! [`laws`] says that all shards together are a kept state between any two steps.
//!
//! - [`Board`]: all shards, which threads share by reference. The only seat closes it.
//! - [`Seat`]: what one thread makes changes with. It may be split for another thread and joined
//!   again.
//! - [`Held`]: a shard, out with a seat.
//! - [`laws`]: what holds between any two steps, whatever the threads do.
#![tactic(auto)]

mod change;
mod changes;
mod held;
pub mod laws;
mod piece;
mod rule;
mod seat;
mod sights;
mod table;
mod turn;
mod view;

pub use held::Held;
pub use seat::Seat;
pub use table::Board;
