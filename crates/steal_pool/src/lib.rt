//! Work items, by their names, in one deque for each worker. A worker puts names into its own
//! deque, and takes the first name of its own deque or else of another's (work stealing).
//!
//! - [`pool`]: a pool, its hands, one for each worker, and what is left at the end.
//! - [`hand`]: a worker's hand, which puts and takes.
//! - [`deques`]: one round of tries, over any deques.
//! - [`names`]: a list of names.
//! - [`laws`]: what holds of each deque at every moment.
//!
//! Names leave a deque in the order in which they were put, at either end, so that a hand that
//! finds no name knows that each deque was empty when it was tried. A hand notes what it put and
//! took, in proofs alone; when all hands are gathered, the names put are those taken and those
//! left, each as often.
#![tactic(auto)]

pub mod deques;
mod end;
pub mod hand;
pub mod laws;
pub mod names;
mod note;
mod noted;
pub mod pool;

pub use deques::{Deques, Round, Tried, first_of};
pub use hand::{Back, Hand};
pub use names::Names;
pub use pool::{Hands, Pool};
pub use std::alloc::AllocError as Memory;
