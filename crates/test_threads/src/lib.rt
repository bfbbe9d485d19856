//! Tests of the crates that share work among threads. They call public functions alone, and the
//! crate has no code of its own: so none of those crates is proved a second time for its tests.
//!
//! No contract says that a call can succeed, that two workers act in one run, or that one takes
//! work from another. So these tests count, and compare with values from outside.
//!
//! - `calls`, `drawn`: calls side by side, by some counts and numbers of threads.
//! - `held`: workers that are held with a shard in their hands, or with the last work.
//! - `one_board`: a held shard, which is busy for another seat.
//! - `stealing`: rounds over deques, and threads that put and take.
//! - `workers`: the states that workers leave, and gates that hold them.
#![tactic(auto)]

#[cfg(test)]
mod asserts;
#[cfg(test)]
mod calls;
#[cfg(test)]
mod drawn;
#[cfg(test)]
mod held;
#[cfg(test)]
mod one_board;
#[cfg(test)]
mod stealing;
#[cfg(test)]
mod workers;
