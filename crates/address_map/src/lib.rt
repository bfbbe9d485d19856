//! A map by address: a finite map from addresses of 64 bits to values, as most programs use them,
//! many in a few ranges, and walked in their order.
//!
//! - [`map`]: the map itself, whose contract is that finite map.
//! - [`look`]: a look at its entries for something that is wanted, and a reading of all of them.
//! - [`least`]: the lesser of two addresses.
//!
//! How it lies in memory: pages of 4096 bytes, 64 to a chunk, 256 chunks to a region of 64 MiB. The
//! chunks of the region of the first address are found by their place, all others by a tree. An
//! address is found along those of its page, so the time is constant while pages hold few. In the
//! lines on time below, n is how many addresses there are, and p how many of them lie in one page.
//!
//! Rare ways, as making room and far addresses, are cold functions of their own, and so the
//! frequent ones stay short.
#![tactic(auto)]

mod chunk;
mod entry;
pub mod least;
pub mod look;
pub mod map;
mod region;
mod scattered;

pub use least::lesser;
pub use look::{Look, Reading};
pub use map::AddressMap;
