//! Sharing work among threads.
//!
//! - [`map_indices`], [`for_each_chunk_mut`]: calls side by side, each on a thread of its own.
//! - [`map_drawn`]: calls that threads draw one after another.
//! - [`AddressRange`]: the ranges of addresses that bounds cut.
//! - [`joined`], [`joined_if_made`], [`appended_if_made`]: lists that were made piece by piece, put
//!   together.
#![tactic(auto)]

mod chunks;
mod drawn;
mod lists;
mod ranges;
mod side_by_side;

pub use chunks::for_each_chunk_mut;
pub use drawn::map_drawn;
pub use lists::{appended_if_made, joined, joined_if_made};
pub use ranges::AddressRange;
pub use side_by_side::map_indices;

/// The most workers that a call is asked for.
pub const MOST_WORKERS: u32 = 64;
