//! The lines of a part of a certificate, found by their addresses, and whether the ends of chains are
//! as these lines say.
//!
//! - [`rising`]: whether the lists of a part rise by their addresses, without repeats.
//! - [`leads`]: which line of a rising list is that of a leader.
//! - [`returns`]: which line of a rising list is that of a terminator that returns.
//! - [`numbered_returns`]: the same, by the numbers of addresses.
//! - [`ends`]: the terminators of the chains of the listed leaders.
//! - [`reasons`]: whether each listed return has its reason.
//! - [`missing`]: whether a return is missing, and whether each listed one is an end.
//! - [`ways`]: where an end leads.
//! - `specs/Places`: lines by their places. `specs/Ends`: the facts of a part that are decided.
//!
//! Each answer is exact. Nothing is asked of a part but that its lists rise, and that its
//! addresses are code.
#![tactic(auto)]

mod ends;
pub mod leads;
mod missing;
pub mod numbered_returns;
mod reasons;
pub mod returns;
pub mod rising;
mod ways;

pub use ends::ends_of;
pub use leads::{is_lead, place_from};
pub use missing::{returns_are_closed, returns_end};
pub use numbered_returns::NumberedReturns;
pub use reasons::returns_have_reasons;
pub use returns::is_return;
pub use rising::part_rises;
pub use ways::{find_successors, returns_by_itself};
