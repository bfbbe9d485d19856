//! Where jump tables overlap: how many entries are kept of each.
//!
//! The entries of a table lie one after another, and the bound test before its jump may allow more
//! than belong to it. A table ends at the latest where the next one begins, so it is cut there.
//!
//! - `bases`: where tables begin.
//! - `cuts`: the cuts of all tables of some code, reached or not.
#![tactic(auto)]

mod bases;
mod cuts;

pub use cuts::cuts_of;
