//! The canonical certificate of a file: which of all certificates it is, and its maker.
//!
//! - `specs/Reason`: what a reason says of a program. `specs/Rank`: the rank of a line.
//!   `specs/Ranked`: what has a rank. `specs/First`: which reason is taken where several fit.
//!   `specs/Canonical`: the canonical part. `specs/Validity`: it is valid.
//! - [`laws`]: laws of these definitions.
//! - [`part`]: the canonical part, from the leaders and the terminators that return.
//! - [`returns`], [`leads`]: the lines of either kind, in steps over all of them.
//! - [`levels`], [`return_ranks`], [`lead_ranks`]: the ranks that these begin with.
//! - [`links`]: what the leaders are to each other, which is found once for all steps. [`places`]: an
//!   address by its place in a list. [`runs`]: the blocks of the leaders. [`chain_ends`], [`exits`]: the
//!   ends of their chains, and the ways from these to leaders.
//! - [`firsts`]: the nearest leader to each end, and to each leader by such a way.
//! - [`fronts`], [`joins`]: what lies upstream of the blocks, and the first join to each leader.
//! - `specs/Inner`: what one step finds.
//!
//! A table of lines is settled if each line has the least rank and the first reason that the table
//! itself allows. There is one settled table of all lines, and it is the canonical one. A step takes
//! a table to another, and the maker stops at one whose ranks a step leaves as they are.
//!
//! The table begins with ranks that are handed out by levels. They are meant to be the right ones,
//! so that one step is enough, but nothing rests on that: each step settles the next rank, whatever
//! the others are, and no rank is left out below the greatest one. So as many steps as there are
//! lines settle all of them (`proofs/Steps`, `proofs/Gapless`).
#![tactic(auto)]

mod chain_ends;
mod exits;
mod firsts;
mod fronts;
mod joins;
mod laws;
mod lead_ranks;
mod leads;
mod levels;
mod links;
mod part;
mod places;
mod return_ranks;
mod returns;
mod runs;

pub use laws::{a_canonical_part_is_valid, leaders_have_ranks, one_part, returns_have_ranks};
pub use leads::lead_lines;
pub use part::canonical_part;
pub use returns::return_lines;
