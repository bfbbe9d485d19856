//! The text of a report, made by several workers.
//!
//! - [`measure`]: which lines are worth it, and how many are made at once.
//! - [`sharing`]: the text in parts, which threads draw and make.
#![tactic(auto)]

mod measure;
mod sharing;

pub use measure::{LEAST_LINES, MOST_BYTES, PART_LINES, is_worth_sharing, lines_at_once};
pub use sharing::text_by;
