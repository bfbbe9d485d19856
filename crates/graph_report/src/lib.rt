//! The text of a report: a control-flow graph as lines that programs and people can read.
//!
//! - [`pieces`]: the report of a graph, piece by piece, with the names that the file gives to its
//!   functions. [`whole`]: all of it at once.
//! - [`file_names`]: the names that a file gives its functions.
//! - [`lines`]: the lines of a report, which can be cut into parts.
//! - [`made`]: the summary of the graph of a program that was made from a number.
//! - [`kind`]: what a report shows.
//! - [`left`]: the three sections of a report and its last line, each from where it stands on.
//!   [`list_left`]: a section that lists blocks or edges. [`live_left`]: the same of a report of live
//!   registers. [`lined`]: the loop that puts lines on a page.
//! - [`heading`]: the two lines that a report begins with.
//! - [`line`]: each line form. [`field`]: the fields of a line. [`name`]: how a name becomes one.
//! - [`page`]: the page that lines are put on.
//! - `specs/`: the format, line by line, as definitions of its bytes.
#![tactic(auto)]

mod field;
mod file_names;
mod heading;
mod kind;
mod left;
mod line;
mod lined;
mod lines;
mod list_left;
mod live_left;
mod made;
mod name;
mod page;
mod pieces;
mod whole;

pub use field::{address_digits, end_word};
pub use file_names::FileNames;
pub use kind::ReportKind;
pub use lines::ReportLines;
pub use made::summary;
pub use pieces::ReportPieces;
pub use std::alloc::AllocError as Memory;
pub use whole::report;
