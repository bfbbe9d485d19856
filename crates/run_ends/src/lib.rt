//! The ends of a run that reads one file and writes one text: its words, reading the file, writing
//! the text, and the line that reports why a run failed.
//!
//! - `words`: the words of the command line.
//! - `reading`: all bytes of the file at a path, up to a limit.
//! - `writing`: a text, piece by piece.
//! - `joined`: pieces that are joined before they are written, and texts between them.
//! - `line`: the line on standard error.
#![tactic(auto)]

mod joined;
mod line;
mod reading;
mod words;
mod writing;

pub use joined::{JOINED, Joined};
pub use line::write_failure;
pub use reading::{FILE_LIMIT, Unread, read_file, read_within};
pub use words::command_words;
pub use writing::{Unwritten, write_pieces};
