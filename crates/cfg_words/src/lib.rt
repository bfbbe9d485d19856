//! What the words of a command line ask for.
//!
//! - [`asked`]: what can be asked for.
//! - [`words`]: the request that the words make, and when they make none.
//! - [`parse`]: the words as one simple command of clap.
//! - [`value`]: numbers, ranges and kinds of report as they are written.
//! - [`error`]: why words are refused.
//! - `specs/`: the request as a function of the words.
#![tactic(auto)]

mod asked;
mod error;
mod parse;
mod value;
mod words;

pub use asked::Request;
pub use error::WordsError;
pub use value::number_within;
pub use words::request;
