//! The instructions of the F and D extensions: which 32-bit words they are, and the compressed
//! forms that stand for them.
//!
//! - `decoder`: `decode_float`, the table of 32-bit words.
//! - `forms`: `expand_float`, the four compressed loads and stores.
//! - `laws`: what holds of both.
#![tactic(auto)]

mod decoder;
mod forms;
pub mod laws;

pub use decoder::decode_float;
pub use forms::expand_float;
