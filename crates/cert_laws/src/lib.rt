//! What a valid certificate is, of any program and of a file, and that one shows the graph.
//!
//! Over any program and its seeds:
//!
//! - `specs/Lines`: what the lines of a part list.
//! - `specs/Ways`: where a terminator leads, and why it returns, as far as the lines say.
//! - `specs/Valid`: a valid part.
//! - `specs/Shown`: what a part shows: the leaders and the terminators that return.
//! - `specs/Told`: the blocks and edges that the lines of a part tell.
//!
//! Of a file, whose program, jump tables and seeds these are:
//!
//! - `specs/FileCertificate`: a valid certificate of a file.
//! - `specs/FileShown`: what is shown: the leaders and returns of its program under the cuts of its
//!   jump tables.
//!
//! - [`laws`]: a valid part and a valid certificate show these, whoever made them.
#![tactic(auto)]

pub mod laws;

pub use laws::{a_valid_certificate_shows_the_file, a_valid_part_shows_the_graph};
