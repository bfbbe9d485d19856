//! Certificates of a control-flow graph, and their text.
//!
//! A certificate says why each leader is one, and why each terminator returns.
//!
//! - [`lines`]: the lines of a certificate, each with its rank and its reason, and their lists.
//! - [`certificate`]: a part of a certificate, and a certificate.
//! - [`print`](printing): the text of a certificate.
//! - [`parse`](parsing): the certificate of a text. [`field`] reads a field, [`reading`] a line,
//!   [`listing`] a list of lines.
//! - `specs/`: the text, line by line, as definitions of its bytes.
//!
//! The crate knows nothing of programs: `cert_laws` defines what makes a certificate valid.
#![tactic(auto)]

mod certificate;
mod error;
mod field;
mod laws;
mod lines;
mod listing;
mod parsing;
mod printing;
mod reading;

pub use certificate::{Certificate, Part};
pub use error::TextError;
pub use laws::one_certificate;
pub use lines::{LeadLine, LeadLines, LeadWhy, ReturnLine, ReturnLines, ReturnWhy};
pub use parsing::parse;
pub use printing::print;
