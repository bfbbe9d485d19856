//! A part of a certificate, and a certificate.

use crate::lines::{LeadLines, ReturnLines};

/// The leaders of a graph, and the terminators in it that return, each with its reason.
#[derive(Drop)]
pub struct Part {
    /// The terminators that return, by rising address.
    pub returns: ReturnLines,
    /// The leaders, by rising address.
    pub leads: LeadLines,
}

/// A certificate of a file: what its graph follows from.
///
/// A text may have a second part. It is read, but no certificate that has one is valid.
#[derive(Drop)]
pub struct Certificate {
    /// The part that the graph follows from.
    pub part: Part,
    /// A second part, under the heading `part cuts`.
    pub second: Option<Part>,
}
