//! Tests of the crates of certificates, in a crate of their own: so none of those is proved a
//! second time for its tests.
//!
//! - `ends`: worked certificates, and what is said where one thing of them is spoilt.
//! - `files`: the canonical certificates of worked files.
//! - `leads`: parts that are valid, and the same without one leader.
//! - `parts`: worked certificates of files, and the same spoilt in one place each.
//! - `text`: texts that are read and printed again, and texts of no certificate.
#![tactic(auto)]

#[cfg(test)]
mod asserts;
#[cfg(test)]
mod ends;
#[cfg(test)]
mod files;
#[cfg(test)]
mod leads;
#[cfg(test)]
mod parts;
#[cfg(test)]
mod text;
