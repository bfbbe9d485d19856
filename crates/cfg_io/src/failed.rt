//! The answer of a call that failed.

use thiserror::Error;

/// A call of an input or a sink failed, and its count of faults rose.
#[derive(Clone, Copy, Debug, PartialEq, Eq, Error)]
#[error("the call failed")]
pub struct Failed;
