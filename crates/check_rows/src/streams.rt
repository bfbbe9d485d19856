//! How the inputs and the sinks of a run behave.

use anyhow::{Context, Result};
use std::alloc::{AllocError, Global};

/// Which call fails. Calls are numbered from 1.
#[derive(Clone, Copy)]
pub(crate) enum Failing {
    None,
    Call(u64),
    /// In each try the one with the number of the try.
    Each,
}

/// The calls of an input or a sink.
#[derive(Clone, Copy)]
pub(crate) struct Calls {
    /// The most bytes that a call gives or takes.
    pub(crate) most: usize,
    pub(crate) failing: Failing,
}

/// Calls that never fail.
pub(crate) const PLAIN: Calls = Calls {
    most: 65_536,
    failing: Failing::None,
};

impl Calls {
    /// The calls that two words say: the most bytes, and which call fails.
    pub(crate) fn parse(words: &str) -> Result<Self> {
        let (most, failing) = words
            .split_once(' ')
            .context("two words say how calls end")?;
        let failing = match failing {
            "0" => Failing::None,
            "each" => Failing::Each,
            number => Failing::Call(number.parse::<u64>().context("the number of a call")?),
        };
        Ok(Calls {
            most: most
                .parse::<usize>()
                .context("how many bytes a call moves")?,
            failing,
        })
    }

    /// The number of the call that fails in this try, if one does.
    pub(crate) fn failing_in(self, number: u64) -> Option<u64> {
        match self.failing {
            Failing::None => None,
            Failing::Call(call) => Some(call),
            Failing::Each => Some(number),
        }
    }

    /// The list of that number.
    pub(crate) fn list(self, alloc: Global, number: u64) -> Result<Vec<u64>, AllocError> {
        let mut list = Vec::new(alloc);
        if let Some(call) = self.failing_in(number) {
            list.push(call)?;
        }
        Ok(list)
    }
}

/// The calls of both inputs and both sinks of a run.
#[derive(Clone, Copy)]
pub(crate) struct Streams {
    pub(crate) file: Calls,
    pub(crate) certificate: Calls,
    pub(crate) out: Calls,
    pub(crate) err: Calls,
}

/// Streams whose calls never fail.
pub(crate) const PLAIN_STREAMS: Streams = Streams {
    file: PLAIN,
    certificate: PLAIN,
    out: PLAIN,
    err: PLAIN,
};
