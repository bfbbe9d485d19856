//! A gate before each operation of a worker, by which a test holds workers.

use crate::tally::Tally;
use core_state::WorkKind;
use std::marker::Sync;

/// What a worker passes before each operation.
pub trait Gate: Sync {
    /// Worker number `worker`, from 0, is about to do the work of this kind at the address `key`.
    fn before(&self, worker: u32, kind: WorkKind, key: u64);

    /// Worker number `worker` has ended, and counted this.
    fn ended(&self, worker: u32, tally: &Tally) {
        let _told = (worker, tally.made);
    }
}

/// The gate that holds nobody.
#[derive(Clone, Copy, Debug, PartialEq, Eq)]
pub struct OpenGate;

impl Gate for OpenGate {
    fn before(&self, _worker: u32, _kind: WorkKind, _key: u64) {}
}
