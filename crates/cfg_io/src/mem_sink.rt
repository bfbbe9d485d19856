//! A sink in memory.
ghost use Rattle.std.specs.Prelude.{◌≡◌, ◌⊎◌, ◌-◌, ◌≤◌, ◌<◌, [], length, take, min, Some, IfOk};
ghost use Rattle.std.specs.Prelude.{OnOk, OnErr, vec_len, vec_capacity};
ghost use Rattle.cfg_io.specs.Fault.{fault_count, most_faults};
ghost use Rattle.cfg_io.specs.Script.{FailsNext};
ghost use Rattle.cfg_io.specs.MemSink.{MemSinkState, after_failed, after_write};
ghost use Rattle.std.proofs.Math.Nat.{min-le_right};

use crate::script::fails_next;
use crate::{Failed, Memory, Sink};
use std::alloc::Global;
use std::marker::Model;

/// A sink that keeps what is written to it, for tests of what writes to a [`Sink`].
///
/// Its writes are numbered from 1, without an end. It tells its bytes, and no write takes memory.
#[derive(Drop)]
pub struct MemSink {
    written: Vec<u8>,
    room: usize,
    most: usize,
    failing: Vec<u64>,
    calls: u64,
    faults: u64,
}

impl Model for MemSink {
    ghost Value = { MemSinkState };

    ghost view = { λ m. record {
      written = m.written.items;
      room = m.room;
      most = m.most;
      failing = m.failing.items;
      calls = m.calls;
      faults = m.faults;
    } };

    ghost invariant = { λ m. (vec_len m.written ≤ m.room)
        × (m.room ≤ vec_capacity m.written)
        × (0 < m.most) };
}

impl MemSink {
    /// A sink for `room` bytes, whose memory it takes now. A write takes at most `most` bytes, at
    /// least 1.
    ///
    /// A write fails exactly if its number is in `failing`, or no room is left.
    ///
    /// [`Memory`]: there is no memory for that room.
    pub fn new(alloc: Global, room: usize, most: usize, failing: Vec<u64>) -> Result<Self, Memory>
        requires { 0 < most }
        ensures { IfOk result (λ sink. sink ≡ record {
          written = [];
          room = room;
          most = most;
          failing = failing.items;
          calls = 0;
          faults = 0;
        }) }
    {
        let written = Vec::with_capacity(alloc, room)?;
        Ok(MemSink {
            written,
            room,
            most,
            failing,
            calls: 0,
            faults: 0,
        })
    }

    /// The bytes written so far.
    pub fn bytes(&self) -> &[u8]
        ensures { result.now ≡ self.now.written }
    {
        self.written.as_slice()
    }
}

impl Sink for MemSink {
    ghost faults = { λ m. fault_count m.faults };

    ghost written = { λ m. Some m.written };

    fn write(&mut self, piece: &[u8]) -> Result<usize, Failed>
        requires { 0 < length piece.now }
        ensures some { IfOk result (λ n. 0 < n) }
        ensures in_bounds { IfOk result (λ n. n ≤ length piece.now) }

        // It fails exactly if its number is in the list or no room is left.
        ensures fails { OnErr result
            (FailsNext self.old.failing self.old.calls
            ⊎ (self.old.room ≤ length self.old.written)) }
        ensures ok_number { OnOk result (¬ FailsNext self.old.failing self.old.calls) }
        ensures ok_room { OnOk result (length self.old.written < self.old.room) }

        // It takes as many bytes as there are and have room, and the most of one write at most.
        ensures count { IfOk result
            (λ n. n ≡ min (length piece.now)
            (min self.old.most (self.old.room - length self.old.written))) }
        ensures after_ok { IfOk result (λ n. self.new ≡ after_write self.old (take n piece.now)) }
        ensures after_err { OnErr result (self.new ≡ after_failed self.old) }
    {
        let fails = fails_next(&self.failing, self.calls);
        self.calls = self.calls.saturating_add(1);
        let left = self.room - self.written.len();
        if fails || left == 0 {
            self.faults = self.faults.saturating_add(1);
            return Err(Failed);
        }
        let n = piece.len().min(self.most.min(left));
        self.written.extend_from_slice(&piece[..n]).unwrap();
        Ok(n)
    }

    ghost faults_fit = { λ x. min-le_right x.faults most_faults };
}
