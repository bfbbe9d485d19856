//! An input in memory.
ghost use Rattle.std.specs.Prelude.{◌≡◌, ◌≢◌, ◌⊎◌, ◌↔◌, ◌≤◌, ◌<◌, [], ◌++◌, length, take, drop};
ghost use Rattle.std.specs.Prelude.{min, true, false, Some, IfSome, IfOk, OnOk, OnErr};
ghost use Rattle.std.specs.Prelude.{string_bytes};
ghost use Rattle.cfg_io.specs.Fault.{fault_count, most_faults};
ghost use Rattle.cfg_io.specs.Opened.{Nothing, IsOpened};
ghost use Rattle.cfg_io.specs.Told.{Takes};
ghost use Rattle.cfg_io.specs.Script.{FailsNext};
ghost use Rattle.cfg_io.specs.MemInput.{MemInputState, opened_of, after_failed, after_open};
ghost use Rattle.cfg_io.specs.MemInput.{after_read};
ghost use Rattle.std.proofs.Math.Nat.{min-le_right};

use crate::giving::give;
use crate::script::fails_next;
use crate::{Failed, Input};
use std::marker::Model;

/// An input that holds its bytes, for tests of what reads from an [`Input`].
///
/// Its calls of `open` and `read` together are numbered from 1, without an end. It tells its path
/// and its bytes, and no call takes memory.
#[derive(Drop)]
pub struct MemInput {
    name: String,
    bytes: Vec<u8>,
    at: usize,
    most: usize,
    failing: Vec<u64>,
    calls: u64,
    is_open: bool,
    faults: u64,
}

impl Model for MemInput {
    ghost Value = { MemInputState };

    ghost view = { λ m. record {
      name = string_bytes m.name;
      rest = drop m.at m.bytes.items;
      most = m.most;
      failing = m.failing.items;
      calls = m.calls;
      is_open = m.is_open;
      faults = m.faults;
    } };

    ghost invariant = { λ m. (m.at ≤ length m.bytes.items) × (0 < m.most) };
}

impl MemInput {
    /// An input with these bytes. It gives at most `most` bytes per read, and at least 1. Nothing
    /// is opened.
    ///
    /// A call fails exactly if its number is in `failing`, or it is an `open` of another path than
    /// `name`.
    pub fn new(name: String, bytes: Vec<u8>, most: usize, failing: Vec<u64>) -> Self
        requires { 0 < most }
        ensures { result ≡ record {
          name = string_bytes name;
          rest = bytes.items;
          most = most;
          failing = failing.items;
          calls = 0;
          is_open = false;
          faults = 0;
        } }
    {
        MemInput {
            name,
            bytes,
            at: 0,
            most,
            failing,
            calls: 0,
            is_open: false,
            faults: 0,
        }
    }
}

impl Input for MemInput {
    ghost faults = { λ m. fault_count m.faults };

    ghost opened = { opened_of };

    ghost tells_path = { λ _. true };

    ghost rest = { λ m. Some m.rest };

    fn open(&mut self, path: &str) -> Result<(), Failed>
        requires { opened_of self.old ≡ Nothing }

        // It fails exactly if its number is in the list or the path is another.
        ensures fails { OnErr result
            (FailsNext self.old.failing self.old.calls ⊎ (path.now ≢ self.old.name)) }
        ensures ok_number { OnOk result (¬ FailsNext self.old.failing self.old.calls) }
        ensures ok_path { OnOk result (path.now ≡ self.old.name) }

        ensures after_ok { OnOk result (self.new ≡ after_open self.old) }
        ensures after_err { OnErr result (self.new ≡ after_failed self.old) }
    {
        let fails = fails_next(&self.failing, self.calls);
        self.calls = self.calls.saturating_add(1);
        if fails || path != self.name.as_str() {
            self.faults = self.faults.saturating_add(1);
            return Err(Failed);
        }
        self.is_open = true;
        Ok(())
    }

    fn read(&mut self, buf: &mut [u8]) -> Result<usize, Failed>
        requires is_opened { IsOpened (opened_of self.old) }
        requires has_room { 0 < length buf.old }
        ensures in_bounds { IfOk result (λ n. n ≤ length buf.new) }
        ensures takes { IfOk result
            (λ n. Takes (Some self.old.rest) (take n buf.new) (Some self.new.rest)) }
        ensures ends { IfOk result
            (λ n. IfSome (Some self.old.rest) (λ left. (n ≡ 0) ↔ (left ≡ []))) }

        // It fails exactly if its number is in the list.
        ensures fails { OnErr result (FailsNext self.old.failing self.old.calls) }
        ensures ok_number { OnOk result (¬ FailsNext self.old.failing self.old.calls) }

        // It gives as many bytes as there are and fit, and the most of one read at most.
        ensures count { IfOk result
            (λ n. n ≡ min (length buf.old) (min self.old.most (length self.old.rest))) }
        ensures bytes { IfOk result (λ n. buf.new ≡ take n self.old.rest ++ drop n buf.old) }
        ensures failed_bytes { OnErr result (buf.new ≡ buf.old) }

        ensures after_ok { IfOk result (λ n. self.new ≡ after_read self.old n) }
        ensures after_err { OnErr result (self.new ≡ after_failed self.old) }
    {
        let fails = fails_next(&self.failing, self.calls);
        self.calls = self.calls.saturating_add(1);
        if fails {
            self.faults = self.faults.saturating_add(1);
            return Err(Failed);
        }
        let n = give(&self.bytes[self.at..], self.most, buf);
        self.at += n;
        Ok(n)
    }

    ghost faults_fit = { λ x. min-le_right x.faults most_faults };
}
