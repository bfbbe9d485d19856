//! An input over a file of the system.
ghost use Rattle.std.specs.Prelude.{◌≡◌, ◌≤◌, ◌<◌, length, false, None, is_some};
ghost use Rattle.std.specs.Prelude.{if◌then◌else◌, IfOk, OnOk, OnErr};
ghost use Rattle.std.proofs.Math.Nat.{min-le_right};
ghost use Rattle.cfg_io.specs.Fault.{fault_count, most_faults, one_more};
ghost use Rattle.cfg_io.specs.Opened.{Nothing, Something, IsOpened};

use crate::{Failed, Input};
use std::fs;
use std::io::Read;
use std::rt::Files;

/// A file of the runtime `R`. It tells neither its path nor its bytes, which no contract can.
///
/// Each error of the system counts as a fault, want of memory too.
#[derive(Drop)]
pub struct FileInput<R: Files> {
    rt: R,
    file: Option<R::File>,
    faults: u64,
}

impl<R: Files> FileInput<R> {
    /// An input with nothing opened.
    pub fn new(rt: R) -> Self
        ensures closed { ⟦<FileInput<R> as Input>⟧.opened result ≡ Nothing }
        ensures no_faults { ⟦<FileInput<R> as Input>⟧.faults result ≡ 0 }
        ensures tells_no_path { ⟦<FileInput<R> as Input>⟧.tells_path result ≡ false }
        ensures tells_no_bytes { ⟦<FileInput<R> as Input>⟧.rest result ≡ None }
    {
        FileInput {
            rt,
            file: None,
            faults: 0,
        }
    }
}

impl<R: Files> Input for FileInput<R> {
    ghost faults = { λ f. fault_count f.faults };

    ghost opened = { λ f. if is_some f.file then Something None else Nothing };

    ghost tells_path = { λ _. false };

    ghost rest = { λ _. None };

    fn open(&mut self, path: &str) -> Result<(), Failed>
        requires { ⟦<FileInput<R> as Input>⟧.opened self.old ≡ Nothing }
        ensures opens { OnOk result (⟦<FileInput<R> as Input>⟧.opened self.new ≡ Something None) }
        ensures stays_closed { OnErr result (⟦<FileInput<R> as Input>⟧.opened self.new ≡ Nothing) }

        // A failure counts as one fault, and nothing else does.
        ensures ok_faults { OnOk result
            (⟦<FileInput<R> as Input>⟧.faults self.new
            ≡ ⟦<FileInput<R> as Input>⟧.faults self.old) }
        ensures err_faults { OnErr result
            (⟦<FileInput<R> as Input>⟧.faults self.new
            ≡ one_more (⟦<FileInput<R> as Input>⟧.faults self.old)) }
    {
        match fs::open(&self.rt, path) {
            Ok(file) => {
                self.file = Some(file);
                Ok(())
            }
            Err(_) => {
                self.faults = self.faults.saturating_add(1);
                Err(Failed)
            }
        }
    }

    fn read(&mut self, buf: &mut [u8]) -> Result<usize, Failed>
        requires is_opened { IsOpened (⟦<FileInput<R> as Input>⟧.opened self.old) }
        requires has_room { 0 < length buf.old }
        ensures in_bounds { IfOk result (λ n. n ≤ length buf.new) }
        ensures stays_opened { ⟦<FileInput<R> as Input>⟧.opened self.new
            ≡ ⟦<FileInput<R> as Input>⟧.opened self.old }

        // A failure counts as one fault, and nothing else does.
        ensures ok_faults { OnOk result
            (⟦<FileInput<R> as Input>⟧.faults self.new
            ≡ ⟦<FileInput<R> as Input>⟧.faults self.old) }
        ensures err_faults { OnErr result
            (⟦<FileInput<R> as Input>⟧.faults self.new
            ≡ one_more (⟦<FileInput<R> as Input>⟧.faults self.old)) }
    {
        let Some(file) = &mut self.file else {
            unreachable!()
        };
        match file.read(buf) {
            Ok(n) => Ok(n),
            Err(_) => {
                self.faults = self.faults.saturating_add(1);
                Err(Failed)
            }
        }
    }

    ghost faults_fit = { λ x. min-le_right x.faults most_faults };
}
