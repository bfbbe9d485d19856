//! The text of an answer, and writing it.

ghost use Rattle.std.specs.Prelude.{◌≡◌, OnOk, IsErrOf};
ghost use Rattle.cfg_io.specs.Fault.{Rose};
ghost use Rattle.cfg_io.specs.Told.{Appends, AppendsPrefix};
ghost use Rattle.check_run.specs.Text.{bytes_of};

use crate::report::GraphReport;
use cfg_io::{Sink, write_whole};
use run_ends::Unwritten;
use std::alloc::Global;

/// The text of an answer: a certificate, or a report, which is made while it is written.
#[derive(Drop)]
pub enum Text {
    Certificate(Vec<u8>),
    Report(GraphReport),
}

impl Text {
    /// Writes it.
    pub fn write<O: Sink>(&self, alloc: Global, out: &mut O) -> Result<(), Unwritten>
        ensures whole { OnOk result
            (Appends (O.written out.old) (bytes_of self.now) (O.written out.new)) }
        ensures prefix { IsErrOf result Unwritten.Failed
            → AppendsPrefix (O.written out.old) (bytes_of self.now) (O.written out.new) }
        ensures failed { IsErrOf result Unwritten.Failed
            → Rose (O.faults out.old) (O.faults out.new) }
        ensures untouched { IsErrOf result Unwritten.Memory
            → O.written out.new ≡ O.written out.old }
    {
        match self {
            Text::Certificate(bytes) => Ok(write_whole(out, bytes)?),
            Text::Report(report) => report.write(alloc, out),
        }
    }
}
