//! How a run ends.

ghost use Rattle.std.specs.Prelude.{◌≡◌};
ghost use Rattle.cfg_run.specs.Status.{number_of};

/// How a run ends. Its number is the program's exit status.
#[derive(Clone, Copy, Debug, PartialEq, Eq)]
pub enum Status {
    /// The report was written whole.
    Done,
    /// The words were not understood.
    Usage,
    /// The file is not one that is read here.
    Malformed,
    /// The file could not be opened, or reading it failed.
    ReadFault,
    /// Writing the report failed.
    WriteFault,
    /// Memory ran out.
    Memory,
}

impl Status {
    /// The exit status, from 0 to 5 in the order of the variants.
    pub fn number(&self) -> u8
        ensures { result ≡ number_of self.now }
    {
        match self {
            Status::Done => 0,
            Status::Usage => 1,
            Status::Malformed => 2,
            Status::ReadFault => 3,
            Status::WriteFault => 4,
            Status::Memory => 5,
        }
    }
}
