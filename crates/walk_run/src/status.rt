//! How a run ends.

ghost use Rattle.std.specs.Prelude.{◌≡◌};
ghost use Rattle.walk_run.specs.Status.{number_of};

/// How a run ends. Its number is the program's exit status.
#[derive(Clone, Copy, Debug, PartialEq, Eq)]
pub enum WalkStatus {
    /// The trace was written whole.
    Done,
    /// The words were not understood.
    Usage,
    /// The file is not one that is read here.
    Malformed,
    /// The file could not be opened, or reading it failed.
    ReadFault,
    /// Writing the trace failed.
    WriteFault,
    /// Memory ran out.
    Memory,
    /// The sections of the file ask for more than 256 MiB.
    TooMuch,
}

impl WalkStatus {
    /// The exit status, from 0 to 6 in the order of the variants.
    pub fn number(&self) -> u8
        ensures { result ≡ number_of self.now }
    {
        match self {
            WalkStatus::Done => 0,
            WalkStatus::Usage => 1,
            WalkStatus::Malformed => 2,
            WalkStatus::ReadFault => 3,
            WalkStatus::WriteFault => 4,
            WalkStatus::Memory => 5,
            WalkStatus::TooMuch => 6,
        }
    }
}
