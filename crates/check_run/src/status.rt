//! How a run ends.

ghost use Rattle.std.specs.Prelude.{◌≡◌};
ghost use Rattle.check_run.specs.Status.{number_of};

/// How a run ends. Its number is the program's exit status.
#[derive(Clone, Copy, Debug, PartialEq, Eq)]
pub enum CheckStatus {
    /// The certificate of the file was written whole; or the one that was tested is valid, and the
    /// report of the file's graph was written whole.
    Done,
    /// The words were not understood.
    Usage,
    /// The file is not one that is read here.
    Malformed,
    /// The file or the certificate could not be opened, or reading it failed.
    ReadFault,
    /// Writing the certificate or the report failed.
    WriteFault,
    /// Memory ran out.
    Memory,
    /// The certificate's bytes are no text of one, or more than
    /// [`CERTIFICATE_LIMIT`](crate::CERTIFICATE_LIMIT).
    NoText,
    /// The certificate is not valid for the file.
    Refused,
}

impl CheckStatus {
    /// The exit status, from 0 to 7 in the order of the variants.
    pub fn number(&self) -> u8
        ensures { result ≡ number_of self.now }
    {
        match self {
            CheckStatus::Done => 0,
            CheckStatus::Usage => 1,
            CheckStatus::Malformed => 2,
            CheckStatus::ReadFault => 3,
            CheckStatus::WriteFault => 4,
            CheckStatus::Memory => 5,
            CheckStatus::NoText => 6,
            CheckStatus::Refused => 7,
        }
    }
}
