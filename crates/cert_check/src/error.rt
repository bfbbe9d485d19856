//! Why a certificate gives no graph.

ghost use Rattle.std.specs.Prelude.{◌≡◌};
ghost use Rattle.cert_check.specs.declared.error.CheckError.TheVariants as errors;

use cfg_model::Memory;

/// Why a certificate gives no graph.
#[derive(Clone, Copy, Debug, PartialEq, Eq)]
pub enum CheckError {
    /// The certificate is not valid for the file.
    Refused,
    /// Memory ran out.
    Memory,
}

impl From<Memory> for CheckError {
    ghost from_gives = { λ _ e. e ≡ errors.Memory };

    fn from(_: Memory) -> Self {
        CheckError::Memory
    }
}
