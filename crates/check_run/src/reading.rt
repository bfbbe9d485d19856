//! Reading the file and the certificate that are asked for.

ghost use Rattle.std.specs.Prelude.{◌≡◌, None, IfSome, IfOk, IfErr};
ghost use Rattle.elf_image.specs.Faults.{first_fault};
ghost use Rattle.cfg_io.specs.Fault.{Rose};
ghost use Rattle.cfg_io.specs.Opened.{Nothing};
ghost use Rattle.check_run.specs.Evidence.{Holds};
ghost use Rattle.check_run.specs.Inputs.{OpenedAt, IsReadWithin, IsFileRead, HasReadCertificate};
ghost use Rattle.check_run.specs.Inner.{IsTrueOfFile, IsTrueOfText, end_of};

use crate::refusal::Refusal;
use crate::seeded::SeededFile;
use crate::status::CheckStatus;
use cert_text::{Certificate, parse};
use cfg_io::Input;
use run_ends::{read_file, read_within};
use std::alloc::Global;

/// The largest certificate that is read, in bytes: 1 GiB.
pub const CERTIFICATE_LIMIT: usize = 1_073_741_824;

/// The file at a path.
pub fn file_at<I: Input>(alloc: Global, path: &str, input: &mut I) -> Result<SeededFile, Refusal>
    requires { I.opened input.old ≡ Nothing }
    ensures same { IfOk result (λ file. IfSome (I.rest input.old) (λ bytes. bytes ≡ file)) }
    ensures accepted { IfOk result (λ file. first_fault file ≡ None) }
    ensures refused { IfErr result (IsTrueOfFile (I.rest input.old)
        (Rose (I.faults input.old) (I.faults input.new))) }
    ensures file { IsFileRead path.now (end_of result) (I.tells_path input.old)
        (I.opened input.new) (I.rest input.old) (I.rest input.new) }
{
    match read_file(alloc, path, input) {
        Ok(bytes) => Ok(SeededFile::new(alloc, bytes)?),
        Err(e) => Err(Refusal::of_file(e)),
    }
}

/// The certificate at a path.
pub fn certificate_at<J: Input>(
    alloc: Global,
    path: &str,
    input: &mut J,
) -> Result<Certificate, Refusal>
    requires { J.opened input.old ≡ Nothing }
    ensures held { IfOk result
        (λ certificate. IfSome (J.rest input.old) (λ text. Holds text certificate)) }
    ensures refused { IfErr result (IsTrueOfText (J.rest input.old)
        (Rose (J.faults input.old) (J.faults input.new))) }
    ensures opened { OpenedAt path.now (J.tells_path input.old) (J.opened input.new) }
    ensures read { IsReadWithin CERTIFICATE_LIMIT (HasReadCertificate (end_of result))
        (end_of result ≡ CheckStatus.NoText) path.now (J.tells_path input.old)
        (J.opened input.new) (J.rest input.old) (J.rest input.new) }
{
    match read_within(alloc, path, input, CERTIFICATE_LIMIT) {
        Ok(text) => Ok(parse(alloc, &text)?),
        Err(e) => Err(Refusal::of_certificate(e)),
    }
}
