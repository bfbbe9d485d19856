//! What the words ask for.

ghost use Rattle.std.specs.Prelude.{◌≡◌};
ghost use Rattle.std.specs.Option.{option_map};
ghost use Rattle.check_run.specs.Words.{asked_by};
ghost use Rattle.check_run.specs.Inner.{asked};

/// What is asked for.
#[derive(Clone, Copy)]
pub enum Request<'a> {
    /// The certificate of the file at this path.
    Make { file: &'a str },
    /// A test of the file at one path by the certificate at another.
    Test { file: &'a str, certificate: &'a str },
}

/// What the words ask for: the program's name, `make` and FILE, or `test`, FILE and CERT.
pub fn request_of(words: &[String]) -> Option<Request>
    ensures { option_map asked result ≡ asked_by words.entry.now }
{
    match words {
        [_, command, file] => {
            if command.as_str() != "make" {
                return None;
            }
            Some(Request::Make {
                file: file.as_str(),
            })
        }
        [_, command, file, certificate] => {
            if command.as_str() != "test" {
                return None;
            }
            Some(Request::Test {
                file: file.as_str(),
                certificate: certificate.as_str(),
            })
        }
        _ => None,
    }
}
