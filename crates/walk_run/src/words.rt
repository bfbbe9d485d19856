//! The walk that the words ask for.

ghost use Rattle.std.specs.Prelude.{◌≡◌};
ghost use Rattle.std.specs.Option.{option_map};
ghost use Rattle.walk_run.specs.Words.{asked_by};
ghost use Rattle.walk_run.specs.Inner.{asked};

use cfg_words::number_within;

/// The most steps of a walk.
pub const MOST_STEPS: u32 = 1_000_000;

/// A walk that is asked for.
#[derive(Clone, Copy)]
pub struct Request<'a> {
    /// The most steps that it takes, 1 to [`MOST_STEPS`].
    pub steps: u32,
    /// The path of the file.
    pub path: &'a str,
}

/// What the words ask for: the program's name, STEPS and FILE. STEPS is one to nine decimal digits.
pub fn request_of(words: &[String]) -> Option<Request>
    ensures { option_map asked result ≡ asked_by words.entry.now }
{
    match words {
        [_, steps, path] => Some(Request {
            steps: number_within(steps.as_str(), 1, MOST_STEPS)?,
            path: path.as_str(),
        }),
        _ => None,
    }
}
