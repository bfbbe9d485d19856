//! The words as one simple command of clap: three options that take a text, and a path.

ghost use Rattle.std.specs.Prelude.{◌≡◌, ℕ, List, map, string_bytes, true, false, IfOk, IfErr};
ghost use Rattle.std.specs.Prelude.{OnOk};
ghost use Rattle.clap.specs.Words.{app_of, found_of, first_value, with_rule};
ghost use Rattle.cfg_words.specs.declared.error.WordsError.TheVariants.{Usage};
ghost use Rattle.cfg_words.specs.Command.{option_rule, cfg_app, is_taken, text_of};

use crate::error::WordsError;
use clap::{Arg, ArgMatches, Command};
use std::alloc::{AllocError, Global};

/// What clap finds in the words after the program's name.
pub fn parsed<'a>(alloc: Global, words: &'a [String]) -> Result<ArgMatches<'a>, WordsError>
    ensures taken { OnOk result (is_taken (map (λ w. string_bytes w) words.entry.now) ≡ true) }
    ensures texts { IfOk result (λ m. (name : List ℕ)
        → first_value (found_of m) name
        ≡ text_of (map (λ w. string_bytes w) words.entry.now) name) }
    ensures usage { IfErr result
        (λ e. e ≡ Usage → is_taken (map (λ w. string_bytes w) words.entry.now) ≡ false) }
{
    let command = command(alloc)?;
    let matches = command.try_get_matches_from(words)?;
    Ok(matches)
}

/// The command: no help and no version, and each argument at most once.
fn command<'a>(alloc: Global) -> Result<Command<'a>, AllocError>
    ensures { IfOk result (λ c. app_of c ≡ cfg_app) }
{
    let bare = Command::new(alloc, "cfg").disable_help_flag(true);
    let with_workers = with_option(alloc, bare, "workers")?;
    let with_report = with_option(alloc, with_workers, "report")?;
    let with_make = with_option(alloc, with_report, "make")?;
    with_make.arg(Arg::new(alloc, "file"))
}

/// The command with one more option, `--name TEXT`.
fn with_option<'a>(
    alloc: Global,
    command: Command<'a>,
    name: &'a str,
) -> Result<Command<'a>, AllocError>
    ensures { IfOk result
        (λ c. app_of c ≡ with_rule (app_of command.entry) (option_rule name.entry.now)) }
{
    command.arg(Arg::new(alloc, name).long(name))
}
