//! The request that the words make.

ghost use Rattle.std.specs.Prelude.{◌≡◌, Some, None, Option, map, string_bytes, IfOk, IfErr};
ghost use Rattle.std.specs.Option.{option_map};
ghost use Rattle.cfg_words.specs.declared.error.WordsError.TheVariants.{Usage};
ghost use Rattle.cfg_words.specs.Request.{asked, request_of, file_request, make_request};
ghost use Rattle.cfg_words.specs.Given.{request_given};
ghost use Rattle.cfg_words.specs.Value.{number_within, workers_of, report_kind_of};

use crate::asked::Request;
use crate::error::WordsError;
use crate::parse::parsed;
use crate::value::{number_within, report_kind, workers};
use std::alloc::Global;

/// What the words after the program's name ask for: `[--workers N] [--report KIND] FILE` or
/// `[--workers N] --make N`, in each order and spelling that clap takes.
///
/// A number is one to nine decimal digits. There is one worker if `--workers` is not given, and the
/// whole graph is reported if `--report` is not.
///
/// - [`WordsError::Usage`]: the words are not of these forms, or a number is out of its range.
/// - [`WordsError::Memory`]: memory ran out.
pub fn request(alloc: Global, words: &[String]) -> Result<Request, WordsError>
    ensures request { IfOk result
        (λ r. request_of (map (λ w. string_bytes w) words.now) ≡ Some (asked r)) }
    ensures usage { IfErr result
        (λ e. e ≡ Usage → request_of (map (λ w. string_bytes w) words.now) ≡ None) }
{
    let matches = parsed(alloc, words)?;
    let given = Given {
        workers: matches.get_str("workers"),
        report: matches.get_str("report"),
        make: matches.get_str("make"),
        file: matches.get_str("file"),
    };
    request_given(alloc, given)
}

/// The texts of the options and of FILE, if they are given.
#[derive(Clone, Copy)]
struct Given<'a> {
    workers: Option<&'a str>,
    report: Option<&'a str>,
    make: Option<&'a str>,
    file: Option<&'a str>,
}

/// The request of these texts: one of FILE and `--make`, and no `--report` beside `--make`.
fn request_given(alloc: Global, given: Given) -> Result<Request, WordsError>
    ensures request { IfOk result (λ r. request_given given.entry ≡ Some (asked r)) }
    ensures usage { IfErr result (λ e. e ≡ Usage → request_given given.entry ≡ None) }
{
    let workers = workers(given.workers).ok_or(WordsError::Usage)?;
    match (given.file, given.make, given.report) {
        (Some(path), None, report) => file_request(alloc, path, workers, report),
        (None, Some(n), None) => make_request(n, workers),
        _ => Err(WordsError::Usage),
    }
}

/// The request of the report of a file.
fn file_request(
    alloc: Global,
    path: &str,
    workers: u32,
    report: Option<&str>,
) -> Result<Request, WordsError>
    ensures request { IfOk result
        (λ r. file_request path.now (Some workers)
        (report_kind_of (option_map (λ s. s.now) report.entry)) ≡ Some (asked r)) }
    ensures usage { IfErr result
        (λ e. e ≡ Usage → file_request path.now (Some workers)
        (report_kind_of (option_map (λ s. s.now) report.entry)) ≡ None) }
{
    let Some(kind) = report_kind(report) else {
        return Err(WordsError::Usage);
    };
    let path = String::from_str(alloc, path)?;
    Ok(Request::File {
        path,
        workers,
        kind,
    })
}

/// The request of the summary of a made program.
fn make_request(n: &str, workers: u32) -> Result<Request, WordsError>
    ensures request { IfOk result
        (λ r. make_request (number_within 4 100000 n.now) (Some workers) ≡ Some (asked r)) }
    ensures usage { IfErr result
        (λ e. make_request (number_within 4 100000 n.now) (Some workers) ≡ None) }
{
    match number_within(n, 4, 100_000) {
        Some(n) => Ok(Request::Make { n, workers }),
        None => Err(WordsError::Usage),
    }
}
