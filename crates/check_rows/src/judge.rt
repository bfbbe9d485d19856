//! What is other in the runs of a case than the case says.

use crate::case::Case;
use crate::one_run::{Files, Left, left_by};
use crate::streams::PLAIN_STREAMS;
use anyhow::{Result, bail};
use std::alloc::{AllocError, Global};
use std::marker::Sync;
use std::sync::Wait;
use std::thread::Threads;

/// The numbers of workers for which `@` stands.
const CREWS: [&str; 6] = ["1", "2", "3", "4", "8", "64"];

/// The word for the number of workers.
const CREW: &str = "@";

/// What is other: in which run, with its words, and in which try.
#[derive(Drop)]
pub(crate) struct Difference {
    pub(crate) what: &'static str,
    pub(crate) run: String,
    pub(crate) number: u64,
}

/// What is other in the first run of a case that does not end as the case says.
pub(crate) fn first_difference<R: Threads + Wait + AllocGlobal + Sync>(
    rt: &R,
    case: &Case,
) -> Result<Option<Difference>> {
    for number in 1..=case.tries {
        for &words in case.runs.iter() {
            for &workers in crews_of(words) {
                let left = left_of(rt, case, words, workers, number)?;
                if let Some(what) = other(case, &left, number) {
                    let run = joined(rt.alloc(), &words_of(rt.alloc(), words, workers)?)?;
                    return Ok(Some(Difference { what, run, number }));
                }
            }
        }
    }
    Ok(None)
}

/// The numbers of workers of a run; of one that names none the first.
fn crews_of(words: &str) -> &'static [&'static str] {
    if words.split(' ').any(|word| word == CREW) {
        CREWS.as_slice()
    } else {
        &CREWS[..1]
    }
}

/// What a run of a case leaves.
fn left_of<R: Threads + Wait + AllocGlobal + Sync>(
    rt: &R,
    case: &Case,
    words: &str,
    workers: &str,
    number: u64,
) -> Result<Left> {
    let alloc = rt.alloc();
    let words = words_of(alloc, words, workers)?;
    let files = Files {
        file: case.file_in(alloc, number)?,
        certificate: case.certificate.clone()?,
    };
    left_by(rt, &words, files, &case.streams, number)
}

/// What a run on these words prints on the file of a case; one that fails is an error.
fn printed<R: Threads + Wait + AllocGlobal + Sync>(
    rt: &R,
    case: &Case,
    words: &str,
) -> Result<Vec<u8>> {
    let files = Files {
        file: case.file.clone()?,
        certificate: case.certificate.clone()?,
    };
    let words = words_of(rt.alloc(), words, "1")?;
    let left = left_by(rt, &words, files, &PLAIN_STREAMS, 1)?;
    if left.status != 0 {
        bail!("a run that prints what is wanted failed");
    }
    Ok(Vec::from_slice(rt.alloc(), left.out.bytes())?)
}

/// Fills in what other runs print for a case.
pub(crate) fn prepare<R: Threads + Wait + AllocGlobal + Sync>(
    rt: &R,
    case: &mut Case,
) -> Result<()> {
    if let Some(words) = case.certified {
        case.certificate = printed(rt, case, words)?;
    }
    if let Some(words) = case.like {
        case.out = printed(rt, case, words)?;
    }
    Ok(())
}

/// The words of a run with so many workers.
fn words_of(alloc: Global, words: &str, workers: &str) -> Result<Vec<String>, AllocError> {
    let mut all = Vec::new(alloc);
    for word in words.split(' ') {
        let word = if word == CREW { workers } else { word };
        all.push(String::from_str(alloc, word)?)?;
    }
    Ok(all)
}

/// Words as one line.
fn joined(alloc: Global, words: &[String]) -> Result<String, AllocError> {
    let mut line = String::new(alloc);
    for (place, word) in words.iter().enumerate() {
        if place > 0 {
            line.push_str(" ")?;
        }
        line.push_str(word.as_str())?;
    }
    Ok(line)
}

/// What is other in a run that left this.
fn other(case: &Case, left: &Left, number: u64) -> Option<&'static str> {
    if left.status != case.status {
        Some("another status")
    } else if left.out.bytes() != case.out_in(number) {
        Some("other standard output")
    } else if left.err.bytes() != case.err.as_slice() {
        Some("other standard error")
    } else {
        None
    }
}
