//! Prints what threads did, and makes what they make again and again, for measurements.
//!
//! The words are requests, which are answered in turn, each on lines of its own:
//!
//! - `workers N FILE`: what each of N workers, 2 to 64, counted who built the file's graph
//!   (`workers`);
//! - `lives N TIMES FILE`: the live registers of the file's graph, made 1 to 1,000 times by N
//!   workers, 1 to 64 (`lives`).
#![tactic(auto)]

mod lives;
mod tallies;
mod workers;

ghost use Rattle.std.specs.Prelude.{◌≤◌, IfSome};

use anyhow::{Context, Result, bail};
use parallel::MOST_WORKERS;
use std::io::{self, BufWriter, Write};
use std::{env, fs};

/// How often lists are made at most.
const MOST_TIMES: u32 = 1000;

fn main(rt: HostRuntime) -> Result<()> {
    let alloc = rt.alloc();
    let mut out = BufWriter::new(alloc, io::writer(&rt))?;
    let mut words = env::args(&rt)?.skip(1);
    while let Some(what) = words.next() {
        let is_lives = what.as_str() == "lives";
        if !is_lives && what.as_str() != "workers" {
            bail!("usage: dump_threads [workers N FILE | lives N TIMES FILE] ..");
        }
        let Some(workers) = number_up_to(words.next(), MOST_WORKERS) else {
            bail!("the number of workers is 1 to 64");
        };
        let times = if is_lives {
            number_up_to(words.next(), MOST_TIMES)
        } else {
            Some(1)
        };
        let (Some(times), Some(path)) = (times, words.next()) else {
            bail!("the lists are made 1 to 1000 times, for a file");
        };
        let bytes = fs::read(&rt, path.as_str()).context("the file could not be read")?;
        if is_lives {
            lives::write_file(&rt, alloc, &mut out, bytes, workers, times)?;
        } else if workers >= 2 {
            workers::write_file(&rt, alloc, &mut out, bytes, workers)?;
        } else {
            bail!("one worker counts nothing: give 2 to 64");
        }
    }
    out.flush()?;
    Ok(())
}

/// The number that a word writes, if there is one and it is from 1 to `most`.
fn number_up_to(word: Option<String>, most: u32) -> Option<u32>
    ensures { IfSome result (λ n. (1 ≤ n) × (n ≤ most)) }
{
    match word?.as_str().parse::<u32>() {
        Ok(number) if 1 <= number && number <= most => Some(number),
        _ => None,
    }
}
