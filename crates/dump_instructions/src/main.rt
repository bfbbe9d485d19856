//! Prints what is decoded, expanded and done, for comparisons with other tools.
//!
//! The words are requests, which are answered in turn, each on lines of its own:
//!
//! - `decode FILE`: the file's 32-bit words as instructions (`decoded`);
//! - `expand FILE`: the expansions of the file's halfwords (`expanded`);
//! - `with NAME`: from here on, instructions of this extension are known, such as `zba` (`named`);
//! - `machine STEPS FILE`: the first steps of the written machine through the file (`stepped`).
#![tactic(auto)]

mod assembly;
mod decoded;
mod expanded;
mod named;
mod stepped;

use anyhow::{Context, Result, bail};
use elf_image::Extensions;
use named::with_name;
use std::io::{self, BufWriter, Write};
use std::{env, fs};

fn main(rt: HostRuntime) -> Result<()> {
    let alloc = rt.alloc();
    let mut out = BufWriter::new(alloc, io::writer(&rt))?;
    let mut extensions = Extensions::none();
    let mut words = env::args(&rt)?.skip(1);
    while let Some(what) = words.next() {
        let what = what.as_str();
        let steps = if what == "machine" {
            steps_of(words.next())?
        } else {
            0
        };
        let Some(path) = words.next() else {
            bail!(
                "usage: dump_instructions [with NAME | decode FILE | expand FILE | machine STEPS FILE] .."
            );
        };
        if what == "with" {
            extensions = with_name(extensions, path.as_str()).context("no such extension")?;
            continue;
        }
        let bytes = fs::read(&rt, path.as_str()).context("the file could not be read")?;
        if what == "decode" {
            decoded::write_words(&mut out, bytes.as_slice(), extensions)?;
        } else if what == "expand" {
            expanded::write_halfwords(alloc, &mut out, bytes.as_slice(), extensions)?;
        } else if what == "machine" {
            stepped::write_run(alloc, &mut out, bytes, steps)?;
        } else {
            bail!("what to print is decode, expand or machine");
        }
    }
    out.flush()?;
    Ok(())
}

/// The number of steps that a word writes.
fn steps_of(word: Option<String>) -> Result<u32> {
    let Some(word) = word else {
        bail!("the number of steps is missing");
    };
    match word.as_str().parse::<u32>() {
        Ok(steps) => Ok(steps),
        Err(_) => bail!("the number of steps is below 2^32"),
    }
}
