//! Prints what a reader of ELF files finds, for comparisons with other tools.
//!
//! The words are requests, which are answered in turn, each on lines of its own:
//!
//! - `seeds FILE`: the file's seeds and their names (`seeds`);
//! - `tables FILE`: its jump tables (`tables`);
//! - `landings FILE`: its ranges that have landing pads (`landings`).
#![tactic(auto)]

mod landings;
mod seeds;
mod tables;

use anyhow::{Context, Result, bail};
use std::io::{self, BufWriter, Write};
use std::{env, fs};

fn main(rt: HostRuntime) -> Result<()> {
    let alloc = rt.alloc();
    let mut out = BufWriter::new(alloc, io::writer(&rt))?;
    let mut words = env::args(&rt)?.skip(1);
    while let Some(what) = words.next() {
        let Some(path) = words.next() else {
            bail!("usage: dump_files [seeds FILE | tables FILE | landings FILE] ..");
        };
        let bytes = fs::read(&rt, path.as_str()).context("the file could not be read")?;
        if what.as_str() == "seeds" {
            seeds::write_file(alloc, &mut out, bytes)?;
        } else if what.as_str() == "tables" {
            tables::write_file(alloc, &mut out, bytes)?;
        } else if what.as_str() == "landings" {
            landings::write_file(alloc, &mut out, bytes)?;
        } else {
            bail!("what to print is seeds, tables or landings");
        }
    }
    out.flush()?;
    Ok(())
}
