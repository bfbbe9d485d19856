//! A case, and the lines that say it.

use crate::bytes::{file_of, put_bytes, put_words};
use crate::streams::{Calls, PLAIN_STREAMS, Streams};
use anyhow::{Context, Result, bail};
use std::alloc::{AllocError, Global};

/// What the programs are run on, and what they must do.
#[derive(Drop)]
pub(crate) struct Case<'a> {
    pub(crate) name: &'a str,
    /// The bytes of `F`, and where the first try ends them, if it does.
    pub(crate) file: Vec<u8>,
    pub(crate) cut: Option<usize>,
    /// The bytes of `C`, and the words of the run that prints them, if one does.
    pub(crate) certificate: Vec<u8>,
    pub(crate) certified: Option<&'a str>,
    /// The words of each run.
    pub(crate) runs: Vec<&'a str>,
    pub(crate) tries: u64,
    pub(crate) streams: Streams,
    /// What is wanted; and the words of the run that prints the same, if one does.
    pub(crate) status: u8,
    pub(crate) out: Vec<u8>,
    pub(crate) like: Option<&'a str>,
    pub(crate) err: Vec<u8>,
}

impl<'a> Case<'a> {
    /// The case of these lines.
    pub(crate) fn parse(alloc: Global, text: &'a str) -> Result<Case<'a>> {
        let mut lines = text.lines();
        let name = lines.next().context("a case has a name")?;
        let mut case = Case::named(alloc, name);
        for line in lines {
            let (word, rest) = line.split_once(' ').unwrap_or((line, ""));
            case.add(alloc, word, rest).context(name)?;
        }
        Ok(case)
    }

    /// A case of which only the name is known.
    fn named(alloc: Global, name: &'a str) -> Case<'a> {
        Case {
            name,
            file: Vec::new(alloc),
            cut: None,
            certificate: Vec::new(alloc),
            certified: None,
            runs: Vec::new(alloc),
            tries: 1,
            streams: PLAIN_STREAMS,
            status: 0,
            out: Vec::new(alloc),
            like: None,
            err: Vec::new(alloc),
        }
    }

    /// Adds what the line of this word says.
    fn add(&mut self, alloc: Global, word: &str, rest: &'a str) -> Result<()> {
        match word {
            "#" => {}
            "file" => self.file = file_of(alloc, rest)?,
            "bytes" => put_bytes(&mut self.file, rest)?,
            "words" => put_words(&mut self.file, rest)?,
            "cut" => self.cut = Some(rest.parse::<usize>().context("where a file ends")?),
            "<" => push_line(&mut self.certificate, rest)?,
            "<." => self.certificate.extend_from_slice(rest.as_bytes())?,
            "certificate" => self.certified = Some(rest),
            "like" => self.like = Some(rest),
            "run" => self.runs.push(rest)?,
            "tries" => self.tries = rest.parse::<u64>().context("how many tries")?,
            "status" => self.status = rest.parse::<u8>().context("a status")?,
            ">" => push_line(&mut self.out, rest)?,
            "!" => push_line(&mut self.err, rest)?,
            stream => self.set_calls(stream, Calls::parse(rest)?)?,
        }
        Ok(())
    }

    /// Says how the calls of an input or a sink end.
    fn set_calls(&mut self, stream: &str, calls: Calls) -> Result<()> {
        match stream {
            "reads" => self.streams.file = calls,
            "certifies" => self.streams.certificate = calls,
            "writes" => self.streams.out = calls,
            "errors" => self.streams.err = calls,
            _ => bail!("no line begins with this word"),
        }
        Ok(())
    }

    /// The bytes of `F` in this try.
    pub(crate) fn file_in(&self, alloc: Global, number: u64) -> Result<Vec<u8>, AllocError> {
        let end = match self.cut {
            Some(cut) => cut.saturating_add(number.saturating_sub(1) as usize),
            None => self.file.len(),
        };
        let end = end.min(self.file.len());
        Vec::from_slice(alloc, &self.file[..end])
    }

    /// What standard output must have in this try: what the writes before the failing one took.
    pub(crate) fn out_in(&self, number: u64) -> &[u8] {
        let calls = self.streams.out;
        let end = match calls.failing_in(number) {
            Some(call) => calls.most.saturating_mul(call.saturating_sub(1) as usize),
            None => self.out.len(),
        };
        &self.out[..end.min(self.out.len())]
    }
}

/// Adds a line to a text.
fn push_line(text: &mut Vec<u8>, line: &str) -> Result<(), AllocError> {
    text.extend_from_slice(line.as_bytes())?;
    text.push(b'\n')?;
    Ok(())
}
