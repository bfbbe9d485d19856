//! Reports whose text is made in many rounds.

ghost use Rattle.std.specs.Prelude.{◌≤◌};

use crate::asserts::{same, same_at};
use crate::one_run::left_by;
use big_case::big_file;
use cfg_io::{MemInput, MemSink};
use cfg_model::{AllLives, Graph, Memory};
use cfg_run::{Alone, Maker, Status, run_by};
use cfg_words::Request;
use crew::OpenGate;
use elf_image::{ElfError, Image};
use file_graph::FileGraph;
use graph_report::{ReportKind, ReportLines};
use std::alloc::{AllocError, Global};
use std::test::Fail;

/// A maker of rounds of few lines. It makes the text of some of them, and has no memory for that of
/// the others.
#[derive(Drop)]
struct Forgetful {
    alone: Alone,
    lines_at_once: usize,
}

impl Maker for Forgetful {
    fn file(&self, bytes: Vec<u8>) -> Result<FileGraph, ElfError> {
        self.alone.file(bytes)
    }

    fn lives(&self, image: &Image, graph: &Graph) -> Result<AllLives, Memory> {
        self.alone.lives(image, graph)
    }

    fn lines_at_once(&self) -> usize {
        self.lines_at_once
    }

    fn texts(&self, lines: ReportLines) -> Result<Option<Vec<Vec<u8>>>, Memory> {
        if lines.count() % 2 == 0 {
            return Err(AllocError);
        }
        let alloc = self.alone.alloc;
        Ok(Some(vec![in alloc; lines.text(alloc)?]?))
    }
}

/// What a run that makes its text in rounds of so many lines writes of the program of 60 functions.
fn in_rounds(alloc: Global, kind: ReportKind, lines_at_once: usize) -> Result<MemSink, Fail> {
    let by = Forgetful {
        alone: Alone { alloc },
        lines_at_once,
    };
    let path = String::from_str(alloc, "F")?;
    let mut input = MemInput::new(path.clone()?, big_file(alloc, 60)?, 65_536, Vec::new(alloc));
    let mut out = MemSink::new(alloc, 65_536, 65_536, Vec::new(alloc))?;
    let mut err = MemSink::new(alloc, 64, 64, Vec::new(alloc))?;
    let request = Request::File {
        path,
        workers: 1,
        kind,
    };
    let _ = run_by(alloc, &by, &request, &mut input, &mut out, &mut err);
    Ok(out)
}

/// The text is the same in rounds of whatever size, and if there is no memory for some of them.
#[test]
fn texts_of_rounds(rt: HostRuntime) -> Result<(), Fail> {
    let alloc = rt.alloc();
    for (kind, word) in [
        (ReportKind::Graph, "graph"),
        (ReportKind::Functions, "functions"),
        (ReportKind::Live, "live"),
    ] {
        let words = ["--report", word, "F"];
        let whole = left_by(&rt, &words, big_file(alloc, 60)?, 0, &OpenGate)?;
        same(&rt, &whole.status, &Status::Done);
        for size in [1, 7, 100, 10_000] {
            let out = in_rounds(alloc, kind, size)?;
            same_at(&rt, &(word, size), &out.bytes(), &whole.out.bytes());
        }
    }
    Ok(())
}
