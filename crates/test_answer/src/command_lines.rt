//! Command lines that are taken, and command lines that are refused.

use crate::asserts::same_at;
use cfg_words::{Request, request};
use std::alloc::{AllocError, Global};
use std::test::Fail;

/// The program's name and these words.
fn command_line(alloc: Global, words: &[&str]) -> Result<Vec<String>, AllocError> {
    let mut line = Vec::new(alloc);
    line.push(String::from_str(alloc, "cfg")?)?;
    for word in words {
        line.push(String::from_str(alloc, word)?)?;
    }
    Ok(line)
}

/// A request as one text: its form, path or size, workers, and kind.
fn shown(alloc: Global, words: &[&str]) -> Result<String, AllocError> {
    let line = command_line(alloc, words)?;
    match request(alloc, line.as_slice()) {
        Ok(
            Request::File {
                path,
                workers,
                kind,
            },
        ) => format!(in alloc; "file {path} {workers} {kind:?}"),
        Ok(Request::Make { n, workers }) => format!(in alloc; "make {n} {workers}"),
        Err(error) => format!(in alloc; "{error:?}"),
    }
}

/// Words, and the request that they make.
static LINES: [(&[&str], &str); 26] = [
    (&["F"], "file F 1 Graph"),
    (&["--workers", "064", "F"], "file F 64 Graph"),
    (
        &["F", "--workers=2", "--report", "functions"],
        "file F 2 Functions",
    ),
    (&["--report", "blocks", "F"], "file F 1 Blocks"),
    (&["--report=edges", "F"], "file F 1 Edges"),
    (&["--report", "live", "F"], "file F 1 Live"),
    (&["--", "--x"], "file --x 1 Graph"),
    (&["--make", "100000"], "make 100000 1"),
    (&["--workers", "000000064", "--make=4"], "make 4 64"),
    (&[], "Usage"),
    (&["F", "G"], "Usage"),
    (&["--workers", "0", "F"], "Usage"),
    (&["--workers", "65", "F"], "Usage"),
    (&["--workers", "+4", "F"], "Usage"),
    (&["--workers", "0000000004", "F"], "Usage"),
    (&["--workers=", "F"], "Usage"),
    (&["--workers", "4", "--workers", "4", "F"], "Usage"),
    (&["--report", "all", "F"], "Usage"),
    (&["F", "--make", "4"], "Usage"),
    (&["--make", "3"], "Usage"),
    (&["--make", "100001"], "Usage"),
    (&["--make", "4", "--report", "graph"], "Usage"),
    (&["--make", "4", "--report", "live"], "Usage"),
    (&["--colour", "F"], "Usage"),
    (&["--work", "4", "F"], "Usage"),
    (&["--help"], "Usage"),
];

#[test]
fn command_lines(rt: HostRuntime) -> Result<(), Fail> {
    for &(words, want) in LINES.iter() {
        let got = shown(rt.alloc(), words)?;
        same_at(&rt, &words, &got.as_str(), &want);
    }
    Ok(())
}
