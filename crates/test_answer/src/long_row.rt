//! Row 31, an end that is split over and over: its report, which is worked out line by line.

use crate::asserts::same;
use crate::one_run::left_by;
use crate::row_files::file_of;
use cfg_run::Status;
use crew::OpenGate;
use std::alloc::{AllocError, Global};
use std::test::Fail;

/// Row 31: a function of one block at each of 301 halfwords. Each goes on to the next.
fn row_31_text(alloc: Global) -> Result<String, AllocError> {
    let last: u64 = 0x10258;
    let mut text = String::from_str(alloc, "cfg-report 2\nentry 0000000000010000\n")?;
    writeln!(text, "functions 301")?;
    for i in 0..301u64 {
        let at = 0x10000 + 2 * i;
        writeln!(text, "function {at:016x} may-return 1 s")?;
        writeln!(text, "in {at:016x}")?;
    }
    writeln!(text, "blocks 301")?;
    push_each(&mut text, "block")?;
    let end = last + 2;
    writeln!(text, "block {last:016x} {end:016x} return")?;
    writeln!(text, "edges 300")?;
    push_each(&mut text, "edge")?;
    text.push_str("end\n")?;
    Ok(text)
}

/// The line of each halfword but the last.
fn push_each(text: &mut String, word: &str) -> Result<(), AllocError> {
    for i in 0..300u64 {
        let at = 0x10000 + 2 * i;
        let after = at + 2;
        writeln!(text, "{word} {at:016x} {after:016x} fall")?;
    }
    Ok(())
}

#[test]
fn many_splits(rt: HostRuntime) -> Result<(), Fail> {
    let text = row_31_text(rt.alloc())?;
    let left = left_by(&rt, &["F"], file_of(&rt, 31, 0)?, 0, &OpenGate)?;
    same(&rt, &left.status, &Status::Done);
    same(&rt, &left.out.bytes(), &text.as_bytes());
    Ok(())
}
