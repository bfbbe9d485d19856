//! The report of live registers, with names. The masks are worked out by hand from the
//! instructions.

use crate::asserts::same;
use crate::report_text::NAMED_FILE;
use file_graph::file_graph;
use graph_report::{FileNames, ReportLines};
use live_crew::graph_lives;
use std::alloc::Global;
use std::test::Fail;

/// The report of the live registers of a file, without a run.
fn live_text(alloc: Global, bytes: &[u8]) -> Result<Vec<u8>, Fail> {
    let file = file_graph(alloc, Vec::from_slice(alloc, bytes)?)?;
    let (image, graph) = (file.image(), file.graph());
    let lives = graph_lives(alloc, image, graph)?;
    let names = FileNames::new(image, file.seeds());
    Ok(ReportLines::of_lives(&names, graph, &lives).text(alloc)?)
}

/// A jump to another function reads all, as a return does, and where execution stops nothing is
/// read.
#[test]
fn lives_with_names(rt: HostRuntime) -> Result<(), Fail> {
    let want = "\
        cfg-report 2\n\
        entry 0000000000010000\n\
        lives 5\n\
        function 0000000000010000 may-return 1 -\n\
        live 0000000000010000 fffffffe\n\
        function 0000000000010004 may-return 1 \\x2d\n\
        live 0000000000010004 fffffffe\n\
        function 0000000000010008 may-return 2 a\\x20b\n\
        live 0000000000010008 fffffffe\n\
        live 0000000000010014 fffffffe\n\
        function 000000000001000c may-return 1 a\\\\b\n\
        live 000000000001000c fffffffe\n\
        function 0000000000010010 no-return 1 \\x80\n\
        live 0000000000010010 00000000\n\
        end\n";
    let text = live_text(rt.alloc(), &NAMED_FILE)?;
    same(&rt, &text.as_slice(), &want.as_bytes());
    Ok(())
}
