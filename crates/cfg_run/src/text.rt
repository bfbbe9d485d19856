//! The text of an answer, and writing it.

ghost use Rattle.std.specs.Prelude.{◌≡◌, ◌≢◌, ◌≤◌, [], ◌++◌, OnOk, OnErr, IsErrOf};
ghost use Rattle.elf_image.specs.Seeds.{seed_name};
ghost use Rattle.cfg_io.specs.Fault.{Rose};
ghost use Rattle.cfg_io.specs.Told.{Appends, AppendsPrefix};
ghost use Rattle.graph_report.specs.Live.{AreForAll, live_text};
ghost use Rattle.graph_report.specs.Report.{report_text};
ghost use Rattle.run_ends.specs.Told.{Moves};
ghost use Rattle.cfg_run.specs.Text.{bytes_of};

use crate::maker::Maker;
use cfg_io::{Failed, Sink, write_whole};
use cfg_model::AllLives;
use file_graph::FileGraph;
use graph_report::{FileNames, ReportKind, ReportLines, ReportPieces};
use run_ends::{Joined, Unwritten};
use std::alloc::Global;
use std::marker::Model;

/// What a report is made of: the file with its graph, and which part of it is shown. Contracts see
/// it as the report's text, which is made only while it is written.
#[derive(Drop)]
pub struct FileReport {
    file: FileGraph,
    kind: ReportKind,
}

impl Model for FileReport {
    ghost use Rattle.std.specs.Prelude.{◌≢◌, ℕ, List};
    ghost use Rattle.elf_image.specs.Seeds.{seed_name};
    ghost use Rattle.graph_report.specs.declared.kind.ReportKind.TheVariants as reports;
    ghost use Rattle.graph_report.specs.Report.{report_text};

    ghost Value = { List ℕ };

    ghost view = { λ r. report_text r.kind (seed_name r.file.bytes) r.file.graph };

    ghost invariant = { λ r. r.kind ≢ reports.Live };
}

impl FileReport {
    /// The report of a kind of this file's graph.
    pub fn new(file: FileGraph, kind: ReportKind) -> Self
        requires { kind ≢ ReportKind.Live }
        ensures { result ≡ report_text kind (seed_name file.bytes) file.graph }
    {
        FileReport { file, kind }
    }

    /// Its lines.
    fn lines(&self) -> ReportLines<'_>
        ensures { result ≡ self.now }
    {
        let file = &self.file;
        let names = FileNames::new(file.image(), file.seeds());
        ReportLines::new(&names, file.graph(), self.kind)
    }
}

/// What a report of live registers is made of: the file with its graph, and the live registers of
/// the graph's functions. Contracts see it as the report's text.
#[derive(Drop)]
pub struct LiveReport {
    file: FileGraph,
    lives: AllLives,
}

impl Model for LiveReport {
    ghost use Rattle.std.specs.Prelude.{ℕ, List};
    ghost use Rattle.elf_image.specs.Seeds.{seed_name};
    ghost use Rattle.graph_report.specs.Live.{AreForAll, live_text};

    ghost Value = { List ℕ };

    ghost view = { λ r. live_text (seed_name r.file.bytes) r.file.graph r.lives };

    ghost invariant = { λ r. AreForAll r.file.graph.functions r.lives };
}

impl LiveReport {
    /// The report of these live registers of this file's graph.
    pub fn new(file: FileGraph, lives: AllLives) -> Self
        requires { AreForAll file.graph.functions lives }
        ensures { result ≡ live_text (seed_name file.bytes) file.graph lives }
    {
        LiveReport { file, lives }
    }

    /// Its lines.
    fn lines(&self) -> ReportLines<'_>
        ensures { result ≡ self.now }
    {
        let file = &self.file;
        let names = FileNames::new(file.image(), file.seeds());
        ReportLines::of_lives(&names, file.graph(), &self.lives)
    }
}

/// Writes the text of these lines. All memory without which that cannot be done is taken before the
/// first byte is written.
fn write_lines<M: Maker, O: Sink>(
    alloc: Global,
    by: &M,
    lines: ReportLines,
    out: &mut O,
) -> Result<(), Unwritten>
    requires { M.ready by.now }
    ensures whole { OnOk result (Appends (O.written out.old) lines.entry (O.written out.new)) }
    ensures prefix { IsErrOf result Unwritten.Failed
        → AppendsPrefix (O.written out.old) lines.entry (O.written out.new) }
    ensures failed { IsErrOf result Unwritten.Failed
        → Rose (O.faults out.old) (O.faults out.new) }
    ensures untouched { IsErrOf result Unwritten.Memory
        → O.written out.new ≡ O.written out.old }
{
    let pieces = ReportPieces::of_lines(alloc, &lines)?;
    let joined = Joined::new(alloc)?;
    Ok(write_rounds(by, lines, pieces, joined, out)?)
}

/// Writes it in rounds, one after another: the text of a round is freed before the next one is made.
/// `pieces` and `joined`, which is empty, lend their room.
fn write_rounds<'a, M: Maker, O: Sink>(
    by: &M,
    mut lines: ReportLines<'a>,
    mut pieces: ReportPieces<'a>,
    mut joined: Joined,
    out: &mut O,
) -> Result<(), Failed>
    requires ready { M.ready by.now }
    requires empty { joined ≡ [] }
    ensures whole { OnOk result (Appends (O.written out.old) lines.entry (O.written out.new)) }
    ensures prefix { OnErr result
        (AppendsPrefix (O.written out.old) lines.entry (O.written out.new)) }
    ensures failed { OnErr result (Rose (O.faults out.old) (O.faults out.new)) }
{
    put_full_rounds(by, &mut lines, &mut pieces, &mut joined, out)?;
    put_round(by, lines, &mut pieces, &mut joined, out)?;
    joined.end(out)
}

/// Takes the rounds off these lines before the last one, and puts their texts behind what is joined.
fn put_full_rounds<'a, M: Maker, O: Sink>(
    by: &M,
    lines: &mut ReportLines<'a>,
    pieces: &mut ReportPieces<'a>,
    joined: &mut Joined,
    out: &mut O,
) -> Result<(), Failed>
    requires { M.ready by.now }
    ensures moved { OnOk result (Moves (O.written out.old) (O.written out.new)
        (joined.old ++ lines.old) (joined.new ++ lines.new)) }
    ensures prefix { OnErr result
        (AppendsPrefix (O.written out.old) (joined.old ++ lines.old) (O.written out.new)) }
    ensures failed { OnErr result (Rose (O.faults out.old) (O.faults out.new)) }
    ensures never_falls { O.faults out.old ≤ O.faults out.new }
{
    let size = by.lines_at_once();
    for _ in 0..rounds_before_last(lines.count(), size) {
        put_round(by, lines.cut(size), pieces, joined, out)?;
    }
    Ok(())
}

/// How many rounds of `size` lines `count` lines have before the last one. A round ends with its
/// section, hence four more; lines that are no more than `size` are one round, whatever sections
/// they have.
fn rounds_before_last(count: usize, size: usize) -> usize {
    if count <= size {
        return 0;
    }
    (count / size.max(1)).saturating_add(4)
}

/// Puts the text of these lines behind what is joined: as texts that are written, or, if none are
/// made, piece by piece. That takes no memory, so it is done too if there was none for the texts.
fn put_round<'a, M: Maker, O: Sink>(
    by: &M,
    lines: ReportLines<'a>,
    pieces: &mut ReportPieces<'a>,
    joined: &mut Joined,
    out: &mut O,
) -> Result<(), Failed>
    requires { M.ready by.now }
    ensures moved { OnOk result (Moves (O.written out.old) (O.written out.new)
        (joined.old ++ lines.entry) joined.new) }
    ensures prefix { OnErr result
        (AppendsPrefix (O.written out.old) (joined.old ++ lines.entry) (O.written out.new)) }
    ensures failed { OnErr result (Rose (O.faults out.old) (O.faults out.new)) }
    ensures never_falls { O.faults out.old ≤ O.faults out.new }
{
    pieces.begin(&lines);
    match by.texts(lines) {
        Ok(Some(texts)) => joined.pass(&texts, out),
        Ok(None) | Err(_) => joined.put_all(pieces, out),
    }
}

/// The text of an answer: a report, which is made while it is written, or a summary.
#[derive(Drop)]
pub enum Text {
    Report(FileReport),
    Live(LiveReport),
    Summary(Vec<u8>),
}

impl Text {
    /// Writes it. All memory without which that cannot be done is taken before the first byte is
    /// written: [`Unwritten::Memory`] is no answer after that.
    pub fn write<M: Maker, O: Sink>(
        &self,
        alloc: Global,
        by: &M,
        out: &mut O,
    ) -> Result<(), Unwritten>
        requires { M.ready by.now }
        ensures whole { OnOk result
            (Appends (O.written out.old) (bytes_of self.now) (O.written out.new)) }
        ensures prefix { IsErrOf result Unwritten.Failed
            → AppendsPrefix (O.written out.old) (bytes_of self.now) (O.written out.new) }
        ensures failed { IsErrOf result Unwritten.Failed
            → Rose (O.faults out.old) (O.faults out.new) }
        ensures untouched { IsErrOf result Unwritten.Memory
            → O.written out.new ≡ O.written out.old }
    {
        match self {
            Text::Report(report) => write_lines(alloc, by, report.lines(), out),
            Text::Live(report) => write_lines(alloc, by, report.lines(), out),
            Text::Summary(bytes) => Ok(write_whole(out, bytes)?),
        }
    }
}
