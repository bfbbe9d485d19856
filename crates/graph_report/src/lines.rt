//! The lines of a report, which can be cut into parts whose texts are made side by side.

ghost use Rattle.std.specs.Prelude.{◌≡◌, ◌≢◌, ◌++◌, IfOk};
ghost use Rattle.elf_image.specs.Seeds.{seed_name};

use crate::Memory;
use crate::file_names::FileNames;
use crate::heading::{Heading, shows_landing};
use crate::kind::ReportKind;
use crate::left::ReportLeft;
use crate::live_left::{LiveLeft, TextLeft};
use crate::page::LINE_ROOM;
use crate::pieces::ReportPieces;
use crate::whole::all_of;
use cfg_model::{AllLives, Function, Graph};
use std::alloc::Global;
use std::marker::Model;

/// Lines of a report that follow each other, of which no text is made yet. Contracts see them as
/// that text.
#[derive(Drop)]
pub struct ReportLines<'a> {
    pub(crate) names: FileNames<'a>,
    /// The heading, if it is among them.
    pub(crate) heading: Option<Heading>,
    pub(crate) left: TextLeft<'a>,
}

impl<'a> Model for ReportLines<'a> {
    ghost use Rattle.std.specs.Prelude.{ℕ, List, ◌++◌};
    ghost use Rattle.elf_image.specs.Seeds.{seed_name};
    ghost use Rattle.graph_report.specs.Inner.{heading_left, text_left};

    ghost Value = { List ℕ };

    ghost view = { λ l. heading_left l.heading ++ text_left (seed_name l.names) l.left };
}

impl<'a> ReportLines<'a> {
    ghost use Rattle.graph_report.specs.Live.{AreForAll, live_text};
    ghost use Rattle.graph_report.specs.Report.{report_text};

    /// The lines of a report of `graph`.
    ///
    /// It has the parts that `kind` names, with functions, blocks and edges in the order of their
    /// lists. A function has the name that its file gives it. Live registers are no part of a
    /// graph: for those take [`ReportLines::of_lives`].
    pub fn new(names: &FileNames<'a>, graph: &'a Graph, kind: ReportKind) -> ReportLines<'a>
        requires kind { kind ≢ ReportKind.Live }
        ensures text { result ≡ report_text kind (seed_name names.now) graph.now }
    {
        ReportLines {
            names: names.again(),
            heading: Some(Heading {
                lands: shows_landing(kind, graph),
                entry: graph.entry,
            }),
            left: TextLeft::Graph(ReportLeft::new(graph, kind)),
        }
    }

    /// The lines of the report of the live registers `lives` of `graph`.
    ///
    /// `lives` has the blocks of each function's body in order. A function has the name that its
    /// file gives it.
    pub fn of_lives(names: &FileNames<'a>, graph: &'a Graph, lives: &'a AllLives) -> ReportLines<'a>
        requires lives { AreForAll graph.now.functions lives.now }
        ensures text { result ≡ live_text (seed_name names.now) graph.now lives.now }
    {
        ReportLines {
            names: names.again(),
            heading: Some(Heading {
                lands: false,
                entry: graph.entry,
            }),
            left: TextLeft::Live(LiveLeft::new(graph, lives)),
        }
    }

    /// About how many lines these are: no fewer, and at most six more.
    /// Time: O(number of functions).
    pub fn count(&self) -> usize {
        self.left.count().saturating_add(6)
    }

    /// At least as many bytes as their text has. A line has 64 at most besides a name, and each
    /// byte of a name takes four at most.
    /// Time: O(f log s) for f functions and s seeds.
    pub fn most_bytes(&self) -> usize {
        let names = bytes_of_names(&self.names, self.left.functions());
        let lines = self.count().saturating_mul(LINE_ROOM);
        names.saturating_mul(4).saturating_add(lines)
    }

    /// Takes lines off the front: about this many, and fewer if the section where they stand ends
    /// before. The blocks of one function stay together. If `lines` is not 0, then so many calls as
    /// there are `lines` in [`ReportLines::count`], and four more, take all.
    pub fn cut(&mut self, lines: usize) -> ReportLines<'a>
        ensures text { result ++ self.new ≡ self.old }
    {
        let heading = self.heading;
        self.heading = None;
        ReportLines {
            names: self.names.again(),
            heading,
            left: self.left.cut(lines),
        }
    }

    /// Their text, or want of memory.
    /// Time: O(t + f log s) for t bytes of text, f functions and s seeds. Memory: O(t).
    pub fn text(&self, alloc: Global) -> Result<Vec<u8>, Memory>
        ensures text { IfOk result (λ v. v.items ≡ self.now) }
    {
        let pieces = ReportPieces::of_lines(alloc, self)?;
        all_of(alloc, pieces, self.most_bytes())
    }
}

/// How many bytes the names of these functions have together; `usize::MAX` if there are more.
fn bytes_of_names(names: &FileNames, functions: &[Function]) -> usize {
    let mut sum = 0_usize;
    for function in functions {
        if let Some(name) = names.name_at(function.entry) {
            sum = sum.saturating_add(name.len());
        }
    }
    sum
}
