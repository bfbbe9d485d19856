//! What is left of a report: its sections, each from where it stands on.

ghost use Rattle.std.specs.Prelude.{◌≡◌, ◌<◌, ◌≤◌, [], ◌++◌, false, length};
ghost use Rattle.std.specs.Prelude.{IsTrue, if◌then◌else◌};
ghost use Rattle.elf_image.specs.Seeds.{seed_name};
ghost use Rattle.graph_report.specs.Name.{Names};
ghost use Rattle.graph_report.specs.Line.{end_line};
ghost use Rattle.graph_report.specs.Report.{functions_section, sections};
ghost use Rattle.graph_report.specs.Inner.{Fills, functions_left, end_left, report_left};

use crate::file_names::FileNames;
use crate::kind::ReportKind;
use crate::line::{begin_function, go_on_with_name, push_end, push_function_count};
use crate::lined::push_lines;
use crate::list_left::ListLeft;
use crate::page::{PAGE_ROOM, PIECE, Page};
use cfg_model::{Block, Edge, Function, Graph};

/// What is left of the section of the functions.
#[derive(Clone, Copy)]
pub struct FunctionsLeft<'a> {
    /// Their number, until its line is given.
    count: Option<usize>,
    /// The bytes of a name that are still to come, if its line is not whole.
    name: Option<&'a [u8]>,
    /// The blocks of the last function that are still to come.
    body: &'a [u64],
    functions: &'a [Function],
}

impl<'a> FunctionsLeft<'a> {
    /// The whole section, or nothing.
    fn new(shown: bool, functions: &'a [Function]) -> FunctionsLeft<'a>
        ensures { (names : Names) → functions_left names result
            ≡ (if shown then functions_section names functions.now else []) }
    {
        if !shown {
            return FunctionsLeft::nothing();
        }
        FunctionsLeft {
            count: Some(functions.len()),
            name: None,
            body: &[],
            functions,
        }
    }

    /// Nothing of it.
    fn nothing() -> FunctionsLeft<'a>
        ensures { (names : Names) → functions_left names result ≡ [] }
    {
        FunctionsLeft {
            count: None,
            name: None,
            body: &[],
            functions: &[],
        }
    }

    /// Whether nothing is left.
    fn is_empty(&self) -> bool
        ensures { (names : Names) → IsTrue result → functions_left names self.now ≡ [] }
    {
        self.count.is_none()
            && self.name.is_none()
            && self.body.is_empty()
            && self.functions.is_empty()
    }

    /// Takes functions off the front until they have this many lines, and what stands before them.
    fn cut(&mut self, lines: usize) -> FunctionsLeft<'a>
        ensures { (names : Names) → functions_left names result ++ functions_left names self.new
            ≡ functions_left names self.old }
    {
        let taken = functions_with(self.functions, lines);
        let (front, rest) = self.functions.split_at(taken);
        let cut = FunctionsLeft {
            count: self.count,
            name: self.name,
            body: self.body,
            functions: front,
        };
        *self = FunctionsLeft {
            count: None,
            name: None,
            body: &[],
            functions: rest,
        };
        cut
    }

    /// Puts text on the page until a piece stands there or nothing is left.
    fn fill(&mut self, names: &FileNames<'a>, page: &mut Page)
        requires room { length page.old ≤ PAGE_ROOM }
        ensures { Fills page.old (functions_left (seed_name names.now) self.old) page.new
            (functions_left (seed_name names.now) self.new) }
    {
        while page.len() < PIECE {
            if !self.step(names, page) {
                break;
            }
        }
    }

    /// Puts the next line on the page, a part of it, or lines of blocks until a piece stands there;
    /// `false` if nothing is left.
    fn step(&mut self, names: &FileNames<'a>, page: &mut Page) -> bool
        requires room { length page.old < PIECE }
        ensures moves { page.new ++ functions_left (seed_name names.now) self.new
            ≡ page.old ++ functions_left (seed_name names.now) self.old }
        ensures grows { IsTrue result → length page.old < length page.new }
        ensures room { length page.new ≤ PAGE_ROOM }
        ensures end { result ≡ false → functions_left (seed_name names.now) self.new ≡ [] }
    {
        if let Some(count) = self.count {
            self.count = None;
            push_function_count(page, count);
            return true;
        }
        if let Some(name) = self.name {
            self.name = go_on_with_name(page, name);
            return true;
        }
        if !self.body.is_empty() {
            self.body = push_lines(self.body, page);
            return true;
        }
        let [function, rest @ ..] = self.functions else {
            return false;
        };
        let name = names.name_at(function.entry);
        self.name = Some(begin_function(page, function, name));
        self.body = function.body.as_slice();
        self.functions = rest;
        true
    }
}

/// How many functions at the front have this many lines together, or all if all have fewer.
pub fn functions_with(functions: &[Function], lines: usize) -> usize
    ensures { result ≤ length functions.now }
{
    let mut sum = 0_usize;
    for (i, function) in functions.iter().enumerate() {
        if lines <= sum {
            return i;
        }
        sum = sum.saturating_add(lines_of(function));
    }
    functions.len()
}

/// How many lines these functions have; `usize::MAX` if there are more.
pub fn count_lines(functions: &[Function]) -> usize {
    let mut sum = 0_usize;
    for function in functions {
        sum = sum.saturating_add(lines_of(function));
    }
    sum
}

/// How many lines a function has: its own, and one for each block of its body.
fn lines_of(function: &Function) -> usize {
    function.body.as_slice().len().saturating_add(1)
}

/// What is left of a report after its heading.
#[derive(Clone, Copy)]
pub struct ReportLeft<'a> {
    functions: FunctionsLeft<'a>,
    blocks: ListLeft<'a, Block>,
    edges: ListLeft<'a, Edge>,
    /// Whether the last line was given.
    ended: bool,
}

impl<'a> ReportLeft<'a> {
    /// The sections of a kind of report, and the last line.
    pub fn new(graph: &'a Graph, kind: ReportKind) -> ReportLeft<'a>
        ensures { (names : Names)
            → report_left names result ≡ sections kind names graph.now ++ end_line }
    {
        ReportLeft {
            functions: FunctionsLeft::new(kind.has_functions(), graph.functions.as_slice()),
            blocks: ListLeft::new(kind.has_blocks(), graph.blocks.as_slice()),
            edges: ListLeft::new(kind.has_edges(), graph.edges.as_slice()),
            ended: false,
        }
    }

    /// How many functions with their blocks, blocks and edges are left, each a line;
    /// `usize::MAX` if there are more.
    pub fn count(&self) -> usize {
        count_lines(self.functions.functions)
            .saturating_add(self.blocks.len())
            .saturating_add(self.edges.len())
    }

    /// The functions that are left.
    pub fn functions(&self) -> &'a [Function] {
        self.functions.functions
    }

    /// Takes items off the front of the first section that is not done, until they have this many
    /// lines, and what stands before them. Of a report whose sections are done it takes the last
    /// line.
    pub fn cut(&mut self, lines: usize) -> ReportLeft<'a>
        ensures { (names : Names) → report_left names result ++ report_left names self.new
            ≡ report_left names self.old }
    {
        let mut cut = ReportLeft {
            functions: FunctionsLeft::nothing(),
            blocks: ListLeft::nothing(),
            edges: ListLeft::nothing(),
            ended: true,
        };
        if !self.functions.is_empty() {
            cut.functions = self.functions.cut(lines);
        } else if !self.blocks.is_empty() {
            cut.blocks = self.blocks.cut(lines);
        } else if !self.edges.is_empty() {
            cut.edges = self.edges.cut(lines);
        } else {
            cut.ended = self.ended;
            self.ended = true;
        }
        cut
    }

    /// Puts text on the page until a piece stands there or nothing is left.
    pub fn fill(&mut self, names: &FileNames<'a>, page: &mut Page)
        requires room { length page.old ≤ PAGE_ROOM }
        ensures { Fills page.old (report_left (seed_name names.now) self.old) page.new
            (report_left (seed_name names.now) self.new) }
    {
        self.functions.fill(names, page);
        self.blocks.fill(page);
        self.edges.fill(page);
        fill_end(&mut self.ended, page);
    }
}

/// Puts the last line on the page, unless it was given or a piece stands there.
#[tactic(auto, using(crate::proofs::Filling::filled_line, crate::proofs::Filling::filled_before))]
pub fn fill_end(ended: &mut bool, page: &mut Page)
    requires room { length page.old ≤ PAGE_ROOM }
    ensures { Fills page.old (end_left ended.old) page.new (end_left ended.new) }
{
    if page.len() < PIECE && !*ended {
        push_end(page);
        *ended = true;
    }
}
