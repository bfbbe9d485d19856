//! What is left of a report of live registers: its one section, from where it stands on.

ghost use Rattle.std.specs.Prelude.{◌≡◌, ◌<◌, ◌≤◌, [], ◌++◌, false, length};
ghost use Rattle.std.specs.Prelude.{IsTrue};
ghost use Rattle.elf_image.specs.Seeds.{seed_name};
ghost use Rattle.graph_report.specs.Name.{Names};
ghost use Rattle.graph_report.specs.Line.{end_line};
ghost use Rattle.graph_report.specs.Live.{lives_section};
ghost use Rattle.graph_report.specs.Inner.{Fills, lives_left, live_left, text_left};

use crate::file_names::FileNames;
use crate::left::{ReportLeft, count_lines, fill_end, functions_with};
use crate::line::{begin_function, go_on_with_name, push_live_count};
use crate::lined::push_lines;
use crate::page::{PAGE_ROOM, PIECE, Page};
use cfg_model::{AllLives, Function, Graph, Live, Lives};

/// What is left of the section of the live registers.
#[derive(Clone, Copy)]
pub struct LivesLeft<'a> {
    /// The number of functions, until its line is given.
    count: Option<usize>,
    /// The bytes of a name that are still to come, if its line is not whole.
    name: Option<&'a [u8]>,
    /// The blocks of the last function that are still to come, with their live registers.
    body: &'a [Live],
    functions: &'a [Function],
    /// The live registers of these functions.
    lives: &'a [Lives],
}

impl<'a> LivesLeft<'a> {
    /// The whole section.
    fn new(functions: &'a [Function], lives: &'a [Lives]) -> LivesLeft<'a>
        ensures { (names : Names)
            → lives_left names result ≡ lives_section names functions.now lives.now }
    {
        LivesLeft {
            count: Some(functions.len()),
            name: None,
            body: &[],
            functions,
            lives,
        }
    }

    /// Nothing of it.
    fn nothing() -> LivesLeft<'a>
        ensures { (names : Names) → lives_left names result ≡ [] }
    {
        LivesLeft {
            count: None,
            name: None,
            body: &[],
            functions: &[],
            lives: &[],
        }
    }

    /// Whether nothing is left.
    fn is_empty(&self) -> bool
        ensures { (names : Names) → IsTrue result → lives_left names self.now ≡ [] }
    {
        self.count.is_none()
            && self.name.is_none()
            && self.body.is_empty()
            && self.functions.is_empty()
    }

    /// Takes functions off the front until they have this many lines, and what stands before them.
    fn cut(&mut self, lines: usize) -> LivesLeft<'a>
        ensures { (names : Names) → lives_left names result ++ lives_left names self.new
            ≡ lives_left names self.old }
    {
        let taken = functions_with(self.functions, lines).min(self.lives.len());
        let (functions, other_functions) = self.functions.split_at(taken);
        let (lives, other_lives) = self.lives.split_at(taken);
        let cut = LivesLeft {
            count: self.count,
            name: self.name,
            body: self.body,
            functions,
            lives,
        };
        *self = LivesLeft {
            count: None,
            name: None,
            body: &[],
            functions: other_functions,
            lives: other_lives,
        };
        cut
    }

    /// Puts text on the page until a piece stands there or nothing is left.
    fn fill(&mut self, names: &FileNames<'a>, page: &mut Page)
        requires room { length page.old ≤ PAGE_ROOM }
        ensures { Fills page.old (lives_left (seed_name names.now) self.old) page.new
            (lives_left (seed_name names.now) self.new) }
    {
        while page.len() < PIECE {
            if !self.step(names, page) {
                break;
            }
        }
    }

    /// Puts the next line on the page, a part of it, or lines of blocks until a piece stands there;
    /// `false` if nothing is left.
    fn step(&mut self, names: &FileNames<'a>, page: &mut Page) -> bool
        requires room { length page.old < PIECE }
        ensures moves { page.new ++ lives_left (seed_name names.now) self.new
            ≡ page.old ++ lives_left (seed_name names.now) self.old }
        ensures grows { IsTrue result → length page.old < length page.new }
        ensures room { length page.new ≤ PAGE_ROOM }
        ensures end { result ≡ false → lives_left (seed_name names.now) self.new ≡ [] }
    {
        if let Some(count) = self.count {
            self.count = None;
            push_live_count(page, count);
            return true;
        }
        if let Some(name) = self.name {
            self.name = go_on_with_name(page, name);
            return true;
        }
        if !self.body.is_empty() {
            self.body = push_lines(self.body, page);
            return true;
        }
        let [function, functions @ ..] = self.functions else {
            return false;
        };
        let [first, lives @ ..] = self.lives else {
            return false;
        };
        let name = names.name_at(function.entry);
        self.name = Some(begin_function(page, function, name));
        self.body = first.as_slice();
        self.functions = functions;
        self.lives = lives;
        true
    }
}

/// What is left of a report of live registers after its heading.
#[derive(Clone, Copy)]
pub struct LiveLeft<'a> {
    lives: LivesLeft<'a>,
    /// Whether the last line was given.
    ended: bool,
}

impl<'a> LiveLeft<'a> {
    /// The section and the last line.
    pub fn new(graph: &'a Graph, lives: &'a AllLives) -> LiveLeft<'a>
        ensures { (names : Names) → live_left names result
            ≡ lives_section names graph.now.functions lives.now ++ end_line }
    {
        LiveLeft {
            lives: LivesLeft::new(graph.functions.as_slice(), lives.as_slice()),
            ended: false,
        }
    }

    /// How many functions with their blocks are left, each a line; `usize::MAX` if there are more.
    pub fn count(&self) -> usize {
        count_lines(self.lives.functions)
    }

    /// The functions that are left.
    pub fn functions(&self) -> &'a [Function] {
        self.lives.functions
    }

    /// Takes functions off the front until they have this many lines, and what stands before them.
    /// If no function is left it takes the last line.
    pub fn cut(&mut self, lines: usize) -> LiveLeft<'a>
        ensures { (names : Names) → live_left names result ++ live_left names self.new
            ≡ live_left names self.old }
    {
        let mut cut = LiveLeft {
            lives: LivesLeft::nothing(),
            ended: true,
        };
        if !self.lives.is_empty() {
            cut.lives = self.lives.cut(lines);
        } else {
            cut.ended = self.ended;
            self.ended = true;
        }
        cut
    }

    /// Puts text on the page until a piece stands there or nothing is left.
    pub fn fill(&mut self, names: &FileNames<'a>, page: &mut Page)
        requires room { length page.old ≤ PAGE_ROOM }
        ensures { Fills page.old (live_left (seed_name names.now) self.old) page.new
            (live_left (seed_name names.now) self.new) }
    {
        self.lives.fill(names, page);
        fill_end(&mut self.ended, page);
    }
}

/// What is left of a report of either form after its heading.
#[derive(Clone, Copy)]
pub enum TextLeft<'a> {
    /// Of a report of parts of a graph.
    Graph(ReportLeft<'a>),
    /// Of a report of live registers.
    Live(LiveLeft<'a>),
}

impl<'a> TextLeft<'a> {
    /// How many items are left, each a line; `usize::MAX` if there are more.
    pub fn count(&self) -> usize {
        match self {
            TextLeft::Graph(left) => left.count(),
            TextLeft::Live(left) => left.count(),
        }
    }

    /// The functions that are left.
    pub fn functions(&self) -> &'a [Function] {
        match self {
            TextLeft::Graph(left) => left.functions(),
            TextLeft::Live(left) => left.functions(),
        }
    }

    /// Takes the front off, of about this many lines.
    pub fn cut(&mut self, lines: usize) -> TextLeft<'a>
        ensures { (names : Names) → text_left names result ++ text_left names self.new
            ≡ text_left names self.old }
    {
        match self {
            TextLeft::Graph(left) => TextLeft::Graph(left.cut(lines)),
            TextLeft::Live(left) => TextLeft::Live(left.cut(lines)),
        }
    }

    /// Puts text on the page until a piece stands there or nothing is left.
    pub fn fill(&mut self, names: &FileNames<'a>, page: &mut Page)
        requires room { length page.old ≤ PAGE_ROOM }
        ensures { Fills page.old (text_left (seed_name names.now) self.old) page.new
            (text_left (seed_name names.now) self.new) }
    {
        match self {
            TextLeft::Graph(left) => left.fill(names, page),
            TextLeft::Live(left) => left.fill(names, page),
        }
    }
}
