//! The text of a report, given out piece by piece.

ghost use Rattle.std.specs.Prelude.{⊤, ◌≡◌, ◌≢◌, ◌≤◌, ◌<◌, ◌+◌, [], ◌++◌};
ghost use Rattle.std.specs.Prelude.{drop, length, IfOk};
ghost use Rattle.std.specs.Option.{option_map};
ghost use Rattle.std.specs.Borrow.{sem};
ghost use mir.Syntax.{named};
ghost use Rattle.elf_image.specs.Seeds.{seed_name};
ghost use Rattle.graph_report.specs.Inner.{heading_left, text_left};

use crate::Memory;
use crate::file_names::FileNames;
use crate::heading::Heading;
use crate::kind::ReportKind;
use crate::line::{push_entry, push_first};
use crate::lines::ReportLines;
use crate::live_left::TextLeft;
use crate::page::{PAGE_ROOM, PIECE, Page};
use cfg_model::{AllLives, Graph};
use std::alloc::Global;
use std::marker::Model;

/// The text of a report of a graph or of its live registers, in pieces of 4,096 bytes but for a
/// shorter last one.
///
/// It keeps its place in the lists of the graph and one page of text, whose memory it takes when it
/// is made, and no more: never the whole text. Contracts see it as the bytes that are still to
/// come.
#[derive(Drop)]
pub struct ReportPieces<'a> {
    names: FileNames<'a>,
    left: TextLeft<'a>,
    page: Page,
    /// How many bytes at the front of the page were given out.
    given: usize,
}

impl<'a> Model for ReportPieces<'a> {
    ghost use Rattle.std.specs.Prelude.{ℕ, ◌≤◌, List, ◌++◌, length, drop};
    ghost use Rattle.elf_image.specs.Seeds.{seed_name};

    ghost Value = { List ℕ };

    ghost use Rattle.graph_report.specs.declared.page.TheConstants.{PAGE_ROOM};
    ghost use Rattle.graph_report.specs.Inner.{text_left};

    ghost view = { λ p. drop p.given p.page ++ text_left (seed_name p.names) p.left };

    ghost invariant = { λ p. (p.given ≤ length p.page) × (length p.page ≤ PAGE_ROOM) };
}

impl<'a> ReportPieces<'a> {
    ghost use Rattle.graph_report.specs.contracts.pieces.ReportPieces.{the_row};
    ghost use Rattle.graph_report.specs.Live.{AreForAll, live_text};
    ghost use Rattle.graph_report.specs.Report.{report_text};
    ghost use Rattle.graph_report.specs.Pieces.{GivesPiece};
    ghost use mathlib.Core.Option.{none};
    ghost use denote.Follow.{follows_so};

    /// The text of a report of `graph`, with nothing given out yet, or want of memory.
    ///
    /// It has the parts that `kind` names, with functions, blocks and edges in the order of their
    /// lists. A function has the name that its file gives it. Live registers are no part of a
    /// graph: for those take [`ReportPieces::of_lives`].
    pub fn new(
        alloc: Global,
        names: &FileNames<'a>,
        graph: &'a Graph,
        kind: ReportKind,
    ) -> Result<ReportPieces<'a>, Memory>
        requires kind { kind ≢ ReportKind.Live }
        ensures text { IfOk result
            (λ pieces. pieces ≡ report_text kind (seed_name names.now) graph.now) }
    {
        ReportPieces::of_lines(alloc, &ReportLines::new(names, graph, kind))
    }

    /// The text of the report of the live registers `lives` of `graph`, of which nothing is given out
    /// yet, or want of memory.
    ///
    /// `lives` has the blocks of each function's body in order. A function has the name that its
    /// file gives it.
    pub fn of_lives(
        alloc: Global,
        names: &FileNames<'a>,
        graph: &'a Graph,
        lives: &'a AllLives,
    ) -> Result<ReportPieces<'a>, Memory>
        requires lives { AreForAll graph.now.functions lives.now }
        ensures text { IfOk result
            (λ pieces. pieces ≡ live_text (seed_name names.now) graph.now lives.now) }
    {
        ReportPieces::of_lines(alloc, &ReportLines::of_lives(names, graph, lives))
    }

    /// The text of these lines, of which nothing is given out yet, or want of memory.
    pub fn of_lines(alloc: Global, lines: &ReportLines<'a>) -> Result<ReportPieces<'a>, Memory>
        ensures text { IfOk result (λ pieces. pieces ≡ lines.now) }
    {
        Ok(ReportPieces {
            names: lines.names.again(),
            left: lines.left,
            page: first_page(alloc, lines.heading)?,
            given: 0,
        })
    }

    /// Gives the text of these lines from now on, on the page that it has. What it had still to give
    /// is dropped. Memory: none.
    pub fn begin(&mut self, lines: &ReportLines<'a>)
        ensures text { self.new ≡ lines.now }
    {
        self.names = lines.names.again();
        self.left = lines.left;
        self.given = 0;
        self.page.drop_front(self.page.len());
        push_heading(&mut self.page, lines.heading);
    }

    /// The next piece; `None` exactly if all was given out.
    /// Time: O(p + f log s) for p bytes, f functions in them and s seeds. Memory: none.
    pub fn next_piece(&mut self) -> Option<&[u8]>
        ensures* piece { sem 𝓛 (follows_so (the_row (record { mir = named 1; lft = [] }))
            (the_row (record { mir = named 1; lft = [] }))
            self.entry.ghost_name none
            (λ _ _. ⊤) (GivesPiece self.old (option_map (λ s. s.now) result))) }
    {
        self.page.drop_front(self.given);
        self.left.fill(&self.names, &mut self.page);
        let n = self.page.len().min(PIECE);
        self.given = n;
        if n == 0 {
            return None;
        }
        Some(&self.page.bytes()[..n])
    }
}

/// A page with the heading, if there is one.
fn first_page(alloc: Global, heading: Option<Heading>) -> Result<Page, Memory>
    ensures text { IfOk result (λ page. page ≡ heading_left heading) }
    ensures room { IfOk result (λ page. length page ≤ PAGE_ROOM) }
{
    let mut page = Page::new(alloc)?;
    push_heading(&mut page, heading);
    Ok(page)
}

/// Puts the two lines that every report begins with on a page that is empty, if they are to be given.
fn push_heading(page: &mut Page, heading: Option<Heading>)
    requires empty { page.old ≡ [] }
    ensures text { page.new ≡ heading_left heading }
    ensures room { length page.new ≤ PAGE_ROOM }
{
    if let Some(heading) = heading {
        push_first(page, heading.lands);
        push_entry(page, heading.entry);
    }
}
