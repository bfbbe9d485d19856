//! What is left of a section that lists items, each with a line of its own.

ghost use Rattle.std.specs.Prelude.{◌≡◌, ◌+◌, ◌≤◌, [], ◌++◌, length};
ghost use Rattle.std.specs.Prelude.{IsTrue, if◌then◌else◌};
ghost use Rattle.std.specs.List.{flat_map};
ghost use Rattle.graph_report.specs.Inner.{Fills, IsLine, count_left, list_left};

use crate::lined::{Lined, push_lines};
use crate::page::{LINE_ROOM, PAGE_ROOM, PIECE, Page};

/// An item that a section lists, with a line of its own.
pub trait Listed: Lined {
    ghost use Rattle.std.specs.Prelude.{ℕ, List};

    /// The first line of the section, which tells how many items it has.
    ghost first: { ℕ → List ℕ };

    /// Appends the first line of the section.
    fn push_count(page: &mut Page, count: usize)
        requires room { length page.old + LINE_ROOM ≤ PAGE_ROOM }
        ensures text { page.new ≡ page.old ++ first count }
        ensures line { IsLine page.old page.new };
}

/// What is left of such a section.
#[derive(Clone, Copy)]
pub struct ListLeft<'a, T> {
    /// The number of its items, until its first line is given.
    count: Option<usize>,
    items: &'a [T],
}

impl<'a, T: Listed> ListLeft<'a, T> {
    /// The whole section, or nothing.
    pub fn new(shown: bool, items: &'a [T]) -> ListLeft<'a, T>
        ensures { list_left T.first T.line result
            ≡ (if shown then T.first (length items.now) ++ flat_map T.line items.now else []) }
    {
        if !shown {
            return ListLeft::nothing();
        }
        ListLeft {
            count: Some(items.len()),
            items,
        }
    }

    /// Nothing of it.
    pub fn nothing() -> ListLeft<'a, T>
        ensures { list_left T.first T.line result ≡ [] }
    {
        ListLeft {
            count: None,
            items: &[],
        }
    }

    /// Whether nothing is left.
    pub fn is_empty(&self) -> bool
        ensures { IsTrue result → list_left T.first T.line self.now ≡ [] }
    {
        self.count.is_none() && self.items.is_empty()
    }

    /// How many items are left.
    pub fn len(&self) -> usize {
        self.items.len()
    }

    /// Takes this many items off the front, or all, and the line before them.
    pub fn cut(&mut self, lines: usize) -> ListLeft<'a, T>
        ensures { list_left T.first T.line result ++ list_left T.first T.line self.new
            ≡ list_left T.first T.line self.old }
    {
        let (front, rest) = self.items.split_at(lines.min(self.items.len()));
        let cut = ListLeft {
            count: self.count,
            items: front,
        };
        *self = ListLeft {
            count: None,
            items: rest,
        };
        cut
    }

    /// Puts lines on the page until a piece stands there or none is left.
    pub fn fill(&mut self, page: &mut Page)
        requires room { length page.old ≤ PAGE_ROOM }
        ensures { Fills page.old (list_left T.first T.line self.old) page.new
            (list_left T.first T.line self.new) }
    {
        self.fill_count(page);
        self.items = push_lines(self.items, page);
    }

    /// Puts the first line on the page, unless it was given or a piece stands there.
    fn fill_count(&mut self, page: &mut Page)
        requires room { length page.old ≤ PAGE_ROOM }
        ensures fills { Fills page.old (count_left self.old.count T.first) page.new
            (count_left self.new.count T.first) }
        ensures items { self.new.items ≡ self.old.items }
    {
        if PIECE <= page.len() {
            return;
        }
        if let Some(count) = self.count {
            T::push_count(page, count);
            self.count = None;
        }
    }
}
