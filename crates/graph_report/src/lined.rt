//! Items that have a line each, and the loop that puts their lines on a page.

ghost use Rattle.std.specs.Prelude.{◌≡◌, ◌+◌, ◌<◌, ◌≤◌, ◌++◌, length};
ghost use Rattle.std.specs.List.{flat_map};
ghost use Rattle.graph_report.specs.Inner.{IsLine, Fills};

use crate::page::{LINE_ROOM, PAGE_ROOM, PIECE, Page};

/// An item that has a line of its own.
pub trait Lined {
    ghost use Rattle.std.specs.Prelude.{ℕ, List};

    /// The line of an item.
    ghost line: { Self → List ℕ };

    /// Appends the line of this item.
    fn push_line(&self, page: &mut Page)
        requires room { length page.old + LINE_ROOM ≤ PAGE_ROOM }
        ensures text { page.new ≡ page.old ++ line self.now }
        ensures line { IsLine page.old page.new };
}

/// Puts the lines of these items on the page, until a piece stands there or no item is left, and
/// answers the items whose lines are still to come.
pub fn push_lines<'a, T: Lined>(items: &'a [T], page: &mut Page) -> &'a [T]
    requires room { length page.old ≤ PAGE_ROOM }
    ensures fills { Fills page.old (flat_map T.line items.now) page.new
        (flat_map T.line result.now) }
    ensures grows { 0 < length items.now → length page.old < PIECE
        → length page.old < length page.new }
{
    let mut at = 0;
    while at < items.len() && page.len() < PIECE {
        items[at].push_line(page);
        at += 1;
    }
    &items[at..]
}
