//! Each line form, put on a page that has room for a line.

ghost use Rattle.std.specs.Prelude.{◌≡◌, ◌≤◌, ◌+◌, ◌++◌, Some, length};
ghost use Rattle.std.specs.Option.{option_map};
ghost use Rattle.graph_report.specs.Line.{first_line, entry_line, functions_line, function_line};
ghost use Rattle.graph_report.specs.Line.{in_line, blocks_line, block_line, edges_line, edge_line};
ghost use Rattle.graph_report.specs.Line.{lives_line, live_line};
ghost use Rattle.graph_report.specs.Line.{made_line, may_return_line, no_return_line, end_line};
ghost use Rattle.graph_report.specs.Inner.{IsLine, name_left};

use crate::field::{
    address_and_mask, address_digits, edge_field, end_field, push_address, push_count, push_field,
    push_number, status_word, two_addresses,
};
use crate::lined::Lined;
use crate::list_left::Listed;
use crate::name::{begin_name, push_front};
use crate::page::{LINE_ROOM, PAGE_ROOM, Page};
use cfg_model::{Block, Edge, Function, Live};

/// Appends the line that says what the text is; `lands` says whether it has an edge to a landing
/// pad.
pub fn push_first(page: &mut Page, lands: bool)
    requires room { length page.old + LINE_ROOM ≤ PAGE_ROOM }
    ensures text { page.new ≡ page.old ++ first_line lands }
    ensures line { IsLine page.old page.new }
{
    if lands {
        page.push(b"cfg-report 3\n");
    } else {
        page.push(b"cfg-report 2\n");
    }
}

/// Appends the line of the address where the program starts.
pub fn push_entry(page: &mut Page, entry: u64)
    requires room { length page.old + LINE_ROOM ≤ PAGE_ROOM }
    ensures text { page.new ≡ page.old ++ entry_line entry }
    ensures line { IsLine page.old page.new }
{
    page.push(b"entry");
    push_address(page, entry);
    page.push(b"\n");
}

/// Appends the line that says how many functions follow.
pub fn push_function_count(page: &mut Page, count: usize)
    requires room { length page.old + LINE_ROOM ≤ PAGE_ROOM }
    ensures text { page.new ≡ page.old ++ functions_line count }
    ensures line { IsLine page.old page.new }
{
    page.push(b"functions");
    push_count(page, count);
}

/// Appends the front of the line of a function with this name, and answers the bytes of the name
/// that its rest is still to show.
pub fn begin_function<'a>(page: &mut Page, function: &Function, name: Option<&'a [u8]>) -> &'a [u8]
    requires room { length page.old + LINE_ROOM ≤ PAGE_ROOM }
    ensures text { page.new ++ name_left (Some result.now) ≡ page.old ++ function_line
        (λ a. option_map (λ s. s.now) name.entry) function.now }
    ensures line { IsLine page.old page.new }
{
    page.push(b"function");
    push_address(page, function.entry);
    push_field(page, status_word(function.returns));
    push_number(page, function.body.as_slice().len());
    page.push(b" ");
    begin_name(page, name)
}

/// Appends the next bytes of a function's name, or the end of its line if no byte is left, and
/// answers what its rest is still to show.
pub fn go_on_with_name<'a>(page: &mut Page, name: &'a [u8]) -> Option<&'a [u8]>
    requires room { length page.old + LINE_ROOM ≤ PAGE_ROOM }
    ensures moves { page.new ++ name_left (option_map (λ s. s.now) result) ≡ page.old ++ name_left
        (Some name.now) }
    ensures line { IsLine page.old page.new }
{
    if name.is_empty() {
        page.push(b"\n");
        return None;
    }
    Some(push_front(page, name))
}

/// The start of a block of the function above.
impl Lined for u64 {
    ghost line = { in_line };

    fn push_line(&self, page: &mut Page) {
        let mut line = *b"in 0000000000000000\n";
        line[3..19].copy_from_slice(&address_digits(*self));
        page.push(&line);
    }
}

impl Listed for Block {
    ghost first = { blocks_line };

    fn push_count(page: &mut Page, count: usize) {
        page.push(b"blocks");
        push_count(page, count);
    }
}

impl Lined for Block {
    ghost line = { block_line };

    fn push_line(&self, page: &mut Page) {
        let last = end_field(self.kind);
        let mut line = *b"block 0000000000000000 0000000000000000            ";
        line[5..39].copy_from_slice(&two_addresses(self.start, self.end));
        line[39..].copy_from_slice(&last.text);
        page.push_front(&line, 39 + last.len);
    }
}

impl Listed for Edge {
    ghost first = { edges_line };

    fn push_count(page: &mut Page, count: usize) {
        page.push(b"edges");
        push_count(page, count);
    }
}

impl Lined for Edge {
    ghost line = { edge_line };

    fn push_line(&self, page: &mut Page) {
        let last = edge_field(self.kind);
        let mut line = *b"edge 0000000000000000 0000000000000000            ";
        line[4..38].copy_from_slice(&two_addresses(self.from, self.to));
        line[38..].copy_from_slice(&last.text);
        page.push_front(&line, 38 + last.len);
    }
}

/// Appends the line that says how many functions follow, each with its live registers.
pub fn push_live_count(page: &mut Page, count: usize)
    requires room { length page.old + LINE_ROOM ≤ PAGE_ROOM }
    ensures text { page.new ≡ page.old ++ lives_line count }
    ensures line { IsLine page.old page.new }
{
    page.push(b"lives");
    push_count(page, count);
}

/// A block of the function above, with the registers that are live there.
impl Lined for Live {
    ghost line = { live_line };

    fn push_line(&self, page: &mut Page) {
        let mut line = *b"live 0000000000000000 00000000\n";
        line[4..30].copy_from_slice(&address_and_mask(self.block, self.mask));
        page.push(&line);
    }
}

/// Appends the first line of the summary of the program that is made from `n`.
pub fn push_made(page: &mut Page, n: u32)
    requires room { length page.old + LINE_ROOM ≤ PAGE_ROOM }
    ensures text { page.new ≡ page.old ++ made_line n }
    ensures line { IsLine page.old page.new }
{
    page.push(b"cfg-made");
    push_count(page, n as usize);
}

/// Appends the line that says how many functions may return.
pub fn push_may_return_count(page: &mut Page, count: usize)
    requires room { length page.old + LINE_ROOM ≤ PAGE_ROOM }
    ensures text { page.new ≡ page.old ++ may_return_line count }
    ensures line { IsLine page.old page.new }
{
    page.push(b"may-return");
    push_count(page, count);
}

/// Appends the line that says how many functions may not.
pub fn push_no_return_count(page: &mut Page, count: usize)
    requires room { length page.old + LINE_ROOM ≤ PAGE_ROOM }
    ensures text { page.new ≡ page.old ++ no_return_line count }
    ensures line { IsLine page.old page.new }
{
    page.push(b"no-return");
    push_count(page, count);
}

/// Appends the last line.
pub fn push_end(page: &mut Page)
    requires room { length page.old + LINE_ROOM ≤ PAGE_ROOM }
    ensures text { page.new ≡ page.old ++ end_line }
    ensures line { IsLine page.old page.new }
{
    page.push(b"end\n");
}
