//! The page that text is made on.

ghost use Rattle.std.specs.Prelude.{◌≡◌, ◌≤◌, ◌+◌, [], ◌++◌, length, take, drop, IfOk};

use crate::Memory;
use std::alloc::Global;
use std::marker::Model;

/// How many bytes a piece of a report has, but for the last one.
pub const PIECE: usize = 4096;

/// How many bytes are put on a page at once at most: a line, the part of a function's line before
/// its name, or a part of the name.
pub const LINE_ROOM: usize = 64;

/// How many bytes a page has room for: a piece, and a line more.
pub const PAGE_ROOM: usize = 4160;

/// Text that is made and not yet given away, in room that is taken once.
#[derive(Drop)]
pub struct Page {
    /// All the room, of which the text takes the front.
    bytes: Vec<u8>,
    /// How many bytes the text has.
    len: usize,
}

impl Model for Page {
    ghost use Rattle.std.specs.Prelude.{ℕ, ◌≤◌, List, length, take};
    ghost use Rattle.graph_report.specs.declared.page.TheConstants.{PAGE_ROOM};

    ghost Value = { List ℕ };

    ghost view = { λ p. take p.len p.bytes.items };

    ghost invariant = { λ p. (PAGE_ROOM ≤ length p.bytes.items) × (p.len ≤ length p.bytes.items) };
}

impl Page {
    /// An empty page, whose room is taken now.
    pub fn new(alloc: Global) -> Result<Self, Memory>
        ensures { IfOk result (λ page. page ≡ []) }
    {
        let bytes = vec![in alloc; 0; PAGE_ROOM]?;
        Ok(Page { bytes, len: 0 })
    }

    /// How many bytes are on it.
    pub fn len(&self) -> usize
        ensures { result ≡ length self.now }
    {
        self.len
    }

    /// The bytes on it.
    pub fn bytes(&self) -> &[u8]
        ensures { result.now ≡ self.now }
    {
        &self.bytes[..self.len]
    }

    /// The bytes on it, without the page.
    pub fn into_bytes(self) -> Vec<u8>
        ensures { result.items ≡ self }
    {
        let Page { mut bytes, len } = self;
        bytes.truncate(len);
        bytes
    }

    /// Appends a text.
    pub fn push(&mut self, text: &[u8])
        requires { length self.old + length text.now ≤ PAGE_ROOM }
        ensures { self.new ≡ self.old ++ text.now }
    {
        self.push_front(text, text.len());
    }

    /// Appends the first `n` bytes of a text. The page has room for all of it, so that a text of
    /// fixed length is copied as a whole.
    #[inline(always)]
    pub fn push_front(&mut self, text: &[u8], n: usize)
        requires within { n ≤ length text.now }
        requires room { length self.old + length text.now ≤ PAGE_ROOM }
        ensures { self.new ≡ self.old ++ take n text.now }
    {
        let len = self.len;
        self.bytes[len..len + text.len()].copy_from_slice(text);
        self.len = len + n;
    }

    /// Takes the first `n` bytes away.
    pub fn drop_front(&mut self, n: usize)
        requires { n ≤ length self.old }
        ensures { self.new ≡ drop n self.old }
    {
        self.bytes.copy_within(n..self.len, 0);
        self.len -= n;
    }
}
