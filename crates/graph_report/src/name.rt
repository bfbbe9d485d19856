//! How a name becomes one field of its line.

ghost use Rattle.std.specs.Prelude.{◌≡◌, ◌≤◌, ◌<◌, ◌+◌, ◌==◌, ◌&&◌, not, ◌++◌, take, length};
ghost use Rattle.std.specs.Prelude.{Option};
ghost use Rattle.std.specs.List.{flat_map};
ghost use Rattle.std.specs.Option.{option_map};
ghost use Rattle.graph_report.specs.Name.{is_visible, escaped_byte, name_byte, name_field};
ghost use Rattle.graph_report.specs.Inner.{IsLine};

use crate::field::hex_digit;
use crate::page::{LINE_ROOM, PAGE_ROOM, Page};

/// Begins the field of a name, which is a dash if there is none, and answers the bytes of the name
/// that are still to come. A name's bytes outside of visible ASCII and its backslashes are escaped,
/// and so is the name that is one dash.
pub fn begin_name<'a>(page: &mut Page, name: Option<&'a [u8]>) -> &'a [u8]
    requires room { length page.old + 4 ≤ PAGE_ROOM }
    ensures text { page.new ++ flat_map name_byte result.now ≡ page.old ++ name_field
        (option_map (λ s. s.now) name.entry) }
    ensures least { length page.old ≤ length page.new }
    ensures most { length page.new ≤ length page.old + 4 }
{
    match name {
        None => {
            page.push(b"-");
            b""
        }
        Some(b"-") => {
            push_escaped(page, b'-');
            b""
        }
        Some(bytes) => bytes,
    }
}

/// Appends the front of a name, which is not empty, and answers the rest. The front is the longest
/// run of bytes that stand for themselves, as far as a line has room, or one byte that does not.
pub fn push_front<'a>(page: &mut Page, name: &'a [u8]) -> &'a [u8]
    requires some { 0 < length name.now }
    requires room { length page.old + LINE_ROOM ≤ PAGE_ROOM }
    ensures text { page.new ++ flat_map name_byte result.now ≡ page.old ++ flat_map name_byte
        name.now }
    ensures line { IsLine page.old page.new }
{
    let run = plain_run(name);
    if run == 0 {
        push_byte(page, name[0]);
        return &name[1..];
    }
    let (front, rest) = name.split_at(run);
    page.push(front);
    rest
}

/// How many bytes at the front of a name stand for themselves, as far as a line has room.
fn plain_run(name: &[u8]) -> usize
    ensures within { result ≤ length name.now }
    ensures line { result ≤ LINE_ROOM }
    ensures plain { flat_map name_byte (take result name.now) ≡ take result name.now }
{
    let end = name.len().min(LINE_ROOM);
    let mut run = 0;
    while run < end && is_plain(name[run]) {
        run += 1;
    }
    run
}

/// Whether a byte of a name stands for itself: a visible one that is no backslash.
#[inline]
fn is_plain(byte: u8) -> bool
    ensures { result ≡ (is_visible byte && not (byte == 92)) }
{
    matches!(byte, 0x21..=0x7e) && byte != b'\\'
}

/// Appends a byte of a name.
fn push_byte(page: &mut Page, byte: u8)
    requires room { length page.old + 4 ≤ PAGE_ROOM }
    ensures text { page.new ≡ page.old ++ name_byte byte }
    ensures least { length page.old < length page.new }
    ensures most { length page.new ≤ length page.old + 4 }
{
    match byte {
        b'\\' => page.push(b"\\\\"),
        _ if is_plain(byte) => page.push(&[byte]),
        _ => push_escaped(page, byte),
    }
}

/// Appends a byte as a backslash, an x and two hexadecimal digits.
fn push_escaped(page: &mut Page, byte: u8)
    requires room { length page.old + 4 ≤ PAGE_ROOM }
    ensures text { page.new ≡ page.old ++ escaped_byte byte }
    ensures four { length page.new ≡ length page.old + 4 }
{
    page.push(b"\\x");
    page.push(&[hex_digit(byte / 16), hex_digit(byte % 16)]);
}
