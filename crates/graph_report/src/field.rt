//! The fields of a line: words, addresses and counts.

ghost use Rattle.std.specs.Prelude.{◌≡◌, ◌≤◌, ◌<◌, ◌+◌, ◌/◌, ◌%◌, ◌++◌, length, take, codes, decimal};
ghost use Rattle.graph_report.specs.Number.{hex_digit, hex_digits, address_digits, mask_digits};
ghost use Rattle.graph_report.specs.Words.{status_word, end_word, edge_word};

use crate::page::{PAGE_ROOM, Page};
use cfg_model::{EdgeKind, EndKind};
use itoa::Buffer;

/// The word for whether a function may return.
pub fn status_word(returns: bool) -> &'static [u8]
    ensures word { result.now ≡ status_word returns }
    ensures short { length result.now ≤ 10 }
{
    if returns { b"may-return" } else { b"no-return" }
}

/// The word for what a block ends with, of 10 bytes at most.
pub fn end_word(kind: EndKind) -> &'static [u8]
    ensures word { result.now ≡ end_word kind }
    ensures short { length result.now ≤ 10 }
{
    match kind {
        EndKind::Fall => b"fall",
        EndKind::Branch => b"branch",
        EndKind::BranchOut => b"branch-out",
        EndKind::Jump => b"jump",
        EndKind::Call => b"call",
        EndKind::IndirectCall => b"icall",
        EndKind::Return => b"return",
        EndKind::Table => b"table",
        EndKind::TableCut => b"table-cut",
        EndKind::TableOpen => b"table-open",
        EndKind::Unknown => b"unknown",
        EndKind::Stop => b"stop",
    }
}

/// The last field of a line, with the space before it and the newline after it.
#[derive(Clone, Copy)]
pub struct LastField {
    /// Its bytes, and spaces after them.
    pub text: [u8; 12],
    /// How many bytes it has.
    pub len: usize,
}

/// The last field of a block's line, the word for what the block ends with.
#[inline(always)]
pub fn end_field(kind: EndKind) -> LastField
    ensures within { result.len ≤ 12 }
    ensures text { take result.len result.text ≡ codes " " ++ end_word kind ++ codes "\n" }
{
    let (text, len) = match kind {
        EndKind::Fall => (b" fall\n      ", 6),
        EndKind::Branch => (b" branch\n    ", 8),
        EndKind::BranchOut => (b" branch-out\n", 12),
        EndKind::Jump => (b" jump\n      ", 6),
        EndKind::Call => (b" call\n      ", 6),
        EndKind::IndirectCall => (b" icall\n     ", 7),
        EndKind::Return => (b" return\n    ", 8),
        EndKind::Table => (b" table\n     ", 7),
        EndKind::TableCut => (b" table-cut\n ", 11),
        EndKind::TableOpen => (b" table-open\n", 12),
        EndKind::Unknown => (b" unknown\n   ", 9),
        EndKind::Stop => (b" stop\n      ", 6),
    };
    LastField { text: *text, len }
}

/// The last field of an edge's line, the word for the kind of the edge.
#[inline(always)]
pub fn edge_field(kind: EdgeKind) -> LastField
    ensures within { result.len ≤ 9 }
    ensures text { take result.len result.text ≡ codes " " ++ edge_word kind ++ codes "\n" }
{
    let (text, len) = match kind {
        EdgeKind::Fall => (b" fall\n      ", 6),
        EdgeKind::Taken => (b" taken\n     ", 7),
        EdgeKind::Jump => (b" jump\n      ", 6),
        EdgeKind::Tail => (b" tail\n      ", 6),
        EdgeKind::Call => (b" call\n      ", 6),
        EdgeKind::After => (b" after\n     ", 7),
        EdgeKind::Table => (b" table\n     ", 7),
        EdgeKind::Landing => (b" landing\n   ", 9),
    };
    LastField { text: *text, len }
}

/// The hexadecimal digit of a number below 16, in lower case.
#[inline]
pub fn hex_digit(n: u8) -> u8
    requires { n < 16 }
    ensures { result ≡ hex_digit n }
{
    if n < 10 { b'0' + n } else { b'a' + (n - 10) }
}

/// The two hexadecimal digits of each byte, in lower case.
static BYTE_DIGITS: [[u8; 2]; 256] = [
    *b"00", *b"01", *b"02", *b"03", *b"04", *b"05", *b"06", *b"07", *b"08", *b"09", *b"0a", *b"0b",
    *b"0c", *b"0d", *b"0e", *b"0f", *b"10", *b"11", *b"12", *b"13", *b"14", *b"15", *b"16", *b"17",
    *b"18", *b"19", *b"1a", *b"1b", *b"1c", *b"1d", *b"1e", *b"1f", *b"20", *b"21", *b"22", *b"23",
    *b"24", *b"25", *b"26", *b"27", *b"28", *b"29", *b"2a", *b"2b", *b"2c", *b"2d", *b"2e", *b"2f",
    *b"30", *b"31", *b"32", *b"33", *b"34", *b"35", *b"36", *b"37", *b"38", *b"39", *b"3a", *b"3b",
    *b"3c", *b"3d", *b"3e", *b"3f", *b"40", *b"41", *b"42", *b"43", *b"44", *b"45", *b"46", *b"47",
    *b"48", *b"49", *b"4a", *b"4b", *b"4c", *b"4d", *b"4e", *b"4f", *b"50", *b"51", *b"52", *b"53",
    *b"54", *b"55", *b"56", *b"57", *b"58", *b"59", *b"5a", *b"5b", *b"5c", *b"5d", *b"5e", *b"5f",
    *b"60", *b"61", *b"62", *b"63", *b"64", *b"65", *b"66", *b"67", *b"68", *b"69", *b"6a", *b"6b",
    *b"6c", *b"6d", *b"6e", *b"6f", *b"70", *b"71", *b"72", *b"73", *b"74", *b"75", *b"76", *b"77",
    *b"78", *b"79", *b"7a", *b"7b", *b"7c", *b"7d", *b"7e", *b"7f", *b"80", *b"81", *b"82", *b"83",
    *b"84", *b"85", *b"86", *b"87", *b"88", *b"89", *b"8a", *b"8b", *b"8c", *b"8d", *b"8e", *b"8f",
    *b"90", *b"91", *b"92", *b"93", *b"94", *b"95", *b"96", *b"97", *b"98", *b"99", *b"9a", *b"9b",
    *b"9c", *b"9d", *b"9e", *b"9f", *b"a0", *b"a1", *b"a2", *b"a3", *b"a4", *b"a5", *b"a6", *b"a7",
    *b"a8", *b"a9", *b"aa", *b"ab", *b"ac", *b"ad", *b"ae", *b"af", *b"b0", *b"b1", *b"b2", *b"b3",
    *b"b4", *b"b5", *b"b6", *b"b7", *b"b8", *b"b9", *b"ba", *b"bb", *b"bc", *b"bd", *b"be", *b"bf",
    *b"c0", *b"c1", *b"c2", *b"c3", *b"c4", *b"c5", *b"c6", *b"c7", *b"c8", *b"c9", *b"ca", *b"cb",
    *b"cc", *b"cd", *b"ce", *b"cf", *b"d0", *b"d1", *b"d2", *b"d3", *b"d4", *b"d5", *b"d6", *b"d7",
    *b"d8", *b"d9", *b"da", *b"db", *b"dc", *b"dd", *b"de", *b"df", *b"e0", *b"e1", *b"e2", *b"e3",
    *b"e4", *b"e5", *b"e6", *b"e7", *b"e8", *b"e9", *b"ea", *b"eb", *b"ec", *b"ed", *b"ee", *b"ef",
    *b"f0", *b"f1", *b"f2", *b"f3", *b"f4", *b"f5", *b"f6", *b"f7", *b"f8", *b"f9", *b"fa", *b"fb",
    *b"fc", *b"fd", *b"fe", *b"ff",
];

/// The two hexadecimal digits of a byte, the higher first.
#[inline(always)]
fn byte_digits(byte: u8) -> [u8; 2]
    ensures { result ≡ hex_digits 2 byte }
{
    let [high, low] = &BYTE_DIGITS[byte as usize];
    [*high, *low]
}

/// The two hexadecimal digits of each of two bytes. They are copied by twos, and not each alone.
#[inline(always)]
fn two_bytes_digits(one: u8, other: u8) -> [u8; 4]
    ensures { result ≡ hex_digits 2 one ++ hex_digits 2 other }
{
    let mut digits = *b"0000";
    digits[..2].copy_from_slice(&byte_digits(one));
    digits[2..].copy_from_slice(&byte_digits(other));
    digits
}

/// The eight hexadecimal digits of half an address or of a mask of registers, the highest first.
#[inline(always)]
fn half_digits(half: u32) -> [u8; 8]
    ensures { result ≡ hex_digits 8 half }
{
    let [a, b, c, d] = half.to_be_bytes();
    let mut digits = *b"00000000";
    digits[..4].copy_from_slice(&two_bytes_digits(a, b));
    digits[4..].copy_from_slice(&two_bytes_digits(c, d));
    digits
}

/// An address as sixteen hexadecimal digits, the highest first. Most addresses lie below 2^32, and
/// for those the first eight digits are not looked up.
#[inline]
pub fn address_digits(address: u64) -> [u8; 16]
    ensures { result ≡ address_digits address }
{
    let high = (address >> 32) as u32;
    let low = (address & 0xffff_ffff) as u32;
    let mut digits = *b"0000000000000000";
    if high > 0 {
        digits[..8].copy_from_slice(&half_digits(high));
    }
    digits[8..].copy_from_slice(&half_digits(low));
    digits
}

/// A space and an address, and the same of another: two fields of a line.
#[inline(always)]
pub fn two_addresses(one: u64, other: u64) -> [u8; 34]
    ensures { result ≡ codes " " ++ address_digits one ++ codes " " ++ address_digits other }
{
    let mut fields = *b" 0000000000000000 0000000000000000";
    fields[1..17].copy_from_slice(&address_digits(one));
    fields[18..].copy_from_slice(&address_digits(other));
    fields
}

/// A space and an address, and a space and a mask of registers: two fields of a line.
#[inline(always)]
pub fn address_and_mask(address: u64, mask: u32) -> [u8; 26]
    ensures { result ≡ codes " " ++ address_digits address ++ codes " " ++ mask_digits mask }
{
    let mut fields = *b" 0000000000000000 00000000";
    fields[1..17].copy_from_slice(&address_digits(address));
    fields[18..].copy_from_slice(&half_digits(mask));
    fields
}

/// Appends a space and an address: 17 bytes.
pub fn push_address(page: &mut Page, address: u64)
    requires room { length page.old + 17 ≤ PAGE_ROOM }
    ensures text { page.new ≡ page.old ++ (codes " " ++ address_digits address) }
    ensures most { length page.new ≡ length page.old + 17 }
{
    let mut field = *b" 0000000000000000";
    field[1..].copy_from_slice(&address_digits(address));
    page.push(&field);
}

/// Appends a space and a word.
pub fn push_field(page: &mut Page, word: &[u8])
    requires room { length page.old + 1 + length word.now ≤ PAGE_ROOM }
    ensures text { page.new ≡ page.old ++ (codes " " ++ word.now) }
    ensures most { length page.new ≡ length page.old + 1 + length word.now }
{
    page.push(b" ");
    page.push(word);
}

/// Appends a space and a count in decimal: 21 bytes at most.
pub fn push_number(page: &mut Page, count: usize)
    requires room { length page.old + 21 ≤ PAGE_ROOM }
    ensures text { page.new ≡ page.old ++ (codes " " ++ decimal count) }
    ensures most { length page.new ≤ length page.old + 21 }
{
    let mut buffer = Buffer::new();
    push_field(page, buffer.format(count).as_bytes());
}

/// Appends a space, a count in decimal, and the end of the line: 22 bytes at most.
pub fn push_count(page: &mut Page, count: usize)
    requires room { length page.old + 22 ≤ PAGE_ROOM }
    ensures text { page.new ≡ page.old ++ (codes " " ++ decimal count ++ codes "\n") }
    ensures most { length page.new ≤ length page.old + 22 }
{
    push_number(page, count);
    page.push(b"\n");
}
