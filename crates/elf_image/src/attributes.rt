//! The text of the architecture in the attributes of a file (RISC-V ELF psABI, "Attributes").

ghost use Rattle.std.specs.Prelude.{◌≡◌, ℕ, ◌+◌, ◌-◌, ◌<◌, ◌≤◌, ◌^◌, ◌%◌, ◌==◌, List, length, false};
ghost use Rattle.std.specs.Prelude.{position, nat_lt, take, drop, None, IfSome};
ghost use Rattle.std.specs.List.{list_all, find};
ghost use Rattle.std.specs.Option.{option_map, option_copied};
ghost use Rattle.elf_image.specs.Sections.{sections};
ghost use Rattle.elf_image.specs.Symbols.{section_bytes};
ghost use Rattle.elf_image.specs.Faults.{has_fault};
ghost use Rattle.elf_image.specs.FaultTests.{is_out_of_file};
ghost use Rattle.elf_image.specs.Attributes as spec;
ghost use Rattle.elf_image.specs.Inner.Attributes.{number_of, record_of, reader};

use crate::fault::Fault;
use crate::number::u32_at;
use crate::section::Section;

/// The tag of the part that is about the whole file.
const TAG_FILE: u8 = 1;

/// `Tag_RISCV_arch`.
const TAG_ARCH: u8 = 5;

/// A number at the front of some bytes, which may have any size.
#[derive(Clone, Copy)]
struct Number {
    /// Its low seven bits.
    low: u8,
    /// Whether it is below 128.
    is_small: bool,
    /// How many bytes it takes.
    size: usize,
}

/// A record at the front of some bytes.
#[derive(Clone, Copy)]
struct Record<'a> {
    /// Whether it is the one that is looked for.
    is_wanted: bool,
    /// What stands in it.
    body: &'a [u8],
    /// The bytes after it.
    rest: &'a [u8],
}

/// The kinds of records. Each stands in the one before.
#[derive(Clone, Copy)]
enum Kind {
    Subsection,
    Part,
    Attribute,
}

/// The place of the last byte of a ULEB128.
fn last_of_number(bytes: &[u8]) -> Option<usize>
    ensures { result ≡ position (λ b. nat_lt b 128) bytes.now }
{
    bytes.iter().position(|b| *b < 128)
}

/// Whether all bytes after the first of a ULEB128 have no bit of the number.
fn adds_nothing(bytes: &[u8]) -> bool
    ensures { result ≡ list_all (λ b. b % 128 == 0) bytes.now }
{
    bytes.iter().all(|b| *b % 128 == 0)
}

/// The number that a ULEB128 at the front gives.
fn uleb128(bytes: &[u8]) -> Option<Number>
    ensures number { result ≡ option_map number_of (spec.uleb128 bytes.now) }
    ensures within { IfSome result (λ n. n.size ≤ length bytes.now) }
    ensures some { IfSome result (λ n. 0 < n.size) }
{
    let last = last_of_number(bytes)?;
    Some(Number {
        low: bytes[0] % 128,
        is_small: adds_nothing(&bytes[1..=last]),
        size: last + 1,
    })
}

/// The place of the first zero byte.
fn first_zero(bytes: &[u8]) -> Option<usize>
    ensures { result ≡ position (λ b. b == 0) bytes.now }
{
    bytes.iter().position(|b| *b == 0)
}

/// A text up to a zero byte, and what follows that.
fn zero_ended(bytes: &[u8]) -> Option<(&[u8], &[u8])>
    ensures parts { option_map (λ t. (t.0.now, t.1.now)) result ≡ spec.zero_ended bytes.now }
    ensures shorter { IfSome result (λ t. length t.1.now < length bytes.now) }
{
    let end = first_zero(bytes)?;
    Some((&bytes[..end], &bytes[end + 1..]))
}

/// A subsection.
fn subsection(bytes: &[u8]) -> Option<Record<'_>>
    ensures value { option_map record_of result ≡ spec.subsection bytes.now }
    ensures shorter { IfSome result (λ r. length r.rest.now < length bytes.now) }
{
    if bytes.len() < 4 {
        return None;
    }
    let size = u32_at(bytes, 0) as usize;
    if size < 4 || size > bytes.len() {
        return None;
    }
    let (vendor, parts) = zero_ended(&bytes[4..size])?;
    Some(Record {
        is_wanted: vendor == b"riscv".as_slice(),
        body: parts,
        rest: &bytes[size..],
    })
}

/// A part of a subsection.
fn part(bytes: &[u8]) -> Option<Record<'_>>
    ensures value { option_map record_of result ≡ spec.part bytes.now }
    ensures shorter { IfSome result (λ r. length r.rest.now < length bytes.now) }
{
    let tag = uleb128(bytes)?;
    if bytes.len() - tag.size < 4 {
        return None;
    }
    let head = tag.size + 4;
    let size = u32_at(bytes, tag.size) as usize;
    if size < head || size > bytes.len() {
        return None;
    }
    Some(Record {
        is_wanted: tag.is_small && tag.low == TAG_FILE,
        body: &bytes[head..size],
        rest: &bytes[size..],
    })
}

/// An attribute.
fn attribute(bytes: &[u8]) -> Option<Record<'_>>
    ensures value { option_map record_of result ≡ spec.attribute bytes.now }
    ensures shorter { IfSome result (λ r. length r.rest.now < length bytes.now) }
{
    let tag = uleb128(bytes)?;
    let after = &bytes[tag.size..];
    if tag.low % 2 == 0 {
        let number = uleb128(after)?;
        return Some(Record {
            is_wanted: false,
            body: &after[..0],
            rest: &after[number.size..],
        });
    }
    let (text, rest) = zero_ended(after)?;
    Some(Record {
        is_wanted: tag.is_small && tag.low == TAG_ARCH,
        body: text,
        rest,
    })
}

/// A record of a kind.
fn read(kind: Kind, bytes: &[u8]) -> Option<Record<'_>>
    ensures value { option_map record_of result ≡ reader kind bytes.now }
    ensures shorter { IfSome result (λ r. length r.rest.now < length bytes.now) }
{
    match kind {
        Kind::Subsection => subsection(bytes),
        Kind::Part => part(bytes),
        Kind::Attribute => attribute(bytes),
    }
}

/// What stands in the first record of a kind that is looked for.
fn wanted(kind: Kind, bytes: &[u8]) -> Option<&[u8]>
    ensures { option_map (λ b. b.now) result ≡ spec.wanted (reader kind) bytes.now }
{
    let mut rest = bytes;
    while let Some(r) = read(kind, rest) {
        if r.is_wanted {
            return Some(r.body);
        }
        rest = r.rest;
    }
    None
}

/// The text in an attributes section.
fn text_in(section: &[u8]) -> Option<&[u8]>
    ensures { option_map (λ b. b.now) result ≡ spec.text_in section.now }
{
    let (version, bytes) = section.split_first()?;
    if *version != b'A' {
        return None;
    }
    let parts = wanted(Kind::Subsection, bytes)?;
    let attributes = wanted(Kind::Part, parts)?;
    wanted(Kind::Attribute, attributes)
}

/// The bytes of a section, which lies in the file.
fn section_bytes<'a>(bytes: &'a [u8], s: &Section) -> &'a [u8]
    requires { s.now.offset + s.now.size ≤ length bytes.now }
    ensures { result.now ≡ section_bytes bytes.now s.now }
{
    let at = s.offset as usize;
    &bytes[at..at + s.size as usize]
}

/// The first section of attributes.
fn attributes_section(headers: &[Section]) -> Option<&Section>
    ensures { option_copied result ≡ find spec.is_attributes headers.now }
{
    headers.iter().find(|s| s.is_attributes())
}

/// The text of the architecture. `headers` are all of the file.
/// Time: O(n) in the sections and the bytes of the first of attributes. Memory: none.
#[tactic(auto, unfolding(crate::specs::Attributes::architecture))]
pub(crate) fn architecture<'a>(bytes: &'a [u8], headers: &[Section]) -> Option<&'a [u8]>
    requires headers { headers.now ≡ sections bytes.now }
    requires in_file { has_fault bytes.now Fault.SectionRange ≡ false }
    ensures { option_map (λ b. b.now) result ≡ spec.architecture bytes.now }
{
    let s = attributes_section(headers)?;
    text_in(section_bytes(bytes, s))
}
