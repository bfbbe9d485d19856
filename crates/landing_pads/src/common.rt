//! Common records (LSB Core, "The Common Information Entry Format").

ghost use Rattle.std.specs.Prelude.{◌≡◌, ◌+◌, ◌==◌, ◌≤◌, length, IfSome};
ghost use Rattle.std.specs.List.{position};
ghost use Rattle.std.specs.Option.{option_map};
ghost use Rattle.landing_pads.specs.Common as spec;
ghost use Rattle.landing_pads.specs.Inner.{place_of, read_of};

use crate::cursor::Cursor;

/// What a common record says of the frame records that name it.
#[derive(Clone, Copy, Debug, PartialEq, Eq)]
pub(crate) struct Common {
    /// The encoding of pointers to code.
    pub(crate) code: u8,
    /// The encoding of pointers to exception tables; FF (hexadecimal) if there are none.
    pub(crate) table: u8,
}

/// `DW_EH_PE_omit`, and the high bits of `DW_EH_PE_aligned`.
pub(crate) const OMITTED: u8 = 0xFF;

const ALIGNED: u8 = 5;

/// What stands in the record that begins at `at` in a section.
#[tactic(auto, unfolding(crate::specs::Common::body_at))]
pub(crate) fn body_at(section: Cursor<'_>, at: usize) -> Option<Cursor<'_>>
    requires { at ≤ length section.bytes.now }
    ensures value { option_map place_of result ≡ spec.body_at (place_of section.entry) at }
    ensures within { IfSome result
        (λ b. at + 4 + length b.bytes.now ≤ length section.entry.bytes.now) }
{
    let (size, rest) = section.after(at).u32()?;
    rest.first(size)
}

/// The pointer to a personality routine, by its encoding, is passed over.
fn routine(encoding: u8, cursor: Cursor<'_>) -> Option<Cursor<'_>>
    ensures { option_map place_of result ≡ spec.routine encoding (place_of cursor.entry) }
{
    if encoding == OMITTED {
        return Some(cursor);
    }
    if encoding / 16 % 8 == ALIGNED {
        return None;
    }
    let (_, rest) = cursor.number(encoding)?;
    Some(rest)
}

/// The letter `P`.
fn personality(common: Common, cursor: Cursor<'_>) -> Option<(Common, Cursor<'_>)>
    ensures { read_of result ≡ spec.personality common (place_of cursor.entry) }
{
    let (encoding, rest) = cursor.byte()?;
    let rest = routine(encoding, rest)?;
    Some((common, rest))
}

/// The letter `R`.
fn code_encoding(common: Common, cursor: Cursor<'_>) -> Option<(Common, Cursor<'_>)>
    ensures { read_of result ≡ spec.code_encoding common (place_of cursor.entry) }
{
    let (code, rest) = cursor.byte()?;
    let table = common.table;
    Some((Common { code, table }, rest))
}

/// The letter `L`.
fn table_encoding(common: Common, cursor: Cursor<'_>) -> Option<(Common, Cursor<'_>)>
    ensures { read_of result ≡ spec.table_encoding common (place_of cursor.entry) }
{
    let (table, rest) = cursor.byte()?;
    let code = common.code;
    Some((Common { code, table }, rest))
}

/// What one letter of the augmentation says.
#[tactic(auto, unfolding(crate::specs::Common::letter))]
fn letter(letter: u8, common: Common, cursor: Cursor<'_>) -> Option<(Common, Cursor<'_>)>
    ensures { read_of result ≡ spec.letter letter common (place_of cursor.entry) }
{
    match letter {
        b'R' => code_encoding(common, cursor),
        b'L' => table_encoding(common, cursor),
        b'P' => personality(common, cursor),
        b'S' | b'B' | b'G' => Some((common, cursor)),
        _ => None,
    }
}

/// What all letters say, in turn.
fn letters(letters: &[u8], cursor: Cursor<'_>) -> Option<Common>
    ensures { result ≡ spec.letters letters.now spec.plain (place_of cursor.entry) }
{
    let mut common = Common {
        code: 0,
        table: OMITTED,
    };
    let mut rest = cursor;
    for l in letters {
        let (next, after) = letter(*l, common, rest)?;
        common = next;
        rest = after;
    }
    Some(common)
}

/// The place of the first zero byte.
fn first_zero(bytes: &[u8]) -> Option<usize>
    ensures { result ≡ position (λ b. b == 0) bytes.now }
{
    bytes.iter().position(|b| *b == 0)
}

/// The letters that follow a `z`.
fn letters_after_z(text: &[u8]) -> Option<&[u8]>
    ensures { option_map (λ t. t.now) result ≡ spec.letters_after_z text.entry.now }
{
    let (first, letters) = text.split_first()?;
    if *first == b'z' { Some(letters) } else { None }
}

/// The letters after the `z`, and what follows their zero byte.
#[tactic(auto, unfolding(crate::specs::Common::augmentation))]
fn augmentation(cursor: Cursor<'_>) -> Option<(&[u8], Cursor<'_>)>
    ensures { option_map (λ r. (r.0.now, place_of r.1)) result
        ≡ spec.augmentation (place_of cursor.entry) }
{
    let end = first_zero(cursor.bytes)?;
    let letters = letters_after_z(&cursor.bytes[..end])?;
    Some((letters, cursor.after(end + 1)))
}

/// The register of the return address is passed over.
fn register(version: u8, cursor: Cursor<'_>) -> Option<Cursor<'_>>
    ensures { option_map place_of result ≡ spec.register version (place_of cursor.entry) }
{
    if version == 1 {
        let (_, rest) = cursor.byte()?;
        return Some(rest);
    }
    let (_, rest) = cursor.uleb128()?;
    Some(rest)
}

/// What stands between the letters and their bytes is passed over.
#[tactic(auto, unfolding(crate::specs::Common::factors))]
fn factors(version: u8, cursor: Cursor<'_>) -> Option<Cursor<'_>>
    ensures { option_map place_of result ≡ spec.factors version (place_of cursor.entry) }
{
    let (_, rest) = cursor.uleb128()?;
    let (_, rest) = rest.sleb128()?;
    let rest = register(version, rest)?;
    let (_, rest) = rest.uleb128()?;
    Some(rest)
}

/// The common record whose version stands at a cursor.
#[tactic(auto, unfolding(crate::specs::Common::common_from))]
fn common_from(cursor: Cursor<'_>) -> Option<Common>
    ensures { result ≡ spec.common_from (place_of cursor.entry) }
{
    let (version, rest) = cursor.byte()?;
    if version != 1 && version != 3 {
        return None;
    }
    let (text, rest) = augmentation(rest)?;
    let rest = factors(version, rest)?;
    letters(text, rest)
}

/// The common record that begins at `at` in a section.
/// Time: O(n) in its bytes.
#[tactic(auto, unfolding(crate::specs::Common::common_at))]
pub(crate) fn common_at(section: Cursor<'_>, at: usize) -> Option<Common>
    requires { at ≤ length section.bytes.now }
    ensures { result ≡ spec.common_at (place_of section.entry) at }
{
    let body = body_at(section, at)?;
    let (link, rest) = body.u32()?;
    if link != 0 {
        return None;
    }
    common_from(rest)
}
