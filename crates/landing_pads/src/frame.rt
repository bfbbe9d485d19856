//! Frame records (LSB Core, "The Frame Description Entry Format").

ghost use Rattle.std.specs.Prelude.{◌≡◌, ◌+◌, ◌≤◌, length, IfOk, OnOk};
ghost use Rattle.std.specs.Option.{option_map};
ghost use Rattle.landing_pads.specs.Common as common_spec;
ghost use Rattle.landing_pads.specs.Frame as spec;
ghost use Rattle.landing_pads.specs.Inner.{place_of, AreRead};

use crate::common::{Common, OMITTED, common_at};
use crate::cursor::Cursor;
use std::alloc::AllocError;
use std::collections::BTreeMap;

/// What a frame record says.
#[derive(Clone, Copy, Debug, PartialEq, Eq)]
pub(crate) struct Frame {
    /// The address where its code begins.
    pub(crate) start: u64,
    /// The address of its exception table; 0 if it has none.
    pub(crate) table: u64,
}

/// The common records of a section that were read, by their places: many frame records may name one.
pub(crate) type CommonMap = BTreeMap<usize, Option<Common>>;

/// The address of the exception table; 0 if there is none.
fn table_pointer(encoding: u8, cursor: Cursor<'_>) -> Option<u64>
    ensures { result ≡ spec.table_pointer encoding (place_of cursor.entry) }
{
    if encoding == OMITTED {
        return Some(0);
    }
    let (table, _) = cursor.pointer(encoding)?;
    Some(table)
}

/// The frame after a link.
#[tactic(auto, unfolding(crate::specs::Frame::frame_from))]
fn frame_from(common: Common, cursor: Cursor<'_>) -> Option<Frame>
    ensures { result ≡ spec.frame_from common (place_of cursor.entry) }
{
    let (start, rest) = cursor.pointer(common.code)?;
    let (_, rest) = rest.number(common.code)?;
    let (_, rest) = rest.uleb128()?;
    let table = table_pointer(common.table, rest)?;
    Some(Frame { start, table })
}

/// The common record at a place of a section, which is read once.
fn common_once(
    section: Cursor<'_>,
    at: usize,
    read: &mut CommonMap,
) -> Result<Option<Common>, AllocError>
    requires within { at ≤ length section.bytes.now }
    requires before { AreRead (place_of section) read.old }
    ensures value { IfOk result (λ c. c ≡ common_spec.common_at (place_of section.entry) at) }
    ensures after { OnOk result (AreRead (place_of section.entry) read.new) }
{
    if let Some(common) = read.get(&at) {
        return Ok(*common);
    }
    let common = common_at(section, at);
    read.insert(at, common)?;
    Ok(common)
}

/// The common record of a link that stands at `at`.
#[tactic(auto, unfolding(crate::specs::Frame::linked))]
fn linked(
    section: Cursor<'_>,
    at: usize,
    link: u64,
    read: &mut CommonMap,
) -> Result<Option<Common>, AllocError>
    requires within { at ≤ length section.bytes.now }
    requires before { AreRead (place_of section) read.old }
    ensures value { IfOk result (λ c. c ≡ spec.linked (place_of section.entry) at link) }
    ensures after { OnOk result (AreRead (place_of section.entry) read.new) }
{
    if link > at as u64 {
        return Ok(None);
    }
    common_once(section, at - link as usize, read)
}

/// The frame record that begins at `at` in a section, with what stands in it.
#[tactic(auto, unfolding(crate::specs::Frame::frame_at))]
pub(crate) fn frame_at(
    section: Cursor<'_>,
    at: usize,
    body: Cursor<'_>,
    read: &mut CommonMap,
) -> Result<Option<Frame>, AllocError>
    requires within { at + 4 ≤ length section.bytes.now }
    requires before { AreRead (place_of section) read.old }
    ensures value { IfOk result
        (λ f. f ≡ spec.frame_at (place_of section.entry) at (place_of body.entry)) }
    ensures after { OnOk result (AreRead (place_of section.entry) read.new) }
{
    let Some((link, rest)) = body.u32() else {
        return Ok(None);
    };
    if link == 0 {
        return Ok(None);
    }
    match linked(section, at + 4, link, read)? {
        Some(common) => Ok(frame_from(common, rest)),
        None => Ok(None),
    }
}
