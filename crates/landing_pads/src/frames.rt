//! The ranges of a section of frames, and of all.

ghost use Rattle.std.specs.Prelude.{◌≡◌, ◌+◌, ◌≤◌, ◌<◌, ◌++◌, [], ◌∷◌, length, IfOk, OnOk};
ghost use Rattle.std.specs.List.{flat_map, filter};
ghost use Rattle.std.specs.Option.{option_to_list};
ghost use Rattle.elf_image.specs.Header.{section_count};
ghost use Rattle.elf_image.specs.Sections.{section};
ghost use Rattle.landing_pads.specs.Frame as frame_spec;
ghost use Rattle.landing_pads.specs.Table as table_spec;
ghost use Rattle.landing_pads.specs.Pad as spec;
ghost use Rattle.landing_pads.specs.Inner.{place_of, AreRead, IsInFile};

use crate::common::body_at;
use crate::cursor::Cursor;
use crate::frame::{CommonMap, frame_at};
use crate::range::Range;
use crate::table::push_frame;
use elf_image::{Image, Section, Span};
use std::alloc::{AllocError, Global};
use std::collections::BTreeMap;

/// The name of a section of frames, with its zero byte.
const FRAMES: &[u8] = b".eh_frame\0";

/// Puts the ranges of the record that begins at `at`, with what stands in it, after those that are
/// there.
fn push_record(
    image: &Image,
    section: Cursor<'_>,
    at: usize,
    body: Cursor<'_>,
    read: &mut CommonMap,
    ranges: &mut Vec<Range>,
) -> Result<(), AllocError>
    requires within { at + 4 ≤ length section.bytes.now }
    requires before { AreRead (place_of section) read.old }
    ensures pushed { OnOk result (ranges.new.items ≡ ranges.old.items
        ++ flat_map (table_spec.frame_ranges image.now) (option_to_list
        (frame_spec.frame_at (place_of section.entry) at (place_of body.entry)))) }
    ensures after { OnOk result (AreRead (place_of section.entry) read.new) }
{
    if let Some(frame) = frame_at(section, at, body, read)? {
        push_frame(image, frame, ranges)?;
    }
    Ok(())
}

/// Puts the ranges of the frames of a section after those that are there.
fn push_frames(
    alloc: Global,
    image: &Image,
    section: Cursor<'_>,
    ranges: &mut Vec<Range>,
) -> Result<(), AllocError>
    ensures { OnOk result (ranges.new.items ≡ ranges.old.items
        ++ flat_map (table_spec.frame_ranges image.now)
        (frame_spec.frames (place_of section.entry))) }
{
    let mut read: CommonMap = BTreeMap::new(alloc);
    let mut at = 0;
    while let Some(body) = body_at(section, at) {
        push_record(image, section, at, body, &mut read, ranges)?;
        at += 4 + body.bytes.len();
    }
    Ok(())
}

/// The bytes of a section.
fn section_cursor<'a>(image: &'a Image, s: &Section) -> Cursor<'a>
    requires { IsInFile image.now s.now }
    ensures { place_of result ≡ spec.section_place image.now s.now }
{
    Cursor {
        address: s.address,
        bytes: image.bytes(Span {
            at: s.offset as u32,
            len: s.size as u32,
        }),
    }
}

/// Whether a section is one of frames.
fn is_frames(image: &Image, s: &Section) -> bool
    ensures { result ≡ spec.is_frames image.now s.now }
{
    s.is_read_only() && image.name_begins(s, FRAMES)
}

/// Puts the ranges of the section at an index, if it is one of frames, after those that are there.
fn push_section(
    alloc: Global,
    image: &Image,
    i: u32,
    ranges: &mut Vec<Range>,
) -> Result<(), AllocError>
    requires { i < section_count image.now }
    ensures { OnOk result (ranges.new.items ≡ ranges.old.items ++ flat_map
        (spec.section_ranges image.now) (filter (spec.is_frames image.now)
        (section image.now i ∷ []))) }
{
    let s = image.section(i);
    if !is_frames(image, &s) {
        return Ok(());
    }
    push_frames(alloc, image, section_cursor(image, &s), ranges)
}

/// The ranges of all sections of frames.
#[tactic(auto, unfolding(crate::specs::Pad::ranges))]
pub(crate) fn ranges_of(alloc: Global, image: &Image) -> Result<Vec<Range>, AllocError>
    ensures { IfOk result (λ v. v.items ≡ spec.ranges image.now) }
{
    let mut ranges = Vec::new(alloc);
    for i in 0..image.section_count() {
        push_section(alloc, image, i, &mut ranges)?;
    }
    Ok(ranges)
}
