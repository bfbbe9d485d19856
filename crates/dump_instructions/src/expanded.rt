//! Expands halfwords: a line for each line of the text, both in hexadecimal, as
//! `479d 00700793`, or `9c41 none` if no compressed form holds. A halfword that only a named extension
//! knows gets what it stands for, such as `9c65 Extend { kind: SextB, rd: 8, rs1: 8 }`.

use anyhow::Result;
use elf_image::Extensions;
use num_traits::Num;
use rv_extensions::expand_extension;
use rv_flow::rv64gc_word;
use std::alloc::Global;
use std::io::{BufRead, BufReader, Write};

/// The lines for this text.
pub(crate) fn write_halfwords<W: Write>(
    alloc: Global,
    out: &mut W,
    text: &[u8],
    extensions: Extensions,
) -> Result<()> {
    for line in BufReader::new(alloc, text)?.lines(alloc) {
        let half = u16::from_str_radix(line?.as_str(), 16)?;
        match rv64gc_word(&extensions, half) {
            Some(word) => writeln!(out, "{half:04x} {word:08x}")?,
            None => match expand_extension(extensions, half) {
                Some(insn) => writeln!(out, "{half:04x} {insn:?}")?,
                None => writeln!(out, "{half:04x} none")?,
            },
        }
    }
    Ok(())
}
