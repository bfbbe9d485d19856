//! Decodes 32-bit words, those of extensions among them that are named.
//!
//! The bytes are read as little-endian words; those after the last whole word are left out. Each
//! word gets a line: the word as eight hexadecimal digits, and its instruction as the mnemonic and
//! its operands, or `none`.

use crate::assembly::Assembly;
use anyhow::Result;
use byteorder::{ByteOrder, LittleEndian};
use elf_image::Extensions;
use rv_extensions::decode_extension;
use rv_flow::rv64gc_insn;
use std::io::Write;

/// The lines for these bytes.
pub(crate) fn write_words<W: Write>(
    out: &mut W,
    bytes: &[u8],
    extensions: Extensions,
) -> Result<()> {
    for word in bytes.chunks_exact(4) {
        let word = LittleEndian::read_u32(word);
        let in_rv64gc = rv64gc_insn(&extensions, word);
        match in_rv64gc.or(decode_extension(extensions, word)) {
            Some(insn) => writeln!(out, "{word:08x} {}", Assembly(insn))?,
            None => writeln!(out, "{word:08x} none")?,
        }
    }
    Ok(())
}
