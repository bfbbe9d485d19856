//! Fields of a file at its end: little-endian numbers (System V ABI, "Data Encoding"), and bytes
//! that are padded.

ghost use Rattle.std.specs.Prelude.{◌≡◌, ◌++◌, ◌≤◌, length, replicate, OnOk};
ghost use Rattle.elf_maker.specs.Fields.{halves, words, xwords, padding, padded};

use crate::Memory;

/// Appends fields of two bytes each (`Elf64_Half`).
#[tactic(auto, unfolding(crate::specs::Fields::halves))]
pub(crate) fn put_halves(file: &mut Vec<u8>, fields: &[u16]) -> Result<(), Memory>
    ensures { OnOk result (file.new.items ≡ file.old.items ++ halves fields.now) }
{
    for field in fields {
        file.extend_from_slice(&field.to_le_bytes())?;
    }
    Ok(())
}

/// Appends fields of four bytes each (`Elf64_Word`).
#[tactic(auto, unfolding(crate::specs::Fields::words))]
pub(crate) fn put_words(file: &mut Vec<u8>, fields: &[u32]) -> Result<(), Memory>
    ensures { OnOk result (file.new.items ≡ file.old.items ++ words fields.now) }
{
    for field in fields {
        file.extend_from_slice(&field.to_le_bytes())?;
    }
    Ok(())
}

/// Appends fields of eight bytes each (`Elf64_Xword`, `Elf64_Addr` and `Elf64_Off`).
#[tactic(auto, unfolding(crate::specs::Fields::xwords))]
pub(crate) fn put_xwords(file: &mut Vec<u8>, fields: &[u64]) -> Result<(), Memory>
    ensures { OnOk result (file.new.items ≡ file.old.items ++ xwords fields.now) }
{
    for field in fields {
        file.extend_from_slice(&field.to_le_bytes())?;
    }
    Ok(())
}

/// How many bytes are missing to a multiple of eight.
fn padding(len: usize) -> usize
    ensures { result ≡ padding len }
{
    (8 - len % 8) % 8
}

/// The number of bytes with the zero bytes that are missing to a multiple of eight.
#[tactic(auto, unfolding(crate::specs::Fields::padded))]
pub(crate) fn padded_len(bytes: &[u8]) -> u64
    ensures { result ≡ length (padded bytes.now) }
{
    (bytes.len() + padding(bytes.len())) as u64
}

/// Appends up to eight zero bytes.
fn put_zeros(file: &mut Vec<u8>, count: usize) -> Result<(), Memory>
    requires { count ≤ 8 }
    ensures { OnOk result (file.new.items ≡ file.old.items ++ replicate count 0) }
{
    let zeros = [0; 8];
    file.extend_from_slice(&zeros[..count])?;
    Ok(())
}

/// Appends bytes, and zero bytes up to a multiple of eight of them.
#[tactic(auto, using(std::proofs::lemmas::List::append_assoc), unfolding(crate::specs::Fields::padded))]
pub(crate) fn put_padded(file: &mut Vec<u8>, bytes: &[u8]) -> Result<(), Memory>
    ensures { OnOk result (file.new.items ≡ file.old.items ++ padded bytes.now) }
{
    file.extend_from_slice(bytes)?;
    put_zeros(file, padding(bytes.len()))
}
