//! The ELF header.

ghost use Rattle.std.specs.Prelude.{◌≡◌, ◌++◌, OnOk};
ghost use Rattle.elf_maker.specs.Header.{file_header};

use crate::Memory;
use crate::fields::{put_halves, put_words, put_xwords};

/// `e_ident`: the magic number, `ELFCLASS64`, `ELFDATA2LSB`, `EV_CURRENT`.
const IDENTIFICATION: [u8; 16] = [0x7F, b'E', b'L', b'F', 2, 1, 1, 0, 0, 0, 0, 0, 0, 0, 0, 0];

const ET_EXEC: u16 = 2;

const EM_RISCV: u16 = 243;

const EV_CURRENT: u32 = 1;

/// The sizes of an `Elf64_Ehdr` and an `Elf64_Shdr` in bytes.
pub(crate) const FILE_HEADER_SIZE: u16 = 64;

const SECTION_HEADER_SIZE: u16 = 64;

/// Appends the header of an executable that starts at `entry` and has `count` section headers at
/// the offset `table`.
#[tactic(auto, using(std::proofs::lemmas::List::append_assoc), unfolding(crate::specs::Header::file_header))]
pub(crate) fn put_file_header(
    file: &mut Vec<u8>,
    entry: u64,
    table: u64,
    count: u16,
) -> Result<(), Memory>
    ensures { OnOk result (file.new.items ≡ file.old.items ++ file_header entry table count) }
{
    file.extend_from_slice(&IDENTIFICATION)?;
    put_halves(file, &[ET_EXEC, EM_RISCV])?;
    put_words(file, &[EV_CURRENT])?;
    put_xwords(file, &[entry, 0, table])?;
    put_words(file, &[0])?;
    put_halves(
        file,
        &[FILE_HEADER_SIZE, 0, 0, SECTION_HEADER_SIZE, count, 0],
    )
}
