//! The ELF header and the program headers, judged (System V ABI, "ELF Header" and "Program
//! Header").

ghost use Rattle.std.specs.Prelude.{◌≡◌, ◌+◌, ◌*◌, ◌≤◌, ◌<◌, ◌++◌, length, not, false, None};
ghost use Rattle.elf_image.specs.Header as header;
ghost use Rattle.elf_image.specs.Faults.{has_fault, first_among};
ghost use Rattle.elf_image.specs.Inner.Passes.{ident_faults, header_faults, table_faults};
ghost use Rattle.elf_image.specs.FaultTests.{leaves_file};

use crate::fault::Fault;
use crate::number::{u16_at, u32_at, u64_at};

/// The largest file that is read: 64 MiB.
const MAX_FILE_LEN: usize = 67_108_864;

/// The size of an `Elf64_Ehdr`.
const HEADER_SIZE: u16 = 64;

/// The size of an `Elf64_Phdr`.
const PROGRAM_HEADER_SIZE: u16 = 56;

/// The size of an `Elf64_Shdr`.
pub(crate) const SECTION_HEADER_SIZE: u16 = 64;

/// `EM_RISCV` (RISC-V psABI, "ELF Object Files").
const EM_RISCV: u16 = 243;

/// `ET_EXEC`.
const ET_EXEC: u16 = 2;

/// `ET_DYN`, the type of a position-independent executable too.
const ET_DYN: u16 = 3;

/// `PT_INTERP`.
const PT_INTERP: u32 = 3;

/// Whether `size` bytes from `offset` on pass the end of a file of `len` bytes.
pub(crate) fn leaves_file(len: usize, offset: u64, size: u64) -> bool
    ensures { result ≡ leaves_file len offset size }
{
    let len = len as u64;
    offset > len || size > len - offset
}

/// The first fault among the size of the file and its first six bytes.
#[tactic(auto, unfolding(crate::specs::Faults::first_among, crate::specs::Faults::has_fault, crate::specs::FaultTests::is_too_large, crate::specs::FaultTests::is_short, crate::specs::FaultTests::has_wrong_magic, crate::specs::FaultTests::has_wrong_class, crate::specs::FaultTests::has_wrong_data))]
pub(crate) fn ident_fault(bytes: &[u8]) -> Option<Fault>
    ensures first { result ≡ first_among ident_faults bytes.now }
    ensures long_enough { result ≡ None → 64 ≤ length bytes.now }
{
    if bytes.len() > MAX_FILE_LEN {
        return Some(Fault::TooLarge);
    }
    if bytes.len() < HEADER_SIZE as usize {
        return Some(Fault::Short);
    }
    if bytes[0] != 0x7F || bytes[1] != b'E' || bytes[2] != b'L' || bytes[3] != b'F' {
        return Some(Fault::Magic);
    }
    if bytes[4] != 2 {
        return Some(Fault::Class);
    }
    if bytes[5] != 1 {
        return Some(Fault::Data);
    }
    None
}

/// The first fault among the version, the machine, the type and the size of the header.
#[tactic(auto, unfolding(crate::specs::Faults::first_among, crate::specs::Faults::has_fault, crate::specs::FaultTests::has_wrong_version, crate::specs::FaultTests::has_wrong_machine, crate::specs::FaultTests::has_wrong_type, crate::specs::FaultTests::has_wrong_header_size))]
pub(crate) fn header_fault(bytes: &[u8]) -> Option<Fault>
    requires { 64 ≤ length bytes.now }
    ensures { result ≡ first_among header_faults bytes.now }
{
    if bytes[6] != 1 || u32_at(bytes, 20) != 1 {
        return Some(Fault::Version);
    }
    if u16_at(bytes, 18) != EM_RISCV {
        return Some(Fault::Machine);
    }
    let file_type = u16_at(bytes, 16);
    if file_type != ET_EXEC && file_type != ET_DYN {
        return Some(Fault::FileType);
    }
    if u16_at(bytes, 52) != HEADER_SIZE {
        return Some(Fault::HeaderSize);
    }
    None
}

/// Whether there are program headers that cannot be read.
#[tactic(auto, unfolding(crate::specs::Faults::has_fault, crate::specs::FaultTests::has_bad_program_table))]
fn is_bad_program_table(bytes: &[u8]) -> bool
    requires { 64 ≤ length bytes.now }
    ensures { result ≡ has_fault bytes.now Fault.ProgramTable }
{
    let count = u16_at(bytes, 56);
    let table_size = PROGRAM_HEADER_SIZE as u64 * count as u64;
    count > 0
        && (u16_at(bytes, 54) != PROGRAM_HEADER_SIZE
            || leaves_file(bytes.len(), u64_at(bytes, 32), table_size))
}

/// Whether a program header asks for an interpreter, a dynamic linker.
#[tactic(auto, unfolding(crate::specs::Faults::has_fault, crate::specs::FaultTests::has_bad_program_table, crate::specs::FaultTests::has_interpreter, crate::specs::Header::program_header_types))]
fn has_interpreter(bytes: &[u8]) -> bool
    requires header { 64 ≤ length bytes.now }
    requires table { has_fault bytes.now Fault.ProgramTable ≡ false }
    ensures { result ≡ has_fault bytes.now Fault.Interp }
{
    let count = u16_at(bytes, 56);
    if count == 0 {
        return false;
    }
    let table = u64_at(bytes, 32) as usize;
    for i in 0..count as usize {
        if u32_at(bytes, table + 56 * i) == PT_INTERP {
            return true;
        }
    }
    false
}

/// Whether the section headers cannot be read.
#[tactic(auto, unfolding(crate::specs::Faults::has_fault, crate::specs::FaultTests::has_bad_section_table))]
fn is_bad_section_table(bytes: &[u8]) -> bool
    requires { 64 ≤ length bytes.now }
    ensures { result ≡ has_fault bytes.now Fault.SectionTable }
{
    let table_size = SECTION_HEADER_SIZE as u64 * u16_at(bytes, 60) as u64;
    u16_at(bytes, 58) != SECTION_HEADER_SIZE
        || leaves_file(bytes.len(), u64_at(bytes, 40), table_size)
}

/// The first fault of the program header table and the section header table.
#[tactic(auto, unfolding(crate::specs::Faults::first_among, crate::specs::Faults::has_fault, crate::specs::FaultTests::has_no_sections))]
pub(crate) fn table_fault(bytes: &[u8]) -> Option<Fault>
    requires { 64 ≤ length bytes.now }
    ensures { result ≡ first_among table_faults bytes.now }
{
    if is_bad_program_table(bytes) {
        return Some(Fault::ProgramTable);
    }
    if has_interpreter(bytes) {
        return Some(Fault::Interp);
    }
    if u16_at(bytes, 60) == 0 {
        return Some(Fault::NoSections);
    }
    if is_bad_section_table(bytes) {
        return Some(Fault::SectionTable);
    }
    None
}

/// The first fault of the header and the two tables that it names.
#[tactic(auto, unfolding(crate::specs::Faults::first_among))]
pub(crate) fn file_fault(bytes: &[u8]) -> Option<Fault>
    ensures { result ≡ first_among (ident_faults ++ header_faults ++ table_faults) bytes.now }
{
    if let Some(fault) = ident_fault(bytes) {
        return Some(fault);
    }
    if let Some(fault) = header_fault(bytes) {
        return Some(fault);
    }
    table_fault(bytes)
}
