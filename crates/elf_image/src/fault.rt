//! Why a file is refused.

ghost use Rattle.std.specs.Prelude.{◌≡◌};
ghost use Rattle.elf_image.specs.declared.fault.ElfError.TheVariants.{Memory};
ghost use Rattle.elf_image.specs.FaultNames.{fault_name};

use std::alloc::{AllocError, AllocFailed};
use thiserror::Error;

/// What is wrong with a file. The first fault that holds, in the order of the variants, is the
/// file's fault.
#[derive(Clone, Copy, Debug, PartialEq, Eq)]
pub enum Fault {
    /// The file has more than 67,108,864 bytes.
    TooLarge,
    /// It has fewer than 64 bytes, the size of an ELF header.
    Short,
    /// It does not begin with 7F 45 4C 46 (hexadecimal).
    Magic,
    /// It is not `ELFCLASS64`.
    Class,
    /// It is not `ELFDATA2LSB`, little-endian.
    Data,
    /// `e_ident[EI_VERSION]` or `e_version` is not `EV_CURRENT`.
    Version,
    /// `e_machine` is not `EM_RISCV`.
    Machine,
    /// `e_type` is neither `ET_EXEC` nor `ET_DYN`. Its name is `Type`.
    FileType,
    /// `e_ehsize` is not 64.
    HeaderSize,
    /// There are program headers, and `e_phentsize` is not 56 or their table leaves the file.
    ProgramTable,
    /// A program header is `PT_INTERP`: the file is linked dynamically.
    Interp,
    /// There is no section.
    NoSections,
    /// `e_shentsize` is not 64, or the section header table leaves the file.
    SectionTable,
    /// A section that is neither `SHT_NULL` nor `SHT_NOBITS` leaves the file.
    SectionRange,
    /// The address plus the size of a section with `SHF_ALLOC` exceeds 2^64 - 1.
    SectionWrap,
    /// A code section stands at an odd address.
    CodeParity,
    /// Two code sections share an address.
    CodeOverlap,
    /// `e_entry` is not a code address.
    Entry,
    /// There are two symbol tables, or one with wrong entries, a wrong size or no string table.
    SymbolTable,
    /// The name of a seed symbol does not lie in the string table.
    SymbolName,
}

impl Fault {
    /// The name of the fault, as it is printed: that of the variant, but `Type` for `FileType`.
    pub fn name(&self) -> &'static str
        ensures { result.now ≡ fault_name self.now }
    {
        match self {
            Fault::TooLarge => "TooLarge",
            Fault::Short => "Short",
            Fault::Magic => "Magic",
            Fault::Class => "Class",
            Fault::Data => "Data",
            Fault::Version => "Version",
            Fault::Machine => "Machine",
            Fault::FileType => "Type",
            Fault::HeaderSize => "HeaderSize",
            Fault::ProgramTable => "ProgramTable",
            Fault::Interp => "Interp",
            Fault::NoSections => "NoSections",
            Fault::SectionTable => "SectionTable",
            Fault::SectionRange => "SectionRange",
            Fault::SectionWrap => "SectionWrap",
            Fault::CodeParity => "CodeParity",
            Fault::CodeOverlap => "CodeOverlap",
            Fault::Entry => "Entry",
            Fault::SymbolTable => "SymbolTable",
            Fault::SymbolName => "SymbolName",
        }
    }
}

/// Why a file could not be read.
#[derive(Debug, Drop, Error)]
pub enum ElfError {
    /// The file is not one that is read here; the fault says why.
    #[error("the file is malformed")]
    Malformed(Fault),
    /// Memory ran out.
    #[error("out of memory")]
    Memory,
}

impl From<AllocError> for ElfError {
    ghost from_gives = { λ _ e. e ≡ Memory };

    fn from(_e: AllocError) -> ElfError {
        ElfError::Memory
    }
}

impl<T: Drop> From<AllocFailed<T>> for ElfError {
    ghost from_gives = { λ _ e. e ≡ Memory };

    fn from(_e: AllocFailed<T>) -> ElfError {
        ElfError::Memory
    }
}
