//! Section headers and spans of a file.

/// `SHT_NULL`, `SHT_PROGBITS` and `SHT_NOBITS` of `sh_type`.
const SHT_NULL: u32 = 0;

const SHT_PROGBITS: u32 = 1;

/// `SHT_STRTAB` of `sh_type`.
const SHT_STRTAB: u32 = 3;

const SHT_NOBITS: u32 = 8;

/// `SHT_RISCV_ATTRIBUTES` (RISC-V ELF psABI, "Attributes").
const SHT_RISCV_ATTRIBUTES: u32 = 0x7000_0003;

/// The type of a section of declared tables: this project's own.
const SHT_DECLARED_TABLES: u32 = 0x8CF6_0001;

/// The type of a section of functions that do not return: this project's own.
const SHT_DECLARED_NO_RETURNS: u32 = 0x8CF6_0002;

/// `SHF_WRITE`, `SHF_ALLOC` and `SHF_EXECINSTR` of `sh_flags`.
const SHF_WRITE: u64 = 1;

const SHF_ALLOC: u64 = 2;

const SHF_EXECINSTR: u64 = 4;

/// The header of one section, an `Elf64_Shdr` (System V ABI, "Section Header"), without the fields
/// that nothing here reads.
#[derive(Clone, Copy, Debug, PartialEq, Eq)]
pub struct Section {
    /// Where its name begins in the section of names, `sh_name`.
    pub name: u32,
    /// The section's type, `sh_type`: 0 is `SHT_NULL`, 1 `SHT_PROGBITS`, 2 `SHT_SYMTAB`, 3
    /// `SHT_STRTAB`, 8 `SHT_NOBITS`.
    pub kind: u32,
    /// `sh_flags`: bit 0 is `SHF_WRITE`, bit 1 `SHF_ALLOC`, bit 2 `SHF_EXECINSTR`.
    pub flags: u64,
    /// The address of its first byte in memory, `sh_addr`.
    pub address: u64,
    /// Where its bytes begin in the file, `sh_offset`.
    pub offset: u64,
    /// Its length in bytes, `sh_size`.
    pub size: u64,
    /// The index of a section that belongs to it, `sh_link`.
    pub link: u32,
    /// The size of one entry in bytes, if it is a table, `sh_entsize`.
    pub entry_size: u64,
}

impl Section {
    ghost use Rattle.std.specs.Prelude.{◌≡◌, nat_lt, ◌==◌, not, ◌||◌};
    ghost use Rattle.elf_image.specs.Sections.{is_null, is_nobits, is_allocated, is_code_section};
    ghost use Rattle.elf_image.specs.Sections.{is_read_only_section, is_string_table, holds_bytes};
    ghost use Rattle.elf_image.specs.Attributes.{is_attributes};
    ghost use Rattle.elf_image.specs.DeclaredTables.{is_declaring};
    ghost use Rattle.elf_image.specs.DeclaredNoReturns.{is_declaring_no_returns};

    /// Whether its bytes are machine code: `SHT_PROGBITS` with `SHF_ALLOC` and `SHF_EXECINSTR`.
    pub fn is_code(&self) -> bool
        ensures { result ≡ is_code_section self.now }
    {
        self.kind == SHT_PROGBITS && self.is_allocated() && self.flags & SHF_EXECINSTR != 0
    }

    /// Whether its bytes are in memory and never written: `SHT_PROGBITS` with `SHF_ALLOC` and
    /// without `SHF_WRITE`.
    pub fn is_read_only(&self) -> bool
        ensures { result ≡ is_read_only_section self.now }
    {
        self.kind == SHT_PROGBITS && self.is_allocated() && self.flags & SHF_WRITE == 0
    }

    /// Whether it takes up memory when the program runs, `SHF_ALLOC`.
    pub fn is_allocated(&self) -> bool
        ensures { result ≡ is_allocated self.now }
    {
        self.flags & SHF_ALLOC != 0
    }

    /// Whether it has no bytes in the file: it is `SHT_NULL` or `SHT_NOBITS`.
    pub fn is_without_bytes(&self) -> bool
        ensures { result ≡ (is_null self.now || is_nobits self.now) }
    {
        self.kind == SHT_NULL || self.kind == SHT_NOBITS
    }

    /// Whether it has the attributes of the file: `SHT_RISCV_ATTRIBUTES`.
    pub(crate) fn is_attributes(&self) -> bool
        ensures { result ≡ is_attributes self.now }
    {
        self.kind == SHT_RISCV_ATTRIBUTES
    }

    /// Whether it is a string table, `SHT_STRTAB`.
    pub(crate) fn is_string_table(&self) -> bool
        ensures { result ≡ is_string_table self.now }
    {
        self.kind == SHT_STRTAB
    }

    /// Whether it declares tables.
    pub(crate) fn is_declaring(&self) -> bool
        ensures { result ≡ is_declaring self.now }
    {
        self.kind == SHT_DECLARED_TABLES
    }

    /// Whether it declares functions that do not return.
    pub(crate) fn is_declaring_no_returns(&self) -> bool
        ensures { result ≡ is_declaring_no_returns self.now }
    {
        self.kind == SHT_DECLARED_NO_RETURNS
    }

    /// Whether the `n` bytes from address `a` on all lie in it.
    #[inline]
    pub fn holds_bytes(&self, a: u64, n: u64) -> bool
        ensures { result ≡ holds_bytes a n self.now }
    {
        a >= self.address && a - self.address <= self.size && n <= self.size - (a - self.address)
    }
}

/// A place in a file: `len` bytes from offset `at` on.
#[derive(Clone, Copy, Debug, PartialEq, Eq)]
pub struct Span {
    /// The offset of the first byte in the file.
    pub at: u32,
    /// The number of bytes.
    pub len: u32,
}
