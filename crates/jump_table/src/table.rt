//! A jump table in the file.

/// A jump table. Entry number `i` stands at `base + width * i`: a word, sign extended to 64 bits,
/// or a doubleword. Target number `i` is that entry plus `add`, with bit 0 cleared.
#[derive(Clone, Copy, Debug, PartialEq, Eq)]
pub struct Table {
    /// The address of the first entry, a multiple of `width`.
    pub base: u64,
    /// The size of an entry in bytes: 4 or 8.
    pub width: u8,
    /// How many entries have a target in the code, one after another from the first: at least 1.
    pub count: u32,
    /// How many entries may count: as many as the bound test allows, at most 2,048; as many as are
    /// declared, at most 65,536; or 1,024.
    pub bound: u32,
    /// What is added to an entry.
    pub add: u64,
    /// Whether the table was found without a bound test.
    pub is_open: bool,
}
