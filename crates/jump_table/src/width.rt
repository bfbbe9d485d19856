//! The size of a table's entries.

ghost use Rattle.std.specs.Prelude.{◌≡◌, ◌<◌};
ghost use Rattle.jump_table.specs.Values.{bytes_of};
ghost use Rattle.jump_table.specs.Table.{width_of};

/// The size of an entry of a table, by which the index was scaled.
#[derive(Clone, Copy)]
pub enum Width {
    /// Four bytes.
    Word,
    /// Eight bytes.
    Double,
}

impl Width {
    /// The width of this many bytes, if it is one.
    pub(crate) fn of_bytes(size: u32) -> Option<Width>
        ensures { result ≡ width_of size }
    {
        match size {
            4 => Some(Width::Word),
            8 => Some(Width::Double),
            _ => None,
        }
    }

    /// The size in bytes.
    pub fn bytes(self) -> u8
        ensures value { result ≡ bytes_of self }
        ensures some { 0 < result }
    {
        match self {
            Width::Word => 4,
            Width::Double => 8,
        }
    }
}
