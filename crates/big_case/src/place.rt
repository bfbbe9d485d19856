//! Where the slots of the code and the tables of the read-only data stand.

ghost use Rattle.std.specs.Prelude.{◌≡◌, ◌≤◌};
ghost use Rattle.big_case.specs.Places.{slot_at, table_at, callee};

/// The address of the first slot.
const CODE_AT: u32 = 0x10000;

/// The bytes of a slot.
pub(crate) const SLOT_SIZE: u32 = 128;

/// The address of the first table.
const RODATA_AT: u32 = 0x2000000;

/// The bytes of a table.
pub(crate) const TABLE_SIZE: u32 = 16;

/// The address of slot `i`.
pub(crate) fn slot_at(i: u32) -> u32
    requires { i ≤ 100001 }
    ensures { result ≡ slot_at i }
{
    CODE_AT + SLOT_SIZE * i
}

/// The address of table `j`.
pub(crate) fn table_at(j: u32) -> u32
    requires { j ≤ 25000 }
    ensures { result ≡ table_at j }
{
    RODATA_AT + TABLE_SIZE * j
}

/// The slot that is called for slot `i` of a program of `n` functions: slot `n` if there is no
/// function `i`.
pub(crate) fn callee(n: u32, i: u32) -> u32
    ensures { result ≡ callee n i }
{
    if i < n { i } else { n }
}
