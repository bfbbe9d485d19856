//! One statically linked ELF-64 executable for RISC-V, judged and read (System V ABI, ELF-64).
//!
//! [`Image::parse`] takes the bytes of a file and names its first [`Fault`], if it has one of the
//! first eighteen. The reader of symbols judges the two faults of symbols. To a contract an
//! [`Image`] is the list of the file's bytes, and every answer is a definition of `specs/` on that
//! list.
//!
//! The way of a file: `header` judges the header and the two tables, `table` reads and judges the
//! section headers, `layout` judges code sections together and keeps what `address_index` searches,
//! and `image` answers reads. `number` reads the numbers of all of them.
//!
//! Two more types of sections are read. `attributes` finds the text of the architecture, and `names`
//! the extensions that it names. `declared` sorts the records of declared tables by their jumps. What
//! is wrong there is no fault of the file.
//!
//! Readings of the text of the architecture:
//!
//! - The first attributes section decides, whatever its first byte is. What is passed over in it must
//!   lie in what it lies in, and has a zero byte or an end of its own there.
//! - The first part, after `rv64`, is letters even if it goes on with `z`: `rv64gczba` has a `b`.
//! - A version is digits, `p`, digits. Digits alone belong to a name, and a part of letters that has
//!   them names nothing.
//! - Of the names that stand for others only `b` and `v` count: compilers write the others out.
#![tactic(auto)]

mod address_index;
mod attributes;
mod declared;
mod extensions;
mod fault;
mod header;
mod image;
mod layout;
mod names;
mod number;
mod section;
mod table;

pub use declared::DeclaredTable;
pub use extensions::Extensions;
pub use fault::{ElfError, Fault};
pub use image::Image;
pub use number::{u16_at, u32_at, u64_at};
pub use section::{Section, Span};
