//! The call that makes the file, and its parts.

ghost use Rattle.std.specs.Prelude.{◌≡◌, ◌↔◌, ◌≤◌, ℕ, None, IfOk};
ghost use Rattle.std.specs.List.{Contains};
ghost use Rattle.elf_image.specs.Faults.{first_fault};
ghost use Rattle.elf_image.specs.Seeds.{seeds};
ghost use Rattle.elf_maker.specs.MadeFile.{made_file};
ghost use Rattle.elf_maker.specs.MadeOf.{IsMadeOf};
ghost use Rattle.big_case.specs.BigCase.{big_parts};
ghost use Rattle.big_case.specs.Places.{slot_at};

use crate::Memory;
use crate::code::code_of;
use crate::place::{slot_at, table_at};
use crate::rodata::rodata_of;
use elf_maker::{Bytes, MadeSymbols, Parts, make_elf};
use std::alloc::Global;

/// The parts of the file of a program of `n` functions.
fn parts_of(alloc: Global, n: u32) -> Result<Parts, Memory>
    requires { n ≤ 100000 }
    ensures { IfOk result (λ parts. parts ≡ big_parts n) }
{
    Ok(Parts {
        entry: slot_at(0).into(),
        code_at: slot_at(0).into(),
        code: Bytes::from_vec(code_of(alloc, n)?),
        rodata_at: table_at(0).into(),
        rodata: Bytes::from_vec(rodata_of(alloc, n)?),
        symbols: MadeSymbols::from_vec(Vec::new(alloc)),
    })
}

/// An executable of `n` functions, each in 128 bytes of code. Function `i` calls the functions `2 i
/// + 1` and `2 i + 2`, if they are below `n`. By `i` modulo 4 it has a loop, a longer loop, a
/// branch round a call that does not return, or a jump through a table of four entries. After them
/// stand a function that returns, which is called instead of a missing one, and one that loops
/// without end. The file has no symbols.
///
/// For `n` = 100,000 the code has 12,800,256 bytes and the read-only data 400,000. The only error
/// is that memory ran out.
/// Time: O(n). Memory: O(n).
pub fn big_file(alloc: Global, n: u32) -> Result<Vec<u8>, Memory>
    requires least { 4 ≤ n }
    requires most { n ≤ 100000 }
    ensures bytes { IfOk result (λ file. file.items ≡ made_file (big_parts n)) }
    ensures made { IfOk result (λ file. IsMadeOf (big_parts n) file.items) }

    // What the clauses above imply, in the form that callers need.
    ensures no_fault { IfOk result (λ file. first_fault file.items ≡ None) }
    ensures one_seed { IfOk result
        (λ file. (a : ℕ) → Contains (seeds file.items) a ↔ (a ≡ slot_at 0)) }
{
    let parts = parts_of(alloc, n)?;
    let file = make_elf(alloc, &parts)?;
    Ok(file)
}
