//! What a file declares: jump tables, kept to be searched by the address of the jump, and functions
//! that do not return.

ghost use Rattle.std.specs.Prelude.{◌≡◌, ◌+◌, ◌≤◌, ◌++◌, ◌==◌, length, false, IfOk, OnOk};
ghost use Rattle.std.specs.List.{find};
ghost use Rattle.std.specs.List.Sorted.{IsNonDecreasingBy};
ghost use Rattle.elf_image.specs.Sections.{sections};
ghost use Rattle.elf_image.specs.Faults.{has_fault};
ghost use Rattle.elf_image.specs.DeclaredTables as spec;
ghost use Rattle.elf_image.specs.DeclaredNoReturns as no_return;
ghost use Rattle.elf_image.specs.Inner.Declared.{IsByJump};

use crate::fault::Fault;
use crate::number::{u32_at, u64_at};
use crate::section::Section;
use std::alloc::{AllocError, Global};

/// The size of the record of a table.
const RECORD_SIZE: u64 = 32;

/// The size of the record of a function that does not return: its address.
const ADDRESS_SIZE: u64 = 8;

/// What a file says of the table of a jump: one record of a section of the type 8CF60001
/// (hexadecimal), as it stands there. Whether there is such a table is not judged.
#[derive(Clone, Copy, Debug, PartialEq, Eq)]
pub struct DeclaredTable {
    /// The address of the jump.
    pub jump: u64,
    /// The address of the first entry.
    pub base: u64,
    /// What is added to an entry.
    pub add: u64,
    /// The number of entries.
    pub count: u32,
    /// The size of an entry in bytes.
    pub size: u32,
}

/// The record at an offset.
fn read_table(bytes: &[u8], at: usize) -> DeclaredTable
    requires { at + 32 ≤ length bytes.now }
    ensures { result ≡ spec.declared_table bytes.now at }
{
    DeclaredTable {
        jump: u64_at(bytes, at),
        base: u64_at(bytes, at + 8),
        add: u64_at(bytes, at + 16),
        count: u32_at(bytes, at + 24),
        size: u32_at(bytes, at + 28),
    }
}

/// Puts the records of a section, which lies in the file, after those that are there.
fn push_tables(bytes: &[u8], s: &Section, tables: &mut Vec<DeclaredTable>) -> Result<(), AllocError>
    requires { s.now.offset + s.now.size ≤ length bytes.now }
    ensures { OnOk result
        (tables.new.items ≡ tables.old.items ++ spec.declared_in bytes.now s.now) }
{
    for i in 0..s.size / RECORD_SIZE {
        tables.push(read_table(bytes, (s.offset + RECORD_SIZE * i) as usize))?;
    }
    Ok(())
}

/// All records, section after section. `headers` are all of the file.
#[tactic(auto, unfolding(crate::specs::DeclaredTables::declared_tables))]
fn read_tables(
    alloc: Global,
    bytes: &[u8],
    headers: &[Section],
) -> Result<Vec<DeclaredTable>, AllocError>
    requires headers { headers.now ≡ sections bytes.now }
    requires in_file { has_fault bytes.now Fault.SectionRange ≡ false }
    ensures { IfOk result (λ v. v.items ≡ spec.declared_tables bytes.now) }
{
    let mut tables = Vec::new(alloc);
    for s in headers {
        if s.is_declaring() {
            push_tables(bytes, s, &mut tables)?;
        }
    }
    Ok(tables)
}

/// The tables of a file in the order of their jumps, those of one jump as they stand in the file.
/// `headers` are all of the file.
/// Time: O(n log n) for n records.
pub(crate) fn tables_by_jump(
    alloc: Global,
    bytes: &[u8],
    headers: &[Section],
) -> Result<Vec<DeclaredTable>, AllocError>
    requires headers { headers.now ≡ sections bytes.now }
    requires in_file { has_fault bytes.now Fault.SectionRange ≡ false }
    ensures { IfOk result (λ v. IsByJump (spec.declared_tables bytes.now) v.items) }
{
    let mut tables = read_tables(alloc, bytes, headers)?;
    tables.sort_by_key(|t| t.jump)?;
    Ok(tables)
}

/// The first table of a jump. The tables are in the order of their jumps.
pub(crate) fn first_of_jump(tables: &[DeclaredTable], j: u64) -> Option<DeclaredTable>
    requires { IsNonDecreasingBy (λ t. t.jump) tables.now }
    ensures { result ≡ find (λ t. t.jump == j) tables.now }
{
    let first = tables.partition_point(|t| t.jump < j);
    let table = tables.get(first)?;
    if table.jump == j { Some(*table) } else { None }
}

/// Puts the addresses of a section, which lies in the file, after those that are there.
fn push_no_returns(bytes: &[u8], s: &Section, found: &mut Vec<u64>) -> Result<(), AllocError>
    requires { s.now.offset + s.now.size ≤ length bytes.now }
    ensures { OnOk result
        (found.new.items ≡ found.old.items ++ no_return.no_returns_in bytes.now s.now) }
{
    for i in 0..s.size / ADDRESS_SIZE {
        found.push(u64_at(bytes, (s.offset + ADDRESS_SIZE * i) as usize))?;
    }
    Ok(())
}

/// The addresses of the functions that are declared not to return, section after section. `headers`
/// are all of the file.
#[tactic(auto, unfolding(crate::specs::DeclaredNoReturns::declared_no_returns))]
pub(crate) fn no_returns(
    alloc: Global,
    bytes: &[u8],
    headers: &[Section],
) -> Result<Vec<u64>, AllocError>
    requires headers { headers.now ≡ sections bytes.now }
    requires in_file { has_fault bytes.now Fault.SectionRange ≡ false }
    ensures { IfOk result (λ v. v.items ≡ no_return.declared_no_returns bytes.now) }
{
    let mut found = Vec::new(alloc);
    for s in headers {
        if s.is_declaring_no_returns() {
            push_no_returns(bytes, s, &mut found)?;
        }
    }
    Ok(found)
}
