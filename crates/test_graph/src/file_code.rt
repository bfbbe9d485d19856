//! Rows 6 to 17: what is looked up, against walks that decode each instruction; and of row 13 the
//! targets of its table.

ghost use Rattle.std.specs.Prelude.{◌≡◌, ◌≤◌, IsTrue, IsSome};
ghost use Rattle.elf_image.specs.Code.{is_code};
ghost use Rattle.code_view.specs.FileCode.{program_of};

use crate::asserts::{holds, holds_at};
use cfg_model::{Chains, Flow, term};
use cfg_vectors::row_file;
use chain_index::ChainIndex;
use code_view::{Calls, Code, Cuts};
use elf_image::Image;
use rv_flow::{RawFlow, flow_of, insn_at};
use std::alloc::Global;
use std::process::Abort;
use std::test::Fail;

// Where the code of a row's file begins.
const CODE: u64 = 0x10000;

// The jump of row 13, and the targets that the table of that row has.
const JUMP: u64 = 0x1001C;

const TARGETS: [u64; 8] = [
    0x10020, 0x10020, 0x10020, 0x10020, 0x10020, 0x10020, 0x10020, 0x10024,
];

// Where the code of row 15 jumps through a register: twice through a table, else it returns, by
// JALR.
const JUMPS: [u64; 7] = [
    0x1001C, 0x10020, 0x10024, 0x10048, 0x1004C, 0x10050, 0x10054,
];

// The end of the chain of `a`: decodes one instruction after the other.
fn walked(image: &Image, a: u64) -> u64 {
    let mut k = a;
    for _ in 0..1_000 {
        if !image.is_code(k) {
            break;
        }
        let placed = insn_at(image, k);
        let behind = k.saturating_add(u64::from(placed.length));
        match flow_of(image, k, placed.insn) {
            RawFlow::Straight if image.is_code(behind) => k = behind,
            _ => break,
        }
    }
    k
}

// Whether what is looked up for the instruction at `a` is what its walk and its decoding find.
fn agree_at(image: &Image, index: &ChainIndex, code: &Code, a: u64) -> bool
    requires same { index.now ≡ image.now }
    requires code { IsTrue (is_code image.now a) }
    requires stands { IsSome (program_of code.now a) }
{
    let end = walked(image, a);
    index.term(a) == end
        && term(code, a) == end
        && matches!(code.flow(a), Flow::Straight { .. }) == (end != a)
        && code.length(a) == insn_at(image, a).length
}

// Whether they agree at each code address of a row's file.
fn agree(alloc: Global, row: u32) -> Result<bool, Fail>
    requires from { 6 ≤ row }
    requires to { row ≤ 17 }
{
    let image = Image::parse(alloc, row_file(alloc, row, 0)?)?;
    let index = ChainIndex::new(alloc, &image)?;
    let calls = Calls::of(alloc, &image)?;
    let none = Cuts::none(alloc);
    let code = Code::new(&image, &index, &calls, &none);
    let mut all = code.has(CODE);
    for i in 0..1_000 {
        let a = CODE + 2 * i;
        if image.is_code(a) && code.has(a) {
            all = all && agree_at(&image, &index, &code, a);
        }
    }
    Ok(all)
}

#[test]
fn chains_end_where_walks_do(rt: HostRuntime) -> Result<(), Fail> {
    for row in 6..18 {
        holds_at(&rt, &row, agree(rt.alloc(), row)?);
    }
    Ok(())
}

// The targets of the table of row 13; its first instruction has none.
fn expect_targets(rt: &impl Abort, code: &Code) -> Result<(), Fail> {
    assert!(rt; code.has(CODE) && code.has(JUMP));
    holds(rt, code.targets(CODE)?.is_empty());
    let targets = code.targets(JUMP)?;
    assert!(rt; targets.as_slice() == TARGETS.as_slice());
    Ok(())
}

#[test]
fn targets_of_a_table(rt: HostRuntime) -> Result<(), Fail> {
    let image = Image::parse(rt.alloc(), row_file(rt.alloc(), 13, 0)?)?;
    let index = ChainIndex::new(rt.alloc(), &image)?;
    let calls = Calls::of(rt.alloc(), &image)?;
    let none = Cuts::none(rt.alloc());
    let code = Code::new(&image, &index, &calls, &none);
    expect_targets(&rt, &code)
}

// The register jumps of a code, found between one of its bounds and the next.
fn found_in_parts(alloc: Global, code: &Code, workers: u32) -> Result<Vec<u64>, Fail>
    requires { 1 ≤ workers }
{
    let mut found = Vec::new(alloc);
    let mut after = None;
    for bound in code.bounds(alloc, workers)? {
        let mut part = code.register_jumps_between(alloc, after, Some(bound))?;
        found.append(&mut part)?;
        after = Some(bound);
    }
    let mut part = code.register_jumps_between(alloc, after, None)?;
    found.append(&mut part)?;
    Ok(found)
}

// The register jumps of row 15, found in one go and in parts.
fn expect_register_jumps(rt: &(impl Abort + AllocGlobal), code: &Code) -> Result<(), Fail> {
    let jumps = code.register_jumps(rt.alloc())?;
    holds(rt, jumps.as_slice() == JUMPS.as_slice());
    for workers in [1, 2, 4, 64] {
        let found = found_in_parts(rt.alloc(), code, workers)?;
        holds_at(rt, &workers, found.as_slice() == JUMPS.as_slice());
    }
    Ok(())
}

#[test]
fn register_jumps_part_by_part(rt: HostRuntime) -> Result<(), Fail> {
    let image = Image::parse(rt.alloc(), row_file(rt.alloc(), 15, 0)?)?;
    let index = ChainIndex::new(rt.alloc(), &image)?;
    let calls = Calls::of(rt.alloc(), &image)?;
    let none = Cuts::none(rt.alloc());
    let code = Code::new(&image, &index, &calls, &none);
    expect_register_jumps(&rt, &code)
}
