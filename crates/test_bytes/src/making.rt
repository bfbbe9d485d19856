//! Whole files against those of another tool.

ghost use Rattle.std.specs.Prelude.{◌≡◌, [], IfOk};

use crate::asserts::same;
use crate::small_files::{NAMES_FILE, RET_FILE};
use elf_maker::{Bytes, MadeSymbol, MadeSymbols, Parts, make_elf};
use std::alloc::{AllocError, Global};
use std::test::Fail;

fn symbol(alloc: Global, name: &[u8], address: u64) -> Result<MadeSymbol, AllocError>
    ensures { IfOk result (λ s. s ≡ record { name = name.now; address = address }) }
{
    Ok(MadeSymbol {
        name: Bytes::from_vec(name.to_vec(alloc)?),
        address,
    })
}

/// Code at the address 10000, its entry, and no read-only data.
fn code_alone(alloc: Global, code: &[u8], symbols: Vec<MadeSymbol>) -> Result<Parts, AllocError>
    ensures { IfOk result
        (λ parts. parts ≡ record {
          entry = 0x10000;
          code_at = 0x10000;
          code = code.now;
          rodata_at = 0x20000;
          rodata = [];
          symbols = symbols.items;
        }) }
{
    Ok(Parts {
        entry: 0x10000,
        code_at: 0x10000,
        code: Bytes::from_vec(code.to_vec(alloc)?),
        rodata_at: 0x20000,
        rodata: Bytes::from_vec(Vec::new(alloc)),
        symbols: MadeSymbols::from_vec(symbols),
    })
}

#[test]
#[tactic(auto, using(elf_maker::proofs::Sizes::made_file_size))]
fn makes_one_instruction(rt: HostRuntime) -> Result<(), Fail> {
    let alloc = rt.alloc();
    let parts = code_alone(alloc, &[0x67, 0x80, 0, 0], Vec::new(alloc))?;
    let file = make_elf(alloc, &parts)?;
    same(&rt, &file.as_slice(), &RET_FILE.as_slice());
    Ok(())
}

#[test]
#[tactic(auto, using(elf_maker::proofs::Sizes::made_file_size))]
fn makes_symbols(rt: HostRuntime) -> Result<(), Fail> {
    let alloc = rt.alloc();
    let symbols = vec![in alloc;
        symbol(alloc, b"b", 0x10000)?,
        symbol(alloc, b"a", 0x10000)?,
        symbol(alloc, b"odd", 0x10001)?,
        symbol(alloc, b"c", 0x10004)?,
    ]?;
    let parts = code_alone(alloc, &[0x67, 0x80, 0, 0, 0x67, 0x80, 0, 0], symbols)?;
    let file = make_elf(alloc, &parts)?;
    same(&rt, &file.as_slice(), &NAMES_FILE.as_slice());
    Ok(())
}
