//! The worked programs, asked as the programs that they are.

use crate::asserts::{holds, same, same_at};
use cfg_model::{Chains, Flow, before, meet, on_chain, term};
use std::test::Fail;
use test_programs::{Sample, cut_table, row_6, row_8, row_9, row_10, row_12, row_17, table_jump};

/// Where instructions stand in each of the programs, and which of them are seeds.
#[test]
fn instructions(rt: HostRuntime) {
    let programs: [(Sample, &[u64], &[u64]); 8] = [
        (row_6(rt.alloc()), &[0, 4, 8, 12], &[0]),
        (row_8(rt.alloc()), &[0, 2, 4, 8], &[0]),
        (row_9(rt.alloc()), &[0, 4], &[0]),
        (row_10(rt.alloc()), &[0, 4, 8, 12, 16], &[0]),
        (row_12(rt.alloc()), &[0, 4], &[0]),
        (row_17(rt.alloc()), &[0, 4, 8, 12], &[0, 12]),
        (table_jump(rt.alloc()), &[0, 2, 4], &[0]),
        (cut_table(rt.alloc()), &[0, 2, 4], &[0]),
    ];
    for (code, addresses, seeds) in &programs {
        same(&rt, &code.seeds(), seeds);
        for a in 0..24 {
            same_at(&rt, &a, &code.has(a), &addresses.contains(&a));
        }
    }
}

/// The flow and the length of an instruction, and the targets of a table jump.
#[test]
fn one_instruction(rt: HostRuntime) -> Result<(), Fail> {
    let table = Flow::Table {
        entries: 2,
        full: true,
        is_open: false,
    };
    let code = Sample {
        alloc: rt.alloc(),
        slots: &[Some((2, table)), None, Some((4, Flow::Return))],
        targets: &[2, 0],
        seeds: &[0],
    };
    same(&rt, &code.flow(0), &table);
    same(&rt, &code.length(2), &4);
    let targets = code.targets(0)?;
    assert_eq!(rt; targets.as_slice(), [2, 0].as_slice());
    holds(&rt, code.targets(2)?.is_empty());
    Ok(())
}

/// Places on the chains of two streams of instructions that meet at 4.
#[test]
fn places_on_chains(rt: HostRuntime) {
    let code = row_8(rt.alloc());
    assert!(rt; code.has(0) && code.has(2) && code.has(4));
    assert!(rt; on_chain(&code, 0, 4));
    assert!(rt; on_chain(&code, 2, 4));
    holds(&rt, !on_chain(&code, 4, 2));
    same(&rt, &term(&code, 0), &4);
    same(&rt, &before(&code, 2, 4), &2);
    same(&rt, &meet(&code, 0, 2, 4), &4);
}
