//! Calls at numbers, by some counts, and with chunks, of some sizes.

use crate::asserts::same;
use parallel::{for_each_chunk_mut, map_indices};
use std::test::Fail;

#[test]
fn results_in_order(rt: HostRuntime) -> Result<(), Fail> {
    for count in [0, 1, 2, 3, 4, 64] {
        let squares = map_indices(&rt, rt.alloc(), count, &|i: usize| i.wrapping_mul(i))?;
        same(&rt, &squares.len(), &count);
        for i in 0..count {
            same(&rt, &squares.get(i), &Some(&i.wrapping_mul(i)));
        }
    }
    Ok(())
}

#[test]
fn each_place_once(rt: HostRuntime) -> Result<(), Fail> {
    for size in [1, 3, 4, 10, 64] {
        let mut numbers = Vec::new(rt.alloc());
        for i in 0..10usize {
            numbers.push(100 * i)?;
        }
        for_each_chunk_mut(
            &rt,
            &mut numbers,
            size,
            &|start, part: &mut [usize]| {
                for k in 0..part.len() {
                    part[k] = part[k].wrapping_add(start.wrapping_add(k));
                }
            },
        );
        for i in 0..10usize {
            same(&rt, &numbers.get(i), &Some(&(101 * i)));
        }
    }
    Ok(())
}
