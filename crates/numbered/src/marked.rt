//! The addresses that are marked, in their order.

ghost use Rattle.std.specs.Prelude.{◌≡◌, ◌↔◌, ℕ, All, Contains, IfOk, IsSome, IsTrue, true, false};
ghost use Rattle.std.specs.Prelude.{◌<◌, ◌^◌, get_or, length};
ghost use Rattle.std.specs.List.{filter};
ghost use Rattle.std.specs.List.Sorted.{IsStrictlyIncreasing};
ghost use Rattle.numbered.specs.Numbering.{IsFirstMarked, IsMarked, IsMarkedAt, IsMarkedBetween};

use crate::numbered::Numbered;
use cfg_model::Memory;
use std::alloc::Global;

/// The addresses whose marks, by number, are set; rising. [`Memory`] if memory ran out.
/// Time: linear in the numbers. Memory: eight bytes for each of these addresses.
pub fn marked_addresses<C: Numbered>(
    alloc: Global,
    code: &C,
    marks: &[bool],
) -> Result<Vec<u64>, Memory>
    ensures rising { IfOk result (λ v. IsStrictlyIncreasing v.items) }
    ensures exact { IfOk result (λ v. (a : ℕ) → Contains v.items a
        ↔ IsMarked (C.map code.now) (C.number code.now) marks.now a) }
{
    marked_between(alloc, code, marks, 0, marks.len())
}

/// Those of these addresses whose numbers are `from` and more, but below `until`; rising.
/// [`Memory`] if memory ran out. Time: linear in these numbers. Memory: eight bytes for each of
/// these addresses.
pub fn marked_between<C: Numbered>(
    alloc: Global,
    code: &C,
    marks: &[bool],
    from: usize,
    until: usize,
) -> Result<Vec<u64>, Memory>
    ensures rising { IfOk result (λ v. IsStrictlyIncreasing v.items) }
    ensures exact { IfOk result (λ v. (a : ℕ) → Contains v.items a
        ↔ IsMarkedBetween (C.map code.now) (C.number code.now) marks.now from until a) }
{
    let end = until.min(marks.len()).min(code.numbers() as usize);
    let mut addresses = Vec::new(alloc);
    for n in from..end {
        if let Some(a) = marked_at(code, marks, n) {
            addresses.push(a)?;
        }
    }
    Ok(addresses)
}

/// The first of these addresses whose number is `from` or more, if there is one.
/// Time: linear in the numbers from there to its own.
pub fn first_marked<C: Numbered>(code: &C, marks: &[bool], from: usize) -> Option<u64>
    ensures { IsFirstMarked (C.map code.now) (C.number code.now) marks.now from result }
{
    let end = marks.len().min(code.numbers() as usize);
    for n in from..end {
        if let Some(a) = marked_at(code, marks, n) {
            return Some(a);
        }
    }
    None
}

/// The address with the number `n`, if there is one and its mark is set.
fn marked_at<C: Numbered>(code: &C, marks: &[bool], n: usize) -> Option<u64>
    requires within { n < length marks.now }
    requires fits { n < 2 ^ 32 }
    ensures { IsMarkedAt (C.map code.now) (C.number code.now) marks.now n result }
{
    if marks[n] {
        code.address(n as u32)
    } else {
        None
    }
}

/// Those of these addresses whose marks, by number, are set, in the same order. [`Memory`] if memory
/// ran out. Time: linear in these addresses. Memory: eight bytes for each that is marked.
pub fn marked_among<C: Numbered>(
    alloc: Global,
    code: &C,
    marks: &[bool],
    addresses: &[u64],
) -> Result<Vec<u64>, Memory>
    requires { All (λ a. IsSome (C.map code.now a)) addresses.now }
    ensures { IfOk result (λ v. v.items
        ≡ filter (λ a. get_or marks.now (C.number code.now a) false) addresses.now) }
{
    let mut marked = Vec::new(alloc);
    for &a in addresses {
        if marks.get(code.number(a) as usize) == Some(&true) {
            marked.push(a)?;
        }
    }
    Ok(marked)
}
