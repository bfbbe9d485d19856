//! Lists that were made piece by piece, put together.

ghost use Rattle.std.specs.Prelude.{◌≡◌, ◌++◌, IfOk, All};
ghost use Rattle.std.specs.List.{flat_map};
ghost use Rattle.parallel.specs.Lists.{AreMade, all_in, made_in};

use std::alloc::{AllocError, Global};

/// These lists, one after another. The first of them is given room for all items and goes on with
/// the others, which spares a copy of it if the allocator can extend it.
pub fn joined<T: Drop>(alloc: Global, mut lists: Vec<Vec<T>>) -> Result<Vec<T>, AllocError>
    ensures { IfOk result (λ v. v.items ≡ all_in lists.items) }
{
    if lists.is_empty() {
        return Ok(Vec::new(alloc));
    }
    let count = length_of(&lists);
    let mut all = lists.remove(0);
    all.reserve(count.saturating_sub(all.len()))?;
    appended(all, lists)
}

/// These items, and after them all these lists, one after another. Each list is freed when it was
/// appended.
fn appended<T: Drop>(mut all: Vec<T>, lists: Vec<Vec<T>>) -> Result<Vec<T>, AllocError>
    ensures { IfOk result (λ v. v.items ≡ all.items ++ all_in lists.items) }
{
    for mut list in lists {
        all.append(&mut list)?;
    }
    Ok(all)
}

/// How many items these lists have together; `usize::MAX` if there are more.
fn length_of<T>(lists: &[Vec<T>]) -> usize {
    let mut count = 0_usize;
    for list in lists {
        count = count.saturating_add(list.len());
    }
    count
}

/// All these lists, one after another, or the first of their errors. The first of them is given
/// room for all items and goes on with the others, which spares a copy of it if the allocator can
/// extend it.
pub fn joined_if_made<T: Drop>(
    alloc: Global,
    mut lists: Vec<Result<Vec<T>, AllocError>>,
) -> Result<Vec<T>, AllocError>
    ensures made { IfOk result (λ v. All AreMade lists.items) }
    ensures joined { IfOk result (λ v. v.items ≡ flat_map made_in lists.items) }
{
    if lists.is_empty() {
        return Ok(Vec::new(alloc));
    }
    let count = length_made(&lists);
    let mut all = lists.remove(0)?;
    all.reserve(count.saturating_sub(all.len()))?;
    appended_if_made(all, lists)
}

/// These items, and after them all these lists, one after another, or the first of their errors.
pub fn appended_if_made<T: Drop>(
    mut all: Vec<T>,
    lists: Vec<Result<Vec<T>, AllocError>>,
) -> Result<Vec<T>, AllocError>
    ensures made { IfOk result (λ v. All AreMade lists.items) }
    ensures appended { IfOk result (λ v. v.items ≡ all.items ++ flat_map made_in lists.items) }
{
    for list in lists {
        all.append(&mut list?)?;
    }
    Ok(all)
}

/// How many items those of these lists have together that were made; `usize::MAX` if there are more.
fn length_made<T>(lists: &[Result<Vec<T>, AllocError>]) -> usize {
    let mut count = 0_usize;
    for list in lists {
        if let Ok(list) = list {
            count = count.saturating_add(list.len());
        }
    }
    count
}
