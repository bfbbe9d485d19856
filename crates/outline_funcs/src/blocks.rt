//! Blocks by their numbers: their places in the list of all blocks.

ghost use Rattle.std.specs.Prelude.{◌<◌, ◌≤◌, AllPairs, IfSome, IfNone, length};
ghost use Rattle.cfg_model.specs.Graph.Graph.{BlockBefore};
ghost use Rattle.outline_funcs.specs.Inner.Blocks.{HasBlockAt, IsNumber};

use cfg_model::Block;

/// How far before a block or after it another one is looked for first.
const NEAR: usize = 64;

/// The place of the block that starts at `a` among these blocks. Most often it lies right after
/// block `i`, or is that block.
pub(crate) fn number_near(blocks: &[Block], i: usize, a: u64) -> usize
    requires blocks { AllPairs BlockBefore blocks.now }
    requires starts { HasBlockAt blocks.now a }
    requires within { i < length blocks.now }
    ensures { IsNumber blocks.now result a }
{
    if i + 1 < blocks.len() && blocks[i + 1].start == a {
        return i + 1;
    }
    if blocks[i].start == a {
        return i;
    }
    number_far(blocks, i, a)
}

/// The same of a block that does not. It lies near block `i` most often. This is a function of its
/// own, so that what it needs is not made ready for each block.
#[inline(never)]
fn number_far(blocks: &[Block], i: usize, a: u64) -> usize
    requires blocks { AllPairs BlockBefore blocks.now }
    requires starts { HasBlockAt blocks.now a }
    requires within { i < length blocks.now }
    ensures { IsNumber blocks.now result a }
{
    let (first, behind) = range_of(blocks, i, a);
    match number_among(&blocks[first..behind], a) {
        Some(place) => first + place,
        None => number_of(blocks, a),
    }
}

/// Where the block that starts at `a` is looked for: near block `i`, on its side of that, or else
/// beyond. The first place of that range, and the one after its last.
fn range_of(blocks: &[Block], i: usize, a: u64) -> (usize, usize)
    requires within { i < length blocks.now }
    ensures rises { result.0 ≤ result.1 }
    ensures within { result.1 ≤ length blocks.now }
{
    if a < blocks[i].start {
        let first = i.saturating_sub(NEAR);
        return if a < blocks[first].start {
            (0, first)
        } else {
            (first, i)
        };
    }
    let behind = blocks.len().min(i.saturating_add(NEAR));
    if behind < blocks.len() && blocks[behind].start <= a {
        (behind, blocks.len())
    } else {
        (i, behind)
    }
}

/// The place of the block that starts at `a` among these blocks.
pub(crate) fn number_of(blocks: &[Block], a: u64) -> usize
    requires blocks { AllPairs BlockBefore blocks.now }
    requires starts { HasBlockAt blocks.now a }
    ensures { IsNumber blocks.now result a }
{
    match number_among(blocks, a) {
        Some(i) => i,
        None => unreachable!(),
    }
}

/// The place of the block that starts at `a` among these blocks, if there is one.
fn number_among(blocks: &[Block], a: u64) -> Option<usize>
    requires { AllPairs BlockBefore blocks.now }
    ensures some { IfSome result (λ i. IsNumber blocks.now i a) }
    ensures none { IfNone result (¬ HasBlockAt blocks.now a) }
{
    match blocks.binary_search_by_key(&a, |block| block.start) {
        Ok(i) => Some(i),
        Err(_) => None,
    }
}
