//! The ranks that the table of the leaders begins with.

use crate::exits::Exit;
use crate::levels::Levels;
use crate::links::Links;
use crate::runs::Run;
use cfg_model::Memory;
use std::alloc::Global;

/// What is known of the blocks of the leaders, by their places.
#[derive(Drop)]
struct Blocks {
    /// Whether a leader that has a rank lies upstream.
    covered: Vec<bool>,
    /// How many of the blocks that go on into this one are covered.
    sides: Vec<u8>,
}

/// The ranks of these leaders, by levels. [`Memory`] if memory ran out.
///
/// `links` are those of the leaders, and `seeds` rise.
/// Time: O(seeds + leaders + ways). Memory: 26 bytes for each leader.
pub(crate) fn lead_ranks(
    alloc: Global,
    seeds: &[u64],
    leaders: &[u64],
    links: &Links,
) -> Result<Levels, Memory> {
    let starts = starts_of(alloc, links.ends.terms.len(), links.exits.as_slice())?;
    let mut levels = Levels::new(alloc, leaders.len())?;
    give_seeds(seeds, leaders, &mut levels)?;
    let mut blocks = Blocks {
        covered: vec![in alloc; false; leaders.len()]?,
        sides: vec![in alloc; 0; leaders.len()]?,
    };
    for n in 0..leaders.len() {
        let Some((place, rank)) = levels.nth(n) else {
            return Ok(levels);
        };
        let next = rank.saturating_add(1);
        if cover(links.runs.as_slice(), place, next, &mut blocks, &mut levels)? {
            take_exits(links, starts.as_slice(), place, next, &mut levels)?;
        }
    }
    Ok(levels)
}

/// Gives the seeds among these leaders their rank. Both lists rise.
fn give_seeds(seeds: &[u64], leaders: &[u64], levels: &mut Levels) -> Result<(), Memory> {
    let mut i: usize = 0;
    for seed in seeds {
        i = i.saturating_add(count_below(leaders.get(i..), *seed));
        if leaders.get(i) == Some(seed) {
            levels.give(i, 0)?;
        }
    }
    Ok(())
}

/// How many addresses stand before the first that does not lie below `a`.
fn count_below(addresses: Option<&[u64]>, a: u64) -> usize {
    match addresses {
        Some(addresses) => match addresses.iter().position(|x| *x >= a) {
            Some(count) => count,
            None => addresses.len(),
        },
        None => 0,
    }
}

/// By the place of an end, where its ways begin, and one place more.
fn starts_of(alloc: Global, ends: usize, exits: &[Exit]) -> Result<Vec<usize>, Memory> {
    let mut starts = Vec::new(alloc);
    for (i, exit) in exits.iter().enumerate() {
        fill(&mut starts, exit.end, i)?;
    }
    fill(&mut starts, ends, exits.len())?;
    Ok(starts)
}

/// Puts this number at each free place up to the last of these.
fn fill(numbers: &mut Vec<usize>, last: usize, number: usize) -> Result<(), Memory> {
    let missing = last.saturating_add(1).saturating_sub(numbers.len());
    for _place in 0..missing {
        numbers.push(number)?;
    }
    Ok(())
}

/// Covers the block at this place and all those that come after it, as far as they are not covered,
/// and gives the joins that are met there their rank. It tells whether the end of the chain was
/// reached, so that what it leads to is to get that rank too.
fn cover(
    runs: &[Run],
    place: usize,
    rank: u32,
    blocks: &mut Blocks,
    levels: &mut Levels,
) -> Result<bool, Memory> {
    let mut at = place;
    for _step in 0..runs.len() {
        if !is_new(&mut blocks.covered, at) {
            return Ok(false);
        }
        match runs.get(at) {
            Some(
                Run {
                    into: Some(into),
                    ..
                },
            ) => {
                if is_second(&mut blocks.sides, *into) {
                    levels.give(*into, rank)?;
                }
                at = *into;
            }
            _ => return Ok(true),
        }
    }
    Ok(false)
}

/// Marks this place, and tells whether it was not marked before.
fn is_new(covered: &mut Vec<bool>, place: usize) -> bool {
    match covered.get_mut(place) {
        Some(covered) => {
            let new = !*covered;
            *covered = true;
            new
        }
        None => false,
    }
}

/// Counts up at this place, and tells whether it was once counted before.
fn is_second(sides: &mut Vec<u8>, place: usize) -> bool {
    match sides.get_mut(place) {
        Some(sides) => {
            *sides = sides.saturating_add(1);
            *sides == 2
        }
        None => false,
    }
}

/// Gives this rank to all leaders to which the end of the chain of the leader at this place goes.
fn take_exits(
    links: &Links,
    starts: &[usize],
    place: usize,
    rank: u32,
    levels: &mut Levels,
) -> Result<(), Memory> {
    let Some(end) = links.ends.of.get(place) else {
        return Ok(());
    };
    for exit in exits_from(links.exits.as_slice(), starts, *end) {
        levels.give(exit.to, rank)?;
    }
    Ok(())
}

/// The ways from the end at this place.
fn exits_from<'a>(exits: &'a [Exit], starts: &[usize], end: usize) -> &'a [Exit] {
    match starts.get(end..) {
        Some([first, after, ..]) => exits.get(*first..*after).unwrap_or(&[]),
        _ => &[],
    }
}
