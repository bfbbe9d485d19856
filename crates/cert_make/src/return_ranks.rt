//! The ranks that the table of the terminators that return begins with.

ghost use Rattle.std.specs.Prelude.{◌≡◌, Some};
ghost use Rattle.cfg_model.specs.Program.Instructions.{flow_at};
ghost use Rattle.cert_make.specs.Inner.Returns.{AreFlows};

use crate::levels::Levels;
use cert_ends::{NumberedReturns, find_successors, returns_by_itself};
use cert_text::ReturnLine;
use cfg_model::{Flow, Memory};
use numbered::Numbered;
use std::alloc::Global;

/// A terminator that may return once another does. Those that wait for the same one are a list.
#[derive(Clone, Copy)]
struct Wait {
    /// The place of the one that waits.
    from: usize,
    /// The number of the wait before this one for the same terminator, from 1 on; 0 if there is none.
    before: usize,
}

/// Which terminators wait for which.
#[derive(Drop)]
struct Waiting {
    waits: Vec<Wait>,
    /// By place, the number of the last wait for it, from 1 on; 0 if there is none.
    last: Vec<usize>,
    /// For how many each of them has to wait: a call waits for two.
    left: Vec<u8>,
}

/// The ranks of the terminators of these lines, by levels. [`Memory`] if memory ran out.
///
/// `flows` are their flows, and `returns` finds the same lines.
/// Time: O(successors of all these terminators).
/// Memory: 16 bytes for each successor, and 25 for each terminator.
pub(crate) fn return_ranks<C: Numbered>(
    alloc: Global,
    code: &C,
    lines: &[ReturnLine],
    flows: &[Flow],
    returns: &NumberedReturns<'_>,
) -> Result<Levels, Memory>
    requires flows { AreFlows (C.map code.now) lines.now flows.now }
{
    let mut levels = Levels::new(alloc, lines.len())?;
    let mut waiting = Waiting {
        waits: Vec::new(alloc),
        last: vec![in alloc; 0; lines.len()]?,
        left: vec![in alloc; 1; lines.len()]?,
    };
    let mut ways = Vec::new(alloc);
    for i in 0..lines.len() {
        let flow = flows[i];
        if returns_by_itself(flow) {
            levels.give(i, 0)?;
        } else {
            find_ways(code, lines[i].at, flow, &mut ways)?;
            add_waits(code, returns, i, ways.as_slice(), &mut waiting)?;
            wait_twice(flow, i, &mut waiting.left);
        }
    }
    spread(waiting, lines.len(), &mut levels)?;
    Ok(levels)
}

/// Lets the terminator at this place wait for two ways if it is a call.
fn wait_twice(flow: Flow, place: usize, left: &mut Vec<u8>) {
    if let Flow::Call { .. } = flow {
        if let Some(left) = left.get_mut(place) {
            *left = 2;
        }
    }
}

/// Puts the addresses by which the instruction at `k`, whose flow this is, may return in place of
/// the items of `ways`: its successors, and both ways of a call. A call waits for two of them, so its
/// landing pad is there twice.
fn find_ways<C: Numbered>(code: &C, k: u64, flow: Flow, ways: &mut Vec<u64>) -> Result<(), Memory>
    requires { flow_at (C.map code.now) k ≡ Some flow }
{
    find_successors(code, k, flow, ways)?;
    if let Flow::Call { target, fall } = flow {
        if let Some(pad) = ways.first().copied() {
            ways.push(pad)?;
        }
        if let Some(fall) = fall {
            ways.push(target)?;
            ways.push(fall)?;
        }
    }
    Ok(())
}

/// Lets the terminator at place `from` wait for the ends of the chains of these addresses, if they
/// are listed.
fn add_waits<C: Numbered>(
    code: &C,
    returns: &NumberedReturns<'_>,
    from: usize,
    ways: &[u64],
    waiting: &mut Waiting,
) -> Result<(), Memory> {
    for a in ways {
        // All of them are code, but nothing here rests on that.
        if code.has(*a) {
            let number = code.number(code.term(*a)) as usize;
            match returns.places.get(number) {
                Some(place) if *place > 0 => add_wait(from, *place as usize - 1, waiting)?,
                _ => (),
            }
        }
    }
    Ok(())
}

/// Lets the terminator at place `from` wait for that at place `to`.
fn add_wait(from: usize, to: usize, waiting: &mut Waiting) -> Result<(), Memory> {
    if let Some(last) = waiting.last.get_mut(to) {
        waiting.waits.push(Wait {
            from,
            before: *last,
        })?;
        *last = waiting.waits.len();
    }
    Ok(())
}

/// Gives the terminators their ranks, each once all that it has to wait for have theirs.
fn spread(mut waiting: Waiting, count: usize, levels: &mut Levels) -> Result<(), Memory> {
    for n in 0..count {
        match levels.nth(n) {
            Some((place, rank)) => tell(&mut waiting, place, rank, levels)?,
            None => return Ok(()),
        }
    }
    Ok(())
}

/// Tells all that wait for the terminator at this place that it has its rank.
fn tell(waiting: &mut Waiting, place: usize, rank: u32, levels: &mut Levels) -> Result<(), Memory> {
    let mut number = match waiting.last.get(place) {
        Some(last) => *last,
        None => 0,
    };
    for _step in 0..waiting.waits.len() {
        if number == 0 {
            return Ok(());
        }
        let Some(wait) = waiting.waits.get(number - 1).copied() else {
            return Ok(());
        };
        if is_last(&mut waiting.left, wait.from) {
            levels.give(wait.from, rank.saturating_add(1))?;
        }
        number = wait.before;
    }
    Ok(())
}

/// Counts down at this place, and tells whether nothing is left there.
fn is_last(left: &mut Vec<u8>, place: usize) -> bool {
    match left.get_mut(place) {
        Some(left) => {
            *left = left.saturating_sub(1);
            *left == 0
        }
        None => false,
    }
}
