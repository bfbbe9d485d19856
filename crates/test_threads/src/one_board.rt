//! The worked row on a board, a change of each kind, and what may cross threads.
ghost use Rattle.std.specs.Prelude.{◌≡◌};
ghost use Rattle.std.specs.Option.{option_map};
ghost use Rattle.cfg_model.specs.Program.Instructions.{IsLawful};
ghost use Rattle.board.specs.Seat.{HoldsNothing};
ghost use Rattle.test_threads.specs.Sample.{return_and_table};

use crate::asserts::{holds, same};
use board::{Board, Seat};
use cfg_model::{Chains, Flow, Memory};
use core_state::{Job, PlaceEnd, ShardKind};
use std::alloc::Global;
use std::process::Abort;
use std::test::Fail;

/// A program with a return, a jump through a table to it, and a call that lands at it.
#[derive(Drop)]
struct Program {
    alloc: Global,
}

/// The length and the flow of its instruction at `a`.
fn instruction(a: u64) -> Option<(u8, Flow)>
    ensures found { result ≡ option_map (λ i. record { 0 = i.bytes; 1 = i.flow })
        (return_and_table a) }
    ensures lawful { IsLawful return_and_table }
{
    match a {
        0xC0 => Some((4, Flow::Return)),
        0x140 => Some((
            4,
            Flow::Table {
                entries: 1,
                full: true,
                is_open: false,
            },
        )),
        0x1C0 => Some((4, Flow::IndirectCall { fall: None })),
        _ => None,
    }
}

impl Chains for Program {
    ghost use Rattle.test_threads.specs.Sample.{return_and_table};

    ghost map = { λ _. return_and_table };

    fn has(&self, a: u64) -> bool {
        instruction(a).is_some()
    }

    fn flow(&self, a: u64) -> Flow {
        match instruction(a) {
            Some((_, flow)) => flow,
            None => unreachable!(),
        }
    }

    fn length(&self, a: u64) -> u8 {
        match instruction(a) {
            Some((bytes, _)) => bytes,
            None => unreachable!(),
        }
    }

    fn targets(&self, a: u64) -> Result<Vec<u64>, Memory> {
        match a {
            0x140 | 0x1C0 => Ok(Vec::from_slice(self.alloc, &[0xC0])?),
            _ => Ok(Vec::new(self.alloc)),
        }
    }

    fn landing(&self, a: u64) -> Option<u64> {
        let _found = instruction(a);
        (a == 0x1C0).then_some(0xC0)
    }
}

/// Work on that program, from the return and from the jump.
struct Task;

impl Job for Task {
    ghost use Rattle.test_threads.specs.Sample.{return_and_table, two_seeds};

    ghost map = { return_and_table };

    ghost seeds = { two_seeds };
}

fn shared<T: Sync>(_value: &T) {}

fn sent<T: Send>(value: T) -> T
    ensures { result ≡ value }
{
    value
}

// Shard 3 of the starts is in other hands. The seat finds it busy, and makes its changes at another
// shard.
fn works_beside<R: Abort>(rt: &R, board: &Board<Task>, seat: &mut Seat<Task>)
    requires own { seat.old.board ≡ board.now }
    requires nothing { HoldsNothing seat.old }
    ensures board { seat.new.board ≡ seat.old.board }
    ensures share { seat.new.share ≡ seat.old.share }
    ensures holds { seat.new.holds ≡ seat.old.holds }
{
    let busy = PlaceEnd::Busy {
        kind: ShardKind::Starts,
        shard: 3,
    };
    same(rt, &seat.want(board, 0xC0), &Err(busy));
    same(rt, &seat.want(board, 0x140), &Ok(true));
    same(rt, &seat.want(board, 0x140), &Ok(false));
    same(rt, &seat.has_start(board, 0x140), &Ok(true));
    same(rt, &seat.start_behind(board, 0x13F), &Ok(None));
}

// Row 24, its part on a board.
#[test]
fn a_held_shard_is_busy(rt: HostRuntime) -> Result<(), Fail> {
    let code = Program { alloc: rt.alloc() };
    let (board, seat) = Board::<Task>::new(rt.alloc(), &code)?;
    shared(&board);
    let (mut first, second) = seat.split(&board);
    let mut second = sent(second);
    let Ok(held) = first.hold(&board, ShardKind::Starts, 3) else {
        panic!(rt; "no seat holds it")
    };
    works_beside(&rt, &board, &mut second);
    first.let_go(&board, held);
    let seat = first.join(&board, second);
    let state = board.close(rt.alloc(), seat)?;
    same(&rt, &state.start(0xC0), &None);
    holds(&rt, state.start(0x140).is_some());
    Ok(())
}
