//! Calls with the chunks of a slice.

ghost use Rattle.std.specs.Prelude.{◌<◌};
ghost use Rattle.std.specs.Fork.{AcceptsAt, ChangesAt, AcceptsChunksMut, ChangesChunks, AllInChunks};
ghost use Rattle.std.specs.Fork.Halves.{ChangesByChunks};
ghost use Rattle.parallel.specs.Inner.Chunks.{IsEachChunk};
ghost use Rattle.std.specs.Thread.{IsSend, IsSync};

use std::marker::{Send, Sync};
use std::thread::{Threads, join_mut};

/// Calls `f(start, chunk)` at each chunk that `s.chunks_mut(size)` has, each but the last on a
/// thread of its own, or on the caller's if none can be made. The stack grows with the number of
/// chunks.
pub fn for_each_chunk_mut<R: Threads + Sync, T: Send, F: Fn(usize, &mut [T]) + Sync>(
    rt: &R,
    s: &mut [T],
    size: usize,
    f: &F,
)
    requires size { 0 < size }
    requires accepts { AcceptsChunksMut F.Fn f.now size s.old }
    ensures chunks { ChangesChunks F.Fn f.now size s.old s.new }
    ensures by_index { AllInChunks F.Fn f.now size s.old s.new }
{
    if !s.is_empty() {
        chunks_from(rt, s, 0, size, f);
    }
}

/// `s` begins at the place `base` of the whole slice, where a chunk begins.
#[cycle(chunks)]
fn chunks_from<R: Threads + Sync, T: Send, F: Fn(usize, &mut [T]) + Sync>(
    rt: &R,
    s: &mut [T],
    base: usize,
    size: usize,
    f: &F,
)
    requires { IsEachChunk (AcceptsAt F.Fn f.now) base size s.old }
    ensures { ChangesByChunks (ChangesAt F.Fn f.now) base size s.old s.new }
{
    if s.len() <= size {
        f(base, s);
        return;
    }
    let (first, rest) = s.split_at_mut(size);
    first_and_rest(rt, first, base, rest, base + size, size, f);
}

/// A new thread takes the first chunk. A function of its own, so that what the closures require is
/// what it is given. They are `move` because the borrow checker does not cover two that borrow all
/// this at once.
#[cycle(chunks)]
fn first_and_rest<R: Threads + Sync, T: Send, F: Fn(usize, &mut [T]) + Sync>(
    rt: &R,
    first: &mut [T],
    base: usize,
    rest: &mut [T],
    behind: usize,
    size: usize,
    f: &F,
)
    requires first { IsEachChunk (AcceptsAt F.Fn f.now) base size first.old }
    requires rest { IsEachChunk (AcceptsAt F.Fn f.now) behind size rest.old }
    ensures first { ChangesByChunks (ChangesAt F.Fn f.now) base size first.old first.new }
    ensures rest { ChangesByChunks (ChangesAt F.Fn f.now) behind size rest.old rest.new }
{
    let mut theirs = move ||
        requires { IsSync R.row × IsSync F.row × IsSend T.row
            × IsEachChunk (AcceptsAt F.Fn f.now) base size first.now }
        ensures { ChangesByChunks (ChangesAt F.Fn f.entry.now) base size first.entry.now first.exit.now }
    { chunks_from(rt, first, base, size, f) };
    let mut ours = move ||
        requires { IsSync R.row × IsSync F.row × IsSend T.row
            × IsEachChunk (AcceptsAt F.Fn f.now) behind size rest.now }
        ensures { ChangesByChunks (ChangesAt F.Fn f.entry.now) behind size rest.entry.now rest.exit.now }
    { chunks_from(rt, rest, behind, size, f) };
    join_mut(rt, &mut theirs, &mut ours);
}
