//! The text of a report in parts, which threads draw and make.

ghost use Rattle.std.specs.Prelude.{◌≡◌, ℕ, ◌<◌, ◌≤◌, IfOk, List, All, length, vec_len};
ghost use Rattle.std.specs.Prelude.{slice_index_or};
ghost use Rattle.std.specs.List.{flat_map};
ghost use Rattle.parallel.specs.Lists.{AreMade, all_in, made_in};

use graph_report::{Memory, ReportLines};
use parallel::{MOST_WORKERS, map_drawn};
use std::alloc::Global;
use std::thread::Threads;

/// The parts of the text that there are for each worker. With one each, all would wait for the one
/// that is slowest or begins last; of four each, fast workers draw more.
pub const PARTS_PER_WORKER: usize = 4;

/// The text of these lines, as texts that follow each other, made by `workers` workers, from 1 to
/// 64. With one worker no thread is started. [`Memory`] if memory ran out.
///
/// The lines are cut into four parts for each worker, and up to four more, since none has lines of
/// two sections. The blocks of one function stay together. The workers draw one part after another.
///
/// Time: that of [`ReportLines::text`], shared among the workers, and O(functions) on the caller's
/// thread. Memory: O(t) for t bytes of text.
pub fn text_by<R: Threads + Sync>(
    rt: &R,
    alloc: Global,
    lines: ReportLines,
    workers: u32,
) -> Result<Vec<Vec<u8>>, Memory>
    requires some { 1 ≤ workers }
    requires most { workers ≤ MOST_WORKERS }
    ensures text { IfOk result (λ texts. all_in texts.items ≡ lines.entry) }
{
    let workers = workers as usize;
    let parts = parts_of(alloc, lines, PARTS_PER_WORKER * workers)?;
    let texts = made_by_part(rt, alloc, &parts, workers)?;
    if_made(alloc, texts)
}

/// These lines in this many parts of about the same number of lines, and up to four more, and an
/// empty one.
fn parts_of<'a>(
    alloc: Global,
    mut lines: ReportLines<'a>,
    count: usize,
) -> Result<Vec<ReportLines<'a>>, Memory>
    requires some { 0 < count }
    requires few { count ≤ 256 }
    ensures { IfOk result (λ parts. flat_map (λ part. part) parts.items ≡ lines.entry) }
{
    let size = lines.count().div_ceil(count);
    let mut parts = Vec::with_capacity(alloc, count + 5)?;
    for _ in 0..count + 4 {
        parts.push(lines.cut(size))?;
    }
    parts.push(lines)?;
    Ok(parts)
}

/// The text of each part, made by several threads, in the order of the parts.
fn made_by_part<R: Threads + Sync>(
    rt: &R,
    alloc: Global,
    parts: &[ReportLines],
    workers: usize,
) -> Result<Vec<Result<Vec<u8>, Memory>>, Memory>
    ensures as_many { IfOk result (λ v. vec_len v ≡ length parts.now) }
    ensures each { IfOk result (λ v. (i : ℕ) (d : _) (e : _) → i < length parts.now
        → IfOk (slice_index_or v.items i e) (λ text. text.items ≡ slice_index_or parts.now i d)) }
{
    let make = |i: usize| -> Result<Vec<u8>, Memory>
        requires { i < length parts.now }
        ensures { IfOk result
            (λ text. (d : _) → text.items ≡ slice_index_or parts.entry.now i d) }
    { parts[i].text(alloc) };
    Ok(map_drawn(rt, alloc, workers, parts.len(), &make)?)
}

/// These texts, or the first of their errors.
fn if_made(alloc: Global, texts: Vec<Result<Vec<u8>, Memory>>) -> Result<Vec<Vec<u8>>, Memory>
    ensures made { IfOk result (λ _. All AreMade texts.items) }
    ensures texts { IfOk result (λ v. all_in v.items ≡ flat_map made_in texts.items) }
{
    let mut made = Vec::with_capacity(alloc, texts.len())?;
    for text in texts {
        made.push(text?)?;
    }
    Ok(made)
}
