//! The reaches of a code section, made by several threads.

ghost use Rattle.std.specs.Prelude.{◌≡◌, ℕ, ◌+◌, ◌*◌, ◌/◌, ◌≤◌, ◌<◌, IfOk, length};
ghost use Rattle.std.specs.Prelude.{slice_index_or};
ghost use Rattle.elf_image.specs.Architecture.{extensions_of};
ghost use Rattle.chain_index.specs.Found.{IsCodeOf, AreReaches};
ghost use Rattle.chain_index.specs.Inner.{Reaches, ReachesFrom, IsReach};

use crate::Memory;
use crate::reach::{pass_back, room_for, section_reaches};
use elf_image::{Image, Section};
use parallel::for_each_chunk_mut;
use rv_flow::StraightForms;
use std::alloc::Global;
use std::thread::Threads;

/// How many halfwords a section has at least for which threads are started.
const LEAST_SHARED: u64 = 1 << 16;

/// How many of the workers a section of this many halfwords takes: one, if it is short.
pub(crate) fn workers_for(halfwords: u64, workers: usize) -> usize
    requires { 0 < workers }
    ensures { 0 < result }
{
    if halfwords < LEAST_SHARED { 1 } else { workers }
}

/// The answer of [`section_reaches`]. Each worker makes the reaches of a range. If there are
/// several workers, each has forms of its own.
pub(crate) fn reaches_by<R: Threads + Sync>(
    rt: &R,
    alloc: Global,
    image: &Image,
    forms: &mut StraightForms,
    s: Section,
    behind: Option<u32>,
    workers: usize,
) -> Result<Vec<u32>, Memory>
    requires forms { forms.old ≡ extensions_of image.now }
    requires section { IsCodeOf image.now s }
    requires behind { Reaches image.now (s.address + 2 * (s.size / 2)) behind }
    requires workers { 0 < workers }
    ensures kept { forms.new ≡ forms.old }
    ensures size { IfOk result (λ reaches. length reaches.items ≡ s.size / 2) }
    ensures reaches { IfOk result (λ reaches. AreReaches image.now s.address reaches.items) }
{
    if workers == 1 {
        return section_reaches(alloc, image, forms, s, behind);
    }
    let mut reaches = room_for(alloc, s, behind)?;
    pass_all(rt, alloc, image, s, behind, &mut reaches, workers);
    Ok(reaches)
}

/// Makes the reaches of all halfwords, a range of them on a thread of its own for each worker. Each
/// decodes for itself, so that nothing has to be decoded before the threads start.
fn pass_all<R: Threads + Sync>(
    rt: &R,
    alloc: Global,
    image: &Image,
    s: Section,
    behind: Option<u32>,
    reaches: &mut [u32],
    workers: usize,
)
    requires section { IsCodeOf image.now s }
    requires behind { ReachesFrom image.now s (s.size / 2) behind }
    requires size { length reaches.old ≡ s.size / 2 }
    requires workers { 0 < workers }
    ensures { (i d : ℕ) → i < length reaches.old
        → IsReach image.now s i (slice_index_or reaches.new i d) }
{
    let share = reaches.len() / workers + 1;
    for_each_chunk_mut(
        rt,
        reaches,
        share,
        &|from, part| {
            let mut forms = StraightForms::new(alloc, *image.extensions());
            pass_back(image, &mut forms, s, behind, from, part)
        },
    );
}
