//! The live registers of all functions, made by several workers.

ghost use Rattle.std.specs.Prelude.{◌≡◌, ℕ, ◌*◌, ◌<◌, ◌≤◌, All, IfOk};
ghost use Rattle.std.specs.Prelude.{length, slice_index_or, vec_len};
ghost use Rattle.std.specs.List.Sorted.{IsStrictlyIncreasing};
ghost use Rattle.live_regs.specs.Masks.{AreAllLivesOf};
ghost use Rattle.live_regs.specs.Noted.{AreEffectsFrom, AreInOrder, AreNotesOf, IsNoted};
ghost use Rattle.live_crew.specs.Inner.{HasRisingBody};

use crate::by_one::{all_lives, lives_of, piece_count};
use crate::pieces::pieces_of;
use cfg_model::{AllLives, Block, Edge, Function, Graph, Lives, Memory};
use elf_image::Image;
use live_regs::{Effects, PIECE_BLOCKS, Program, effects_of_piece};
use parallel::{MOST_WORKERS, joined_if_made, map_drawn};
use std::alloc::Global;
use std::thread::Threads;

/// The answer of [`graph_lives`](crate::graph_lives), made by `workers` workers, from 1 to 64. With
/// one worker no thread is started. [`Memory`] if memory ran out.
///
/// The workers draw pieces of about 1,000 blocks, one after another: first of all blocks, to find
/// what each reads and writes, and then of the functions.
///
/// Time: that of [`graph_lives`](crate::graph_lives), shared among the workers, and O(functions) on
/// the caller's thread. Memory: 24 bytes a function more, and for each worker O(blocks + edges) of
/// the largest function.
pub fn graph_lives_by<R: Threads + Sync>(
    rt: &R,
    alloc: Global,
    image: &Image,
    graph: &Graph,
    workers: u32,
) -> Result<AllLives, Memory>
    requires some { 1 ≤ workers }
    requires most { workers ≤ MOST_WORKERS }
    requires order { AreInOrder graph.now.blocks graph.now.edges }
    requires bodies { All (λ f. IsStrictlyIncreasing f.body) graph.now.functions }
    ensures { IfOk result (AreAllLivesOf image.now graph.now.blocks graph.now.edges
        graph.now.functions) }
{
    let all = lives_shared(
        rt,
        alloc,
        image,
        graph.blocks.as_slice(),
        graph.edges.as_slice(),
        graph.functions.as_slice(),
        workers,
    )?;
    Ok(AllLives::from_vec(all))
}

/// The answer of [`all_lives`], made by this many workers.
fn lives_shared<R: Threads + Sync>(
    rt: &R,
    alloc: Global,
    image: &Image,
    blocks: &[Block],
    edges: &[Edge],
    functions: &[Function],
    workers: u32,
) -> Result<Vec<Lives>, Memory>
    requires order { AreInOrder blocks.now edges.now }
    requires bodies { All HasRisingBody functions.now }
    ensures { IfOk result
        (λ v. AreAllLivesOf image.now blocks.now edges.now functions.now v.items) }
{
    if workers <= 1 {
        return all_lives(alloc, image, blocks, edges, functions);
    }
    let workers = workers as usize;
    let notes = notes_shared(rt, alloc, image, blocks, workers)?;
    let program = Program::new(image, blocks, edges, notes);
    let pieces = pieces_of(alloc, functions)?;
    let lists = lives_by_piece(rt, alloc, &program, &pieces, workers)?;
    joined_if_made(alloc, lists)
}

/// The live registers of the functions of each piece, in the order of the pieces.
fn lives_by_piece<R: Threads + Sync>(
    rt: &R,
    alloc: Global,
    program: &Program,
    pieces: &[&[Function]],
    workers: usize,
) -> Result<Vec<Result<Vec<Lives>, Memory>>, Memory>
    requires noted { IsNoted program.now }
    requires bodies { All (λ piece. All HasRisingBody piece.now) pieces.now }
    ensures as_many { IfOk result (λ v. vec_len v ≡ length pieces.now) }
    ensures each { IfOk result (λ v. (i : ℕ) (d : _) (e : _) → i < length pieces.now
        → IfOk (slice_index_or v.items i e) (λ w. AreAllLivesOf program.now.image.now
        program.now.blocks.now program.now.edges.now (slice_index_or pieces.now i d).now w.items)) }
{
    let make = |i: usize| -> Result<Vec<Lives>, Memory>
        requires { i < length pieces.now × IsNoted program.now
            × All (λ piece. All HasRisingBody piece.now) pieces.now }
        ensures { IfOk result (λ v. (d : _) → AreAllLivesOf program.entry.now.image.now
            program.entry.now.blocks.now program.entry.now.edges.now
            (slice_index_or pieces.entry.now i d).now v.items) }
    { lives_of(alloc, program, pieces[i]) };
    map_drawn(rt, alloc, workers, pieces.len(), &make)
}

/// What the blocks of each piece read and write, found by this many workers.
fn notes_shared<R: Threads + Sync>(
    rt: &R,
    alloc: Global,
    image: &Image,
    blocks: &[Block],
    workers: usize,
) -> Result<Vec<Vec<Effects>>, Memory>
    ensures { IfOk result (λ v. AreNotesOf image.now blocks.now v.items) }
{
    let make = |piece: usize| -> Vec<Effects>
        ensures { AreEffectsFrom image.entry.now blocks.entry.now (piece * PIECE_BLOCKS)
            result.items }
    { effects_of_piece(alloc, image, blocks, piece) };
    map_drawn(rt, alloc, workers, piece_count(blocks), &make)
}
