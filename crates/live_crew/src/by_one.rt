//! The live registers of all functions, made on one thread.

ghost use Rattle.std.specs.Prelude.{IfOk, All};
ghost use Rattle.std.specs.List.Sorted.{IsStrictlyIncreasing};
ghost use Rattle.live_regs.specs.Masks.{AreAllLivesOf};
ghost use Rattle.live_regs.specs.Noted.{AreInOrder, AreNotesOf, IsNoted};
ghost use Rattle.live_crew.specs.Inner.{HasRisingBody};

use cfg_model::{AllLives, Block, Edge, Function, Graph, Lives, Memory};
use elf_image::Image;
use live_regs::{Effects, PIECE_BLOCKS, Program, Scratch, effects_of_piece, lives_with};
use std::alloc::Global;

/// The live registers of each function of a graph, in the order of the functions. Starts no thread.
/// [`Memory`] if memory ran out.
///
/// Time: O(bytes of the blocks + edges), and for each function a search for each of its edges and
/// up to 31 visits of each, mostly one or two. Memory: 8 bytes a block of the graph, 16 bytes a
/// block of each function, and O(blocks + edges) of the largest function.
pub fn graph_lives(alloc: Global, image: &Image, graph: &Graph) -> Result<AllLives, Memory>
    requires order { AreInOrder graph.now.blocks graph.now.edges }
    requires bodies { All (λ f. IsStrictlyIncreasing f.body) graph.now.functions }
    ensures { IfOk result (AreAllLivesOf image.now graph.now.blocks graph.now.edges
        graph.now.functions) }
{
    let all = all_lives(
        alloc,
        image,
        graph.blocks.as_slice(),
        graph.edges.as_slice(),
        graph.functions.as_slice(),
    )?;
    Ok(AllLives::from_vec(all))
}

/// The live registers of each of these functions, in the program of these blocks and edges.
pub(crate) fn all_lives(
    alloc: Global,
    image: &Image,
    blocks: &[Block],
    edges: &[Edge],
    functions: &[Function],
) -> Result<Vec<Lives>, Memory>
    requires order { AreInOrder blocks.now edges.now }
    requires bodies { All HasRisingBody functions.now }
    ensures { IfOk result
        (λ v. AreAllLivesOf image.now blocks.now edges.now functions.now v.items) }
{
    let notes = all_notes(alloc, image, blocks)?;
    let program = Program::new(image, blocks, edges, notes);
    lives_of(alloc, &program, functions)
}

/// What the blocks of each piece read and write.
fn all_notes(alloc: Global, image: &Image, blocks: &[Block]) -> Result<Vec<Vec<Effects>>, Memory>
    ensures { IfOk result (λ v. AreNotesOf image.now blocks.now v.items) }
{
    let count = piece_count(blocks);
    let mut notes = Vec::with_capacity(alloc, count)?;
    for piece in 0..count {
        notes.push(effects_of_piece(alloc, image, blocks, piece))?;
    }
    Ok(notes)
}

/// How many pieces these blocks have, of which the last one may be empty.
pub(crate) fn piece_count(blocks: &[Block]) -> usize {
    blocks.len() / PIECE_BLOCKS + 1
}

/// The live registers of each of these functions of a program.
pub(crate) fn lives_of(
    alloc: Global,
    program: &Program,
    functions: &[Function],
) -> Result<Vec<Lives>, Memory>
    requires noted { IsNoted program.now }
    requires bodies { All HasRisingBody functions.now }
    ensures { IfOk result (λ v. AreAllLivesOf program.now.image.now program.now.blocks.now
        program.now.edges.now functions.now v.items) }
{
    let mut scratch = Scratch::new(alloc);
    let mut all = Vec::with_capacity(alloc, functions.len())?;
    for function in functions {
        all.push(lives_with(alloc, program, function, &mut scratch)?)?;
    }
    Ok(all)
}
