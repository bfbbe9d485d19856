//! The blocks and edges of a program, with what the blocks read and write.

ghost use Rattle.std.specs.Prelude.{◌≡◌, ◌<◌, ◌*◌, ℕ, IfSome, length, slice_index_or};
ghost use Rattle.cfg_model.specs.declared.graph.Block.{Block};
ghost use Rattle.live_regs.specs.Run.{instructions_of};
ghost use Rattle.live_regs.specs.Noted.{AreEffectsFrom, AreEffectsOf, AreInOrder, AreNotesOf};

use crate::effects::{Effects, effects_of_block};
use cfg_model::{Block, Edge};
use elf_image::Image;
use std::alloc::Global;

/// How many blocks of a program stand in a piece of them; the last piece may have fewer. A worker
/// notes the effects of a piece in about 0.1 milliseconds, which is long beside the draw.
pub const PIECE_BLOCKS: usize = 1024;

/// The blocks and edges of a program, and notes of the blocks, which serve all functions.
#[derive(Drop)]
pub struct Program<'a> {
    /// The file that the program stands in.
    pub image: &'a Image,
    /// All blocks, by their addresses.
    pub blocks: &'a [Block],
    /// All edges, by the addresses of the blocks that they leave.
    pub edges: &'a [Edge],
    /// What the blocks of each piece read and write. Where memory was missing, some are not noted.
    pub(crate) notes: Vec<Vec<Effects>>,
}

impl<'a> Program<'a> {
    ghost use Rattle.live_regs.specs.Noted.{IsNoted};

    /// The program of this image with these blocks and edges, and the notes of the first pieces of
    /// its blocks, or of all. A block without a note is decoded whenever a function has it.
    pub fn new(
        image: &'a Image,
        blocks: &'a [Block],
        edges: &'a [Edge],
        notes: Vec<Vec<Effects>>,
    ) -> Program<'a>
        requires order { AreInOrder blocks.now edges.now }
        requires notes { AreNotesOf image.now blocks.now notes.items }
        ensures image { result.image.now ≡ image.now }
        ensures blocks { result.blocks.now ≡ blocks.now }
        ensures edges { result.edges.now ≡ edges.now }
        ensures noted { IsNoted result }
    {
        Program {
            image,
            blocks,
            edges,
            notes,
        }
    }

    /// What the block of this number reads and writes.
    pub(crate) fn effects(&self, number: usize) -> Effects
        requires noted { IsNoted self.now }
        requires within { number < length self.now.blocks.now }
        ensures { (b : Block) → AreEffectsOf (instructions_of self.now.image.now
            (slice_index_or self.now.blocks.now number b)) result }
    {
        match self.note(number) {
            Some(effects) => effects,
            None => effects_of_block(self.image, self.blocks[number]),
        }
    }

    /// The note of the block of this number, where there is one.
    fn note(&self, number: usize) -> Option<Effects>
        requires noted { IsNoted self.now }
        requires within { number < length self.now.blocks.now }
        ensures { IfSome result (λ effects. (b : Block)
            → AreEffectsOf (instructions_of self.now.image.now
            (slice_index_or self.now.blocks.now number b)) effects) }
    {
        let piece = self.notes.get(number / PIECE_BLOCKS)?;
        match piece.get(number % PIECE_BLOCKS) {
            Some(effects) => Some(*effects),
            None => None,
        }
    }
}

/// What the blocks of this piece read and write, one after another. If memory is missing, of the
/// first ones alone.
///
/// Time: O(bytes of these blocks). Memory: 8 bytes a block.
pub fn effects_of_piece(
    alloc: Global,
    image: &Image,
    blocks: &[Block],
    piece: usize,
) -> Vec<Effects>
    ensures { AreEffectsFrom image.now blocks.now (piece * PIECE_BLOCKS) result.items }
{
    let Some(first) = piece.checked_mul(PIECE_BLOCKS) else {
        return Vec::new(alloc);
    };
    let end = first.saturating_add(PIECE_BLOCKS).min(blocks.len());
    let Ok(mut all) = Vec::with_capacity(alloc, end.saturating_sub(first)) else {
        return Vec::new(alloc);
    };
    for number in first..end {
        if all.push(effects_of_block(image, blocks[number])).is_err() {
            return all;
        }
    }
    all
}
