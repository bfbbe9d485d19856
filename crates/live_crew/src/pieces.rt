//! Functions in pieces that lie side by side, with about as many blocks in each.

ghost use Rattle.std.specs.Prelude.{◌≡◌, ◌<◌, ◌≤◌, IfOk, length};
ghost use Rattle.std.specs.List.{flat_map};

use cfg_model::{Function, Memory};
use live_regs::PIECE_BLOCKS;
use std::alloc::Global;

/// The pieces of a list of functions, in order. Each but the last has [`PIECE_BLOCKS`] blocks at
/// least: the work on a piece is then long beside its draw.
pub(crate) fn pieces_of(alloc: Global, functions: &[Function]) -> Result<Vec<&[Function]>, Memory>
    ensures { IfOk result (λ v. flat_map (λ piece. piece.now) v.items ≡ functions.now) }
{
    let mut pieces = Vec::new(alloc);
    let mut rest = functions;
    while !rest.is_empty() {
        let count = first_piece(rest);
        pieces.push(&rest[..count])?;
        rest = &rest[count..];
    }
    Ok(pieces)
}

/// How many functions the first piece has.
fn first_piece(functions: &[Function]) -> usize
    requires some { 0 < length functions.now }
    ensures some { 0 < result }
    ensures within { result ≤ length functions.now }
{
    let mut blocks: usize = 0;
    for i in 0..functions.len() {
        blocks = blocks.saturating_add(functions[i].body.as_slice().len());
        if blocks >= PIECE_BLOCKS {
            return i + 1;
        }
    }
    functions.len()
}
