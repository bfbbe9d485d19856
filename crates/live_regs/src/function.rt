//! The live registers of one function.

ghost use Rattle.std.specs.Prelude.{◌≡◌, ◌<◌, ◌^◌, ℕ, List, All, IfOk, OnOk, length, slice_index};
ghost use Rattle.std.specs.List.Sorted.{IsStrictlyIncreasing};
ghost use Rattle.cfg_model.specs.Graph.Function.{IsFunction};
ghost use Rattle.cfg_model.specs.Graph.Graph.{IsOutline};
ghost use Rattle.mask_flow.specs.Reaches.{HaveAll, IsWithin};
ghost use Rattle.live_regs.specs.Masks.{AreLivesOf};
ghost use Rattle.live_regs.specs.Noted.{IsNoted};
ghost use Rattle.live_regs.specs.Inner.{AreItemsOf};

use crate::gather::Nodes;
use crate::program::Program;
use cfg_model::{Chains, Function, Live, Lives, Memory, Outline};
use elf_image::Image;
use mask_flow::{Spreading, Way, spread};
use std::alloc::Global;

/// What is kept from one function to the next, so that memory is asked for seldom.
#[derive(Drop)]
pub struct Scratch {
    nodes: Nodes,
    spreading: Spreading,
}

impl Scratch {
    /// Nothing is kept yet.
    pub fn new(alloc: Global) -> Scratch {
        Scratch {
            nodes: Nodes::new(alloc),
            spreading: Spreading::new(alloc),
        }
    }
}

/// The live registers of one function: for each block of its body, in order. [`Memory`] if memory
/// ran out.
///
/// Time: O(bytes of the function's blocks), for each of its edges a search among the blocks, and up
/// to 31 visits of each edge, mostly one or two. Memory: 16 bytes a block, and O(blocks + edges) of
/// the function meanwhile. For many functions [`lives_with`] takes less time.
pub fn lives<C: Chains>(
    alloc: Global,
    image: &Image,
    code: &C,
    outline: &Outline,
    function: &Function,
) -> Result<Lives, Memory>
    requires { (seeds : List ℕ)
        × IsOutline (C.map code.now) seeds outline.now.blocks outline.now.edges
        × IsFunction (C.map code.now) seeds function.now }
    ensures { IfOk result (AreLivesOf image.now outline.now.blocks outline.now.edges
        function.now.body) }
{
    let _ = code.has(0);
    let blocks = outline.blocks.as_slice();
    let edges = outline.edges.as_slice();
    let program = Program::new(image, blocks, edges, Vec::new(alloc));
    lives_with(alloc, &program, function, &mut Scratch::new(alloc))
}

/// The same, from what is noted of the blocks of the program. [`Memory`] if memory ran out.
///
/// Time: for each edge of the function a look or a search, and up to 31 visits, mostly one or two;
/// and the bytes of those blocks that are not noted. Memory: 16 bytes a block, and what `scratch`
/// keeps, O(blocks + edges) of the largest function.
pub fn lives_with(
    alloc: Global,
    program: &Program,
    function: &Function,
    scratch: &mut Scratch,
) -> Result<Lives, Memory>
    requires noted { IsNoted program.now }
    requires rising { IsStrictlyIncreasing function.now.body }
    ensures { IfOk result (AreLivesOf program.now.image.now program.now.blocks.now
        program.now.edges.now function.now.body) }
{
    let body = function.body.as_slice();
    let nodes = &mut scratch.nodes;
    nodes.begin(program, body)?;
    let items = spread_items(
        alloc,
        body,
        &nodes.ways,
        &nodes.stops,
        &mut nodes.masks,
        &mut scratch.spreading,
    )?;
    Ok(Lives::from_vec(items))
}

/// Spreads the masks, and puts each beside its address.
fn spread_items(
    alloc: Global,
    body: &[u64],
    ways: &[Way],
    stops: &[u32],
    masks: &mut [u32],
    spreading: &mut Spreading,
) -> Result<Vec<Live>, Memory>
    requires within { All (IsWithin (length masks.old)) ways.now }
    requires stops { length stops.now ≡ length masks.old }
    requires body { length body.now ≡ length masks.old }
    ensures spread { OnOk result (HaveAll masks.old stops.now ways.now masks.new) }
    ensures items { IfOk result (λ v. AreItemsOf body.now masks.new v.items) }
    ensures size { OnOk result ((i : ℕ) → slice_index masks.new i < 2 ^ 32) }
{
    spread(spreading, ways, stops, masks)?;
    items_of(alloc, body, masks)
}

/// Each address with its mask.
fn items_of(alloc: Global, body: &[u64], masks: &[u32]) -> Result<Vec<Live>, Memory>
    requires { length masks.now ≡ length body.now }
    ensures { IfOk result (λ v. AreItemsOf body.now masks.now v.items) }
{
    let mut items = Vec::with_capacity(alloc, body.len())?;
    for (place, &block) in body.iter().enumerate() {
        items.push(Live {
            block,
            mask: masks[place],
        })?;
    }
    Ok(items)
}
