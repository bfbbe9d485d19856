//! The graph of a file, step by step.

ghost use Rattle.std.specs.Prelude.{IfOk};
ghost use Rattle.chain_index.specs.Found.{AreChainEndsOf};
ghost use Rattle.file_program.specs.FileGraph.{IsGraphOf};
ghost use Rattle.file_program.specs.FileSeeds.{AreSeedsOf};

use crate::Memory;
use crate::builder::Builder;
use cfg_model::Graph;
use chain_index::{ChainEnds, ChainIndex};
use code_view::{Calls, Code, Cuts};
use elf_image::Image;
use elf_symbols::Seeds;
use std::alloc::Global;
use table_cuts::cuts_of;

/// The graph of a file from its seeds and the reaches of its chains: the least closure from the
/// seeds under the cuts of all its jump tables. `by` does the parts.
pub fn graph_of<B: Builder>(
    alloc: Global,
    by: &B,
    image: &Image,
    reaches: ChainEnds,
    seeds: &Seeds,
) -> Result<Graph, Memory>
    requires build { B.ready by.now }
    requires reaches { AreChainEndsOf image.now reaches }
    requires seeds { AreSeedsOf image.now seeds.now }
    ensures { IfOk result (IsGraphOf image.now) }
{
    let index = ChainIndex::of(image, reaches);
    let Ok(calls) = Calls::of(alloc, image) else {
        // The file has no fault, as its seeds show.
        return Err(Memory);
    };
    let none = Cuts::none(alloc);
    let uncut = Code::new(image, &index, &calls, &none);
    let tables = by.tables(&uncut)?;
    let uncut = uncut.with_tables(&tables);
    let cuts = cuts_of(alloc, &tables)?;
    let code = uncut.under(&cuts);
    let reached = by.follow(&code, seeds.addresses())?;
    by.graph(&code, seeds.addresses(), image.entry(), &reached)
}
