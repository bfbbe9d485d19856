//! The trace of a file.

ghost use Rattle.std.specs.Prelude.{◌≡◌, AllPairs, IfOk};
ghost use Rattle.cfg_model.specs.Graph.Graph.{BlockBefore, EdgeBefore};
ghost use Rattle.rv_machine.specs.Regions.{bytes_of};
ghost use Rattle.rv_machine.specs.FileMemory.{file_memory};
ghost use Rattle.walk_trace.specs.Trace.{trace_text};

use crate::lines::push_steps;
use crate::walker::Walker;
use cfg_model::{Graph, Memory};
use elf_image::Image;
use rv_machine::Regions;
use std::alloc::Global;

/// The trace of `steps` steps at most from the entry of a file, as text: `graph` is the graph of the
/// file, and `regions` its memory at the start.
///
/// The only error is that memory ran out.
/// Time: that of the machine's steps, and O(log n) a step in n blocks and edges. Memory: a text of at
/// most 36 bytes a step, and 4,096 decoded instructions.
pub fn trace(
    alloc: Global,
    image: &Image,
    graph: &Graph,
    regions: Regions,
    steps: u32,
) -> Result<Vec<u8>, Memory>
    requires blocks { AllPairs BlockBefore graph.now.blocks }
    requires edges { AllPairs EdgeBefore graph.now.edges }
    requires memory { bytes_of regions ≡ file_memory image.now }
    ensures { IfOk result (λ text. text.items ≡ trace_text image.now graph.now steps) }
{
    let mut text = Vec::new(alloc);
    let Some(mut walker) = Walker::start(alloc, image, graph, regions, &mut text)? else {
        return Ok(text);
    };
    for _ in 0..steps {
        if !walker.step(image, graph, &mut text)? {
            return Ok(text);
        }
    }
    push_steps(&mut text)?;
    Ok(text)
}
