//! What is known of a file before any of its program is followed.

ghost use Rattle.std.specs.Prelude.{IfOk, IfErr};
ghost use Rattle.file_graph.specs.Survey.{IsFaultOf, IsSurveyOf};

use chain_index::ChainEnds;
use elf_image::{ElfError, Image};
use elf_symbols::{Seeds, seeds};
use std::alloc::Global;

/// What is known of a file before any of its program is followed.
#[derive(Drop)]
pub struct Survey {
    /// Where its control flow starts.
    pub seeds: Seeds,
    /// How far the chains of its code reach.
    pub reaches: ChainEnds,
}

/// The survey of a file, made on the caller's thread.
///
/// [`ElfError::Malformed`] names the fault of its symbols, which is the first fault of the file.
pub(crate) fn make_survey(alloc: Global, image: &Image) -> Result<Survey, ElfError>
    ensures survey { IfOk result (IsSurveyOf image.now) }
    ensures refused { IfErr result (IsFaultOf image.now) }
{
    let seeds = seeds(alloc, image)?;
    match ChainEnds::new(alloc, image) {
        Ok(reaches) => Ok(Survey { seeds, reaches }),
        Err(_) => Err(ElfError::Memory),
    }
}
