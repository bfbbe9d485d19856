//! The canonical certificate of a file.

ghost use Rattle.std.specs.Prelude.{IfOk};
ghost use Rattle.file_program.specs.FileSeeds.{AreSeedsOf};
ghost use Rattle.cert_text.specs.Text.{Rises};
ghost use Rattle.certify.specs.FileCanonical.{IsCanonicalOf};

use crate::Memory;
use crate::part::part_reached;
use cert_text::Certificate;
use chain_index::ChainIndex;
use code_tables::all_tables;
use code_view::{Calls, Code, Cuts};
use elf_image::Image;
use elf_symbols::Seeds;
use reached_terms::ReachedTerms;
use std::alloc::Global;
use table_cuts::cuts_of;

/// The canonical certificate of a file. The seeds have to be those of the image. [`Memory`] if
/// memory ran out, and no other error.
///
/// Time: those of finding the jump tables of the code and what is reached from the seeds, and of
/// [`canonical_part`](cert_make::canonical_part). Memory: four bytes for each halfword of code, the
/// tables, and those of these two.
pub fn file_certificate(alloc: Global, image: &Image, seeds: &Seeds) -> Result<Certificate, Memory>
    requires seeds { AreSeedsOf image.now seeds.now }
    ensures canonical { IfOk result (IsCanonicalOf image.now) }
    ensures rises { IfOk result Rises }
{
    let index = ChainIndex::new(alloc, image)?;
    let Ok(calls) = Calls::of(alloc, image) else {
        // The file has no fault, as its seeds show.
        return Err(Memory);
    };
    let none = Cuts::none(alloc);
    let uncut = Code::new(image, &index, &calls, &none);
    let tables = all_tables(alloc, &uncut)?;
    let uncut = uncut.with_tables(&tables);
    let cuts = cuts_of(alloc, &tables)?;
    let code = uncut.under(&cuts);
    let starts = seeds.addresses();
    let reached = ReachedTerms::of(alloc, &code, starts)?;
    let part = part_reached(alloc, &code, starts, &reached)?;
    Ok(Certificate { part, second: None })
}
