//! Whether a certificate of a file is valid, and then the graph of the file.

ghost use Rattle.std.specs.Prelude.{IfErr, IfOk};
ghost use Rattle.file_program.specs.FileGraph.{IsGraphOf};
ghost use Rattle.file_program.specs.FileSeeds.{AreSeedsOf};
ghost use Rattle.cert_laws.specs.FileCertificate.{IsCertificateOf};
ghost use Rattle.cert_check.specs.Refused.{IfRefused};

use crate::error::CheckError;
use crate::graph::graph_of_part;
use cert_text::Certificate;
use cfg_model::Graph;
use chain_index::ChainIndex;
use code_tables::all_tables;
use code_view::{Calls, Code, Cuts};
use elf_image::Image;
use elf_symbols::Seeds;
use std::alloc::Global;
use table_cuts::cuts_of;

/// The graph of a file, if the certificate is valid for it. The seeds have to be those of the image.
/// Nothing is asked of the certificate: whoever made it, a yes gives the graph of the file.
///
/// [`CheckError::Refused`] exactly if the certificate is not valid. [`CheckError::Memory`] if memory
/// ran out.
///
/// Time: that of finding the jump tables of the code, and of [`graph_of_part`]. Memory: four bytes
/// for each halfword of code, the tables, and that of [`graph_of_part`].
pub fn check(
    alloc: Global,
    image: &Image,
    seeds: &Seeds,
    certificate: &Certificate,
) -> Result<Graph, CheckError>
    requires seeds { AreSeedsOf image.now seeds.now }
    ensures graph { IfOk result (IsGraphOf image.now) }
    ensures valid { IfOk result (λ _. IsCertificateOf image.now certificate.now) }
    ensures refused { IfErr result
        (λ e. IfRefused e (¬ IsCertificateOf image.now certificate.now)) }
{
    if certificate.second.is_some() {
        return Err(CheckError::Refused);
    }
    let index = ChainIndex::new(alloc, image)?;
    let Ok(calls) = Calls::of(alloc, image) else {
        // The file has no fault, as its seeds show.
        return Err(CheckError::Memory);
    };
    let none = Cuts::none(alloc);
    let uncut = Code::new(image, &index, &calls, &none);
    let tables = all_tables(alloc, &uncut)?;
    let uncut = uncut.with_tables(&tables);
    let cuts = cuts_of(alloc, &tables)?;
    let code = uncut.under(&cuts);
    let starts = seeds.addresses();
    let entry = image.entry();
    match graph_of_part(alloc, &code, entry, starts, &certificate.part)? {
        Some(graph) => Ok(graph),
        None => Err(CheckError::Refused),
    }
}
