//! A file with its graph.

ghost use Rattle.std.specs.Prelude.{◌≡◌, IfOk, IfErr};
ghost use Rattle.file_program.specs.FileGraph.{IsGraphOf};
ghost use Rattle.file_program.specs.FileSeeds.{AreSeedsOf};
ghost use Rattle.file_graph.specs.File.{IsGraphedFile};
ghost use Rattle.file_graph.specs.Survey.{IsFaultOf};

use crate::builder::{Alone, Builder};
use crate::graph::graph_of;
use crate::survey::Survey;
use cfg_model::Graph;
use elf_image::{ElfError, Image};
use elf_symbols::Seeds;
use std::alloc::Global;
use std::marker::Model;

/// A file with its seeds and its graph: the seeds and their names are those of the file, and the
/// graph is the one graph that the file has.
///
/// To free a large graph takes time, which a program that ends soon saves if it forgets the whole
/// (`mem::forget`).
#[derive(Drop)]
pub struct FileGraph {
    image: Image,
    seeds: Seeds,
    graph: Graph,
}

impl Model for FileGraph {
    ghost use Rattle.file_graph.specs.File.{GraphedFile};
    ghost use Rattle.file_program.specs.FileGraph.{IsGraphOf};
    ghost use Rattle.file_program.specs.FileSeeds.{AreSeedsOf};

    ghost Value = { GraphedFile };

    ghost view = { λ f. record { bytes = f.image; graph = f.graph } };

    ghost invariant = { λ f. AreSeedsOf f.image f.seeds × IsGraphOf f.image f.graph };
}

impl FileGraph {
    /// The file.
    pub fn image(&self) -> &Image
        ensures { result.now ≡ self.now.bytes }
    {
        &self.image
    }

    /// The seeds of the file, with their names.
    pub fn seeds(&self) -> &Seeds
        ensures { AreSeedsOf self.now.bytes result.now }
    {
        &self.seeds
    }

    /// The graph of the file.
    pub fn graph(&self) -> &Graph
        ensures graph { result.now ≡ self.now.graph }
        ensures of_file { IsGraphOf self.now.bytes result.now }
    {
        &self.graph
    }
}

/// The file with these bytes and its graph, made on the caller's thread, which starts no other and
/// waits for nobody.
///
/// [`ElfError::Malformed`] names the first fault of the file.
pub fn file_graph(alloc: Global, bytes: Vec<u8>) -> Result<FileGraph, ElfError>
    ensures graph { IfOk result (IsGraphedFile bytes.items) }
    ensures malformed { IfErr result (IsFaultOf bytes.items) }
{
    graphed(alloc, &Alone { alloc }, bytes)
}

/// The file with these bytes and its graph: parse, survey, graph. `by` does the parts.
///
/// [`ElfError::Malformed`] names the first fault of the file.
pub fn graphed<B: Builder>(alloc: Global, by: &B, bytes: Vec<u8>) -> Result<FileGraph, ElfError>
    requires { B.ready by.now }
    ensures graph { IfOk result (IsGraphedFile bytes.items) }
    ensures malformed { IfErr result (IsFaultOf bytes.items) }
{
    let image = Image::parse(alloc, bytes)?;
    let Survey { seeds, reaches } = by.survey(&image)?;
    let graph = graph_of(alloc, by, &image, reaches, &seeds)?;
    Ok(FileGraph {
        image,
        seeds,
        graph,
    })
}
