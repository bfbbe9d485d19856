//! Seeds and their names.

ghost use Rattle.std.specs.Prelude.{◌≡◌, IfOk};
ghost use Rattle.std.specs.List.Sorted.{IsStrictlyIncreasing};
ghost use Rattle.elf_symbols.specs.Seeds.{addresses_of, name_in};

use elf_image::Span;
use std::alloc::{AllocError, Global};
use std::marker::Model;

/// An address from which control flow is followed.
#[derive(Clone, Copy, Debug, PartialEq, Eq)]
pub struct Seed {
    /// The address, a code address of the file.
    pub address: u64,
    /// Where its name stands in the file; `None` if it has no name.
    pub name: Option<Span>,
}

/// The addresses from which the control flow of a file is followed, rising, each once, and their
/// names. To a caller it is the list of its seeds.
#[derive(Drop)]
pub struct Seeds {
    seeds: Vec<Seed>,
    addresses: Vec<u64>,
}

impl Model for Seeds {
    ghost use Rattle.std.specs.Prelude.{List};
    ghost use Rattle.elf_symbols.specs.declared.seed.Seed.{Seed};

    ghost Value = { List Seed };

    ghost use Rattle.elf_symbols.specs.Inner.Index.{IsIndexed};

    ghost view = { λ s. s.seeds.items };

    ghost invariant = { IsIndexed };
}

impl Seeds {
    /// Prepares seeds whose addresses rise.
    pub(crate) fn new(alloc: Global, seeds: Vec<Seed>) -> Result<Seeds, AllocError>
        requires { IsStrictlyIncreasing (addresses_of seeds.items) }
        ensures { IfOk result (λ s. s ≡ seeds.items) }
    {
        let addresses = seeds.iter().map(|s| s.address).collect(alloc)?;
        Ok(Seeds { seeds, addresses })
    }

    /// The addresses, rising, each once.
    pub fn addresses(&self) -> &[u64]
        ensures addresses { result.now ≡ addresses_of self.now }
        ensures rising { IsStrictlyIncreasing result.now }
    {
        &self.addresses
    }

    /// The place of the name of the seed at `a` in the file; `None` exactly if `a` is no seed or
    /// has no name.
    pub fn name_of(&self, a: u64) -> Option<Span>
        ensures { result ≡ name_in self.now a }
    {
        match self.addresses.binary_search(&a) {
            Ok(i) => self.seeds[i].name,
            Err(_) => None,
        }
    }
}
