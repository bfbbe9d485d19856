//! The functions of a file that do not return.

ghost use Rattle.std.specs.Prelude.{◌≡◌, Some, IfOk, IfErr, IfSome, All, map};
ghost use Rattle.std.specs.List.{filter};
ghost use Rattle.std.specs.List.Sorted.{IsNonDecreasing, IsPermutation};
ghost use Rattle.elf_image.specs.Faults.{first_fault};
ghost use Rattle.elf_image.specs.Outcome.{IfMalformed};
ghost use Rattle.elf_symbols.specs.NoReturn as spec;
ghost use Rattle.elf_symbols.specs.Seeds.{LiesIn};
ghost use Rattle.elf_symbols.specs.Inner.NoReturn.{has_listed_name, AreNoReturns};

use crate::read::symbol_seeds;
use crate::seed::Seed;
use elf_image::{ElfError, Image};
use std::alloc::{AllocError, Global};
use std::marker::Model;

/// The functions of an image that do not return: seeds with a name of the list in `specs/NoReturn`,
/// and what the file declares. To a contract it is the list of the file's bytes.
#[derive(Drop)]
pub struct NoReturns<'a> {
    image: &'a Image,
    /// Their addresses, in order.
    addresses: Vec<u64>,
}

impl<'a> Model for NoReturns<'a> {
    ghost use Rattle.std.specs.Prelude.{List, ℕ};

    ghost Value = { List ℕ };

    ghost use Rattle.elf_symbols.specs.Inner.NoReturn.{AreNoReturns};

    ghost view = { λ n. n.image.now };

    ghost invariant = { λ n. AreNoReturns n.image.now n.addresses.items };
}

impl<'a> NoReturns<'a> {
    /// The functions of an image that do not return. `Malformed` names the file's first fault, one
    /// of its symbols, as it does for [`seeds`](crate::seeds); `Memory` says that memory ran out.
    /// Time: O(n) in the symbols and the declared addresses, and a sort of what is found.
    pub fn of(alloc: Global, image: &'a Image) -> Result<NoReturns<'a>, ElfError>
        ensures ok { IfOk result (λ n. n ≡ image.now) }
        ensures malformed { IfErr result
            (λ e. IfMalformed e (λ f. first_fault image.now ≡ Some f)) }
    {
        let addresses = no_returns(alloc, image)?;
        Ok(NoReturns { image, addresses })
    }

    /// Whether `a` is the address of a function that does not return.
    /// Time: O(log n) for n such functions. Memory: none.
    #[inline]
    pub fn has(&self, a: u64) -> bool
        ensures { result ≡ spec.is_no_return self.now a }
    {
        self.addresses.binary_search(&a).is_ok()
    }
}

/// Whether a name is one of the list.
fn is_listed(name: &[u8]) -> bool
    ensures { result ≡ spec.is_listed name.now }
{
    name == b"_Unwind_Resume".as_slice()
        || name == b"longjmp".as_slice()
        || name == b"_longjmp".as_slice()
        || name == b"siglongjmp".as_slice()
        || name == b"__longjmp".as_slice()
        || name == b"__longjmp_chk".as_slice()
        || name == b"____longjmp_chk".as_slice()
}

/// Whether a seed has such a name.
fn has_listed_name(image: &Image, s: &Seed) -> bool
    requires { IfSome s.now.name (LiesIn image.now) }
    ensures { result ≡ has_listed_name image.now s.now }
{
    match s.name {
        Some(name) => is_listed(image.bytes(name)),
        None => false,
    }
}

/// The addresses of the seeds that have such a name.
fn named(alloc: Global, image: &Image, seeds: &[Seed]) -> Result<Vec<u64>, AllocError>
    requires { All (λ s. IfSome s.name (LiesIn image.now)) seeds.now }
    ensures { IfOk result (λ v. v.items
        ≡ map (λ s. s.address) (filter (has_listed_name image.now) seeds.now)) }
{
    let mut found = Vec::new(alloc);
    for s in seeds {
        if has_listed_name(image, s) {
            found.push(s.address)?;
        }
    }
    Ok(found)
}

/// The addresses in order.
fn sorted(mut found: Vec<u64>) -> Vec<u64>
    ensures permutation { IsPermutation found.items result.items }
    ensures rises { IsNonDecreasing result.items }
{
    found.sort_unstable();
    found
}

/// The addresses of the functions that do not return, in order.
fn no_returns(alloc: Global, image: &Image) -> Result<Vec<u64>, ElfError>
    ensures found { IfOk result (λ v. AreNoReturns image.now v.items) }
    ensures malformed { IfErr result
        (λ e. IfMalformed e (λ f. first_fault image.now ≡ Some f)) }
{
    prove!(image.is_code(image.entry()));
    let seeds = symbol_seeds(alloc, image)?;
    let mut found = named(alloc, image, &seeds)?;
    let declared = image.declared_no_returns(alloc)?;
    found.extend_from_slice(&declared)?;
    Ok(sorted(found))
}
