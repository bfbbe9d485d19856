//! The names that a file gives its functions.

ghost use Rattle.std.specs.Prelude.{◌≡◌, ℕ, IfSome};
ghost use Rattle.std.specs.Option.{option_map};
ghost use Rattle.elf_image.specs.ReadOnly.{span_bytes};
ghost use Rattle.elf_image.specs.Seeds.{seed_name};
ghost use Rattle.elf_symbols.specs.Seeds.{name_in, LiesIn};

use elf_image::Image;
use elf_symbols::Seeds;
use std::marker::Model;

/// The names that a file gives its functions, which stand in its bytes. Contracts see it as the
/// bytes of the file.
#[derive(Drop)]
pub struct FileNames<'a> {
    image: &'a Image,
    seeds: &'a Seeds,
}

impl<'a> Model for FileNames<'a> {
    ghost use Rattle.std.specs.Prelude.{◌≡◌, ℕ, List, IfSome};
    ghost use Rattle.std.specs.Option.{option_map};
    ghost use Rattle.elf_image.specs.ReadOnly.{span_bytes};
    ghost use Rattle.elf_image.specs.Seeds.{seed_name};
    ghost use Rattle.elf_symbols.specs.Seeds.{name_in, LiesIn};

    ghost Value = { List ℕ };

    ghost view = { λ n. n.image.now };

    ghost invariant = { λ n.
        ((a : ℕ) → option_map (span_bytes n.image.now) (name_in n.seeds.now a)
        ≡ seed_name n.image.now a)
        × ((a : ℕ) → IfSome (name_in n.seeds.now a) (LiesIn n.image.now)) };
}

impl<'a> FileNames<'a> {
    /// The names of the file `image`, whose seeds these are. What is required is what
    /// `elf_symbols::seeds` ensures of the seeds that it finds in this file.
    pub fn new(image: &'a Image, seeds: &'a Seeds) -> FileNames<'a>
        requires names { (a : ℕ) → option_map (span_bytes image.now) (name_in seeds.now a)
            ≡ seed_name image.now a }
        requires in_file { (a : ℕ) → IfSome (name_in seeds.now a) (LiesIn image.now) }
        ensures { result ≡ image.now }
    {
        FileNames { image, seeds }
    }

    /// The same names once more; no byte of them is copied.
    pub(crate) fn again(&self) -> FileNames<'a>
        ensures { result ≡ self.now }
    {
        FileNames {
            image: self.image,
            seeds: self.seeds,
        }
    }

    /// The name of the function that begins at `entry`; `None` if it has none.
    /// Time: O(log s) for s seeds.
    pub fn name_at(&self, entry: u64) -> Option<&'a [u8]>
        ensures { option_map (λ name. name.now) result ≡ seed_name self.now entry }
    {
        let span = self.seeds.name_of(entry)?;
        Some(self.image.bytes(span))
    }
}
