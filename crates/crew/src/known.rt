//! Addresses that a worker keeps in mind.

ghost use Rattle.std.specs.Prelude.{◌≡◌, ◌⊎◌, ℕ, Some, IsTrue};
ghost use Rattle.crew.specs.inner.Known.{Caches};

use std::alloc::Global;
use std::marker::Model;

/// How many of them it keeps in mind.
const PLACES: usize = 4096;

/// What stands at a place that keeps none: an odd address, which no instruction has.
const NONE: u64 = u64::MAX;

/// Addresses of which a worker knows one thing: the last one for each place that addresses are
/// spread over. Each question to a place that threads share costs a turn of a shard, and a worker
/// knew most of the answers a moment ago. It knew that the start which it found is one. It knew
/// that the terminator of many starts of one function is entered. It knew that a terminator which
/// waits at several others returns.
#[derive(Drop)]
pub(crate) struct Known {
    /// Empty if memory for it was missing: then none is kept in mind.
    places: Vec<u64>,
}

impl Model for Known {
    ghost use Rattle.std.specs.Prelude.{ℕ, List};

    ghost Value = { List ℕ };

    ghost view = { λ known. known.places.items };

    ghost invariant = { λ _. Unit {0} };
}

impl Known {
    /// None yet.
    pub(crate) fn new(alloc: Global) -> Known
        ensures { (a : ℕ) → ¬ Caches result a }
    {
        match vec![in alloc; NONE; PLACES] {
            Ok(places) => Known { places },
            Err(_) => Known {
                places: Vec::new(alloc),
            },
        }
    }

    /// Keeps the address in mind.
    pub(crate) fn note(&mut self, a: u64)
        ensures { (b : ℕ) → Caches self.new b → Caches self.old b ⊎ (b ≡ a) }
    {
        if let Some(place) = self.places.get_mut(place_of(a)) {
            *place = a;
        }
    }

    /// Keeps the address in mind, if there is one.
    pub(crate) fn note_some(&mut self, a: Option<u64>)
        ensures { (b : ℕ) → Caches self.new b → Caches self.old b ⊎ (a ≡ Some b) }
    {
        if let Some(a) = a {
            self.note(a);
        }
    }

    /// Whether the address is kept in mind. If it is not, nothing is said of it.
    pub(crate) fn has(&self, a: u64) -> bool
        ensures { IsTrue result → Caches self.now a }
    {
        a != NONE && self.places.get(place_of(a)) == Some(&a)
    }
}

/// The place of an address.
fn place_of(a: u64) -> usize {
    (a / 2 % 4096) as usize
}
