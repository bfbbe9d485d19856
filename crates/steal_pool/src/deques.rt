//! Deques that a hand tries in turn, and one round of tries.

ghost use Rattle.std.specs.Prelude.{◌≡◌, ℕ, ◌+◌, ◌%◌, ◌<◌, ◌≤◌, [], ◌∷◌, ◌++◌};
ghost use Rattle.steal_pool.specs.Rose.{Rose};
ghost use Rattle.steal_pool.specs.Tries.{MatchRound, IsRound};

use core_state::Name;

/// What one try at a deque answers.
#[derive(Clone, Copy, Debug, PartialEq, Eq)]
pub enum Tried {
    /// The deque's first name, which is out of it now.
    Got {
        /// That name.
        name: Name,
    },
    /// Another taker was faster.
    Beaten,
    /// The deque held no name.
    Empty,
}

/// What a round of tries answers.
#[derive(Clone, Copy, Debug, PartialEq, Eq)]
pub enum Round {
    /// A name was got.
    Got {
        /// That name.
        name: Name,
    },
    /// No name, but another taker was faster at some deque, so that a new round may find one.
    Again,
    /// No deque held a name when it was tried.
    Dry,
}

/// Deques from which names are taken, one try at a time.
pub trait Deques {
    ghost use Rattle.std.specs.Prelude.{◌≡◌, ℕ, ◌<◌, ◌≤◌, List, [], ◌∷◌, ◌++◌};
    ghost use Rattle.core_state.specs.declared.answer.Name.{Name};
    ghost use Rattle.steal_pool.specs.declared.deques.Tried.{Tried};
    ghost use Rattle.steal_pool.specs.Rose.{Rose};
    ghost use Rattle.steal_pool.specs.Tries.{MatchTried};

    /// How many deques there are.
    ghost size: { Self → ℕ };

    /// How often each of them was found without a name. It never falls.
    ghost empties: { Self → ℕ → ℕ };

    /// How often another taker was faster at each of them. It never falls.
    ghost beaten: { Self → ℕ → ℕ };

    /// The names got so far, in order.
    ghost got: { Self → List Name };

    /// All that is known of one try: before it, at which deque, what it answers, and after it.
    ghost try_made: { Self → ℕ → Tried → Self → Type 0 };

    /// Tries deque number `i` once.
    fn try_end(&mut self, i: u32) -> Tried
        requires deque { i < size self.old }
        ensures made { try_made self.old i result self.new }
        ensures size { size self.new ≡ size self.old }
        ensures got { MatchTried result
            (λ name. got self.new ≡ got self.old ++ name ∷ []) (got self.new ≡ got self.old)
            (got self.new ≡ got self.old) }
        ensures cause { MatchTried result
            (λ _. Unit {0}) (Rose (beaten self.old i) (beaten self.new i))
            (Rose (empties self.old i) (empties self.new i)) }
        ensures empties { (j : ℕ) → empties self.old j ≤ empties self.new j }
        ensures beaten { (j : ℕ) → beaten self.old j ≤ beaten self.new j };
}

/// The deque that comes `step` deques after number `own` of `count`; the first follows the last.
fn next_deque(own: u32, step: u32, count: u32) -> u32
    requires own { own < count }
    requires step { step < count }
    ensures { result ≡ (own + step) % count }
{
    if step < count - own {
        own + step
    } else {
        step - (count - own)
    }
}

/// One round over all `count` deques: tries each once, from number `own` on and round, and stops at
/// the first name.
pub fn first_of<E: Deques>(ends: &mut E, own: u32, count: u32) -> Round
    requires count { count ≡ E.size ends.old }
    requires own { own < count }
    ensures round { IsRound E.try_made own count ends.old result ends.new }
    ensures size { E.size ends.new ≡ E.size ends.old }
    ensures got { MatchRound result
        (λ name. E.got ends.new ≡ E.got ends.old ++ name ∷ []) (E.got ends.new ≡ E.got ends.old)
        (E.got ends.new ≡ E.got ends.old) }
    ensures cause { MatchRound result
        (λ _. Unit {0}) ((i : ℕ) × (i < count) × Rose (E.beaten ends.old i) (E.beaten ends.new i))
        ((i : ℕ) → i < count → Rose (E.empties ends.old i) (E.empties ends.new i)) }
    ensures empties { (i : ℕ) → E.empties ends.old i ≤ E.empties ends.new i }
    ensures beaten { (i : ℕ) → E.beaten ends.old i ≤ E.beaten ends.new i }
{
    let mut beaten = false;
    for step in 0..count {
        match ends.try_end(next_deque(own, step, count)) {
            Tried::Got { name } => return Round::Got { name },
            Tried::Beaten => beaten = true,
            Tried::Empty => {}
        }
    }
    if beaten { Round::Again } else { Round::Dry }
}
