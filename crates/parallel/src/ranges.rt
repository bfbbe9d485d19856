//! Ranges of addresses that lie side by side, cut by bounds. Threads that go over the addresses of
//! a state share their work by them.

ghost use Rattle.std.specs.Prelude.{◌≡◌};
ghost use Rattle.parallel.specs.Gaps.{gap, whole};

/// A range of addresses.
#[derive(Clone, Copy, Debug, PartialEq, Eq)]
pub struct AddressRange {
    /// Its addresses lie above this one, if there is one.
    pub after: Option<u64>,
    /// Its last address; `None` if it has no end.
    pub last: Option<u64>,
}

impl AddressRange {
    /// All addresses.
    pub fn all() -> AddressRange
        ensures { result ≡ whole }
    {
        AddressRange {
            after: None,
            last: None,
        }
    }

    /// The gap `i` that bounds leave: up to the first one, above each up to the next, and above the
    /// last one. The gaps of `n` bounds are those from 0 to `n`; each address lies in one of them,
    /// and in no other if no bound is below the one before it.
    pub fn gap(bounds: &[u64], i: usize) -> AddressRange
        ensures { result ≡ gap bounds.now i }
    {
        AddressRange {
            after: match i {
                0 => None,
                _ => bounds.get(i - 1).copied(),
            },
            last: bounds.get(i).copied(),
        }
    }
}
