//! The least of some addresses.

ghost use Rattle.std.specs.Prelude.{◌≡◌};
ghost use Rattle.address_map.specs.Least.{lesser_of};

/// The lesser of two addresses; the other one if one is `None`.
/// Time: constant. Memory: none.
pub fn lesser(x: Option<u64>, y: Option<u64>) -> Option<u64>
    ensures { result ≡ lesser_of x y }
{
    match (x, y) {
        (Some(x), Some(y)) => Some(x.min(y)),
        (Some(x), None) => Some(x),
        (None, y) => y,
    }
}
