//! Ranges of code with a landing pad, searched by address.

ghost use Rattle.std.specs.Prelude.{◌≡◌, ◌==◌};
ghost use Rattle.std.specs.List.{find};
ghost use Rattle.std.specs.List.Sorted.{IsNonDecreasingBy};
ghost use Rattle.landing_pads.specs.Pad.{nearest};

/// A range of code addresses whose calls land at one pad.
#[derive(Clone, Copy, Debug, PartialEq, Eq)]
pub struct Range {
    /// The address of its first byte.
    pub begin: u64,
    /// Its length in bytes.
    pub len: u64,
    /// The address of its pad.
    pub pad: u64,
}

/// The first range that begins at `begin`. The ranges are in the order of their beginnings.
fn first_at(ranges: &[Range], begin: u64) -> Option<Range>
    requires { IsNonDecreasingBy (λ r. r.begin) ranges.now }
    ensures { result ≡ find (λ r. r.begin == begin) ranges.now }
{
    let first = ranges.partition_point(|r| r.begin < begin);
    let range = ranges.get(first)?;
    if range.begin == begin {
        Some(*range)
    } else {
        None
    }
}

/// Of the ranges that begin at `b` or before the first of those with the greatest beginning. The
/// ranges are in the order of their beginnings.
pub(crate) fn nearest(ranges: &[Range], b: u64) -> Option<Range>
    requires { IsNonDecreasingBy (λ r. r.begin) ranges.now }
    ensures { result ≡ nearest ranges.now b }
{
    let after = ranges.partition_point(|r| r.begin <= b);
    if after == 0 {
        return None;
    }
    first_at(ranges, ranges[after - 1].begin)
}
