//! The gaps of a few bounds.

use crate::asserts::same;
use parallel::AddressRange;
use std::test::Fail;

/// A range of addresses by its ends.
fn range(after: Option<u64>, last: Option<u64>) -> AddressRange {
    AddressRange { after, last }
}

#[test]
fn gaps_of_bounds(rt: HostRuntime) -> Result<(), Fail> {
    let bounds = [4, 4, 9];
    same(&rt, &AddressRange::gap(&bounds, 0), &range(None, Some(4)));
    same(
        &rt,
        &AddressRange::gap(&bounds, 1),
        &range(Some(4), Some(4)),
    );
    same(
        &rt,
        &AddressRange::gap(&bounds, 2),
        &range(Some(4), Some(9)),
    );
    same(&rt, &AddressRange::gap(&bounds, 3), &range(Some(9), None));
    same(&rt, &AddressRange::gap(&[], 0), &AddressRange::all());
    Ok(())
}
