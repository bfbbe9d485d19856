//! Many addresses of a map by address, of one page and of several, in mixed order. Those that were
//! added are found, no other one is, and a walk goes along all of them.

ghost use Rattle.std.specs.Prelude.{◌≡◌};

use crate::asserts::{holds, same};
use address_map::{AddressMap, Look, Reading, lesser};
use std::alloc::Global;
use std::process::Abort;
use std::test::Fail;

/// How many addresses there are; every second one is added.
const COUNT: u16 = 2048;

/// Where the addresses lie: from the first one on, each this many bytes after the one before.
#[derive(Clone, Copy)]
struct Spread {
    first: u32,
    apart: u16,
}

impl Spread {
    /// The address of this number.
    fn address(self, number: u16) -> u64 {
        u64::from(self.first) * 0x10000 + u64::from(number) * u64::from(self.apart)
    }
}

/// The value that is added at the address of this number.
fn value(number: u16) -> Option<u16> {
    if number % 2 == 0 { Some(number) } else { None }
}

/// Each second address is added, not in their order, but every 389th in turn; then once more, which
/// changes nothing.
fn add_half(rt: &impl Abort, map: &mut AddressMap<u16>, spread: Spread) -> Result<(), Fail> {
    for place in 0..COUNT {
        let number = (u32::from(place) * 389 % u32::from(COUNT)) as u16;
        if value(number).is_some() {
            same(rt, &map.add(spread.address(number), number)?, &true);
            same(rt, &map.add(spread.address(number), 1)?, &false);
        }
    }
    Ok(())
}

/// Each second address is found.
fn find_half(rt: &impl Abort, map: &AddressMap<u16>, spread: Spread) {
    for number in 0..COUNT {
        same(
            rt,
            &map.get(spread.address(number)).copied(),
            &value(number),
        );
    }
}

/// After each address comes the next one that was added, also in its page if it lies there.
fn walk_half(rt: &impl Abort, map: &AddressMap<u16>, spread: Spread) {
    for number in 0..COUNT - 2 {
        let a = spread.address(number);
        let next = spread.address(number + 2 - number % 2);
        same(rt, &map.after(Some(a)), &Some(next));
        let in_page = if next / 4096 == a / 4096 {
            Some(next)
        } else {
            None
        };
        same(rt, &map.after_in_page(a), &in_page);
    }
    same(rt, &map.after(Some(spread.address(COUNT - 2))), &None);
}

/// The look for the address of a value.
#[derive(Clone, Copy)]
struct LookForValue(u16);

impl Look<u16, u64> for LookForValue {
    ghost use Rattle.std.specs.Prelude.{◌≡◌};

    ghost finds = { λ look k value found. (value ≡ look.0) × (found ≡ k) };

    fn look_at(&self, k: u64, value: &u16) -> Option<u64> {
        if *value == self.0 { Some(k) } else { None }
    }
}

/// The value of one address is written, and found there alone.
fn write_one(rt: &impl Abort, map: &mut AddressMap<u16>, spread: Spread) {
    let k = spread.address(6);
    same(rt, &map.find_by(&LookForValue(7)), &None);
    if map.get(k).is_some() {
        *map.value_mut(k) = 7;
    }
    same(rt, &map.get(k).copied(), &Some(7));
    same(rt, &map.find_by(&LookForValue(7)), &Some(k));
    same(rt, &map.find_by(&LookForValue(6)), &None);
}

/// The reading of an address alone.
#[derive(Clone, Copy)]
struct AddressAlone;

impl Reading<u16, u64> for AddressAlone {
    ghost item = { λ _ k _. k };

    fn read(&self, k: u64, _value: &u16) -> u64 {
        k
    }
}

/// The addresses that are read are `before`, and all that were added after them.
fn read_half(
    rt: &impl Abort,
    alloc: Global,
    map: &AddressMap<u16>,
    before: Option<u64>,
    spread: Spread,
) -> Result<(), Fail> {
    let mut read = map.read_by(alloc, &AddressAlone)?;
    read.sort_unstable();
    let mut added = Vec::new(alloc);
    if let Some(k) = before {
        added.push(k)?;
    }
    for number in 0..COUNT {
        if value(number).is_some() {
            added.push(spread.address(number))?;
        }
    }
    holds(rt, read.as_slice() == added.as_slice());
    Ok(())
}

/// In one page, in several pages of one chunk, and in several chunks.
#[test]
fn near_ones_are_found(rt: HostRuntime) -> Result<(), Fail> {
    for apart in [2, 66, 1026] {
        let spread = Spread { first: 1, apart };
        let mut map = AddressMap::new(rt.alloc());
        add_half(&rt, &mut map, spread)?;
        find_half(&rt, &map, spread);
        walk_half(&rt, &map, spread);
        write_one(&rt, &mut map, spread);
        read_half(&rt, rt.alloc(), &map, None, spread)?;
    }
    Ok(())
}

/// The same far from the first address of the map, which is the least one.
#[test]
fn far_ones_are_found(rt: HostRuntime) -> Result<(), Fail> {
    for apart in [2, 66, 1026] {
        let spread = Spread {
            first: 0x7fff_0000,
            apart,
        };
        let mut map = AddressMap::new(rt.alloc());
        same(&rt, &map.add(0x10000, 1)?, &true);
        add_half(&rt, &mut map, spread)?;
        find_half(&rt, &map, spread);
        walk_half(&rt, &map, spread);
        write_one(&rt, &mut map, spread);
        read_half(&rt, rt.alloc(), &map, Some(0x10000), spread)?;
        same(&rt, &map.after(None), &Some(0x10000));
        same(&rt, &map.after(Some(0x10000)), &Some(spread.address(0)));
    }
    Ok(())
}

/// The lesser of two addresses; each may be none.
#[test]
fn the_lesser_is_found(rt: HostRuntime) {
    same(&rt, &lesser(Some(0x10008), Some(0x10004)), &Some(0x10004));
    same(&rt, &lesser(None, Some(0x10004)), &Some(0x10004));
    same(&rt, &lesser(Some(0x10008), None), &Some(0x10008));
}
