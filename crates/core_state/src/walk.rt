//! Walks over the keys of all shards of one kind, in their order.

ghost use Rattle.std.specs.Prelude.{◌≡◌, ◌/◌, ◌<◌, ◌^◌, Some, IsTrue, IfSome, MatchOption, length};
ghost use Rattle.core_state.specs.Least.{IsLeast, IsAbove};
ghost use Rattle.core_state.specs.inner.Walk.{IsKey, HaveOwn, is_in_line};

use address_map::lesser;

/// A shard, as the keys that it has.
pub(crate) trait Keys {
    ghost use Rattle.std.specs.Prelude.{◌≡◌, ◌<◌, ◌/◌, ℕ, Bool, IsTrue};
    ghost use Rattle.core_state.specs.Least.{IsLeast, IsAbove};

    /// Whether it has a key.
    ghost has: { Self → ℕ → Bool };

    /// The least key above `a`, or the least of all if there is no `a`.
    fn after(&self, a: Option<u64>) -> Option<u64>
        ensures { IsLeast (λ k. IsTrue (has self.now k) × IsAbove a k) result };

    /// The least key above `a` in the page of 4096 bytes that `a` lies in.
    fn after_in_page(&self, a: u64) -> Option<u64>
        ensures { IsLeast
            (λ k. IsTrue (has self.now k) × (a < k) × (k / 4096 ≡ a / 4096)) result };
}

/// The least key above `a`, or the least of all if there is no `a`, of 64 shards.
///
/// Lines of 64 bytes belong to the shards in turn, so the shards are asked in the order of the
/// lines from that of `a` on. A shard whose next key lies in the very line that it is asked for has
/// the least one of all. Mostly it lies in the page of `a`, so the shards are asked for that page
/// first.
pub(crate) fn key_after<S: Keys>(shards: &[S], a: Option<u64>) -> Option<u64>
    requires count { length shards.now ≡ 64 }
    requires own { HaveOwn S.has shards.now }
    ensures { IsLeast (λ k. IsKey S.has shards.now k × IsAbove a k) result }
{
    if let Some(key) = key_in_page(shards, a) {
        return Some(key);
    }
    let line = line_of(a);
    let mut least = None;
    for j in 0..64 {
        let key = shards[((line + j) % 64) as usize].after(a);
        if lies_in(key, line + j) {
            return key;
        }
        least = lesser(least, key);
    }
    least
}

/// The least key above `a` of 64 shards, if it lies in the page of 4096 bytes that `a` lies in.
///
/// A shard has one line of each page. So the first key that is found, in the order of the lines,
/// is the least.
fn key_in_page<S: Keys>(shards: &[S], a: Option<u64>) -> Option<u64>
    requires count { length shards.now ≡ 64 }
    requires own { HaveOwn S.has shards.now }
    ensures { IfSome result
        (λ key. IsLeast (λ k. IsKey S.has shards.now k × IsAbove a k) (Some key)) }
{
    let a = a?;
    let line = a / 64;
    for j in 0..64 - line % 64 {
        if let Some(key) = shards[((line + j) % 64) as usize].after_in_page(a) {
            return Some(key);
        }
    }
    None
}

/// The number of the line of 64 bytes that `a` lies in; the first one if there is no `a`.
fn line_of(a: Option<u64>) -> u64
    ensures line { MatchOption a (result ≡ 0) (λ a. result ≡ a / 64) }
    ensures small { result < 2 ^ 58 }
{
    match a {
        Some(a) => a / 64,
        None => 0,
    }
}

/// Whether there is a key, and it lies in that line.
fn lies_in(key: Option<u64>, line: u64) -> bool
    ensures { result ≡ is_in_line key line }
{
    match key {
        Some(key) => key / 64 == line,
        None => false,
    }
}
