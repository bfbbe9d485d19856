//! Which calls of an input or a sink in memory fail.
ghost use Rattle.std.specs.Prelude.{◌↔◌, IsTrue};
ghost use Rattle.cfg_io.specs.Script.{FailsNext};

/// Whether the number of the next call after `calls` of them is in `failing`. No call past the
/// 2^64 - 1st has its number there.
pub(crate) fn fails_next(failing: &[u64], calls: u64) -> bool
    ensures { IsTrue result ↔ FailsNext failing.now calls }
{
    match calls.checked_add(1) {
        Some(number) => failing.contains(&number),
        None => false,
    }
}
