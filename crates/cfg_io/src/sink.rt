//! What bytes are written to.
ghost use Rattle.std.specs.Prelude.{◌≡◌, ℕ, ◌≤◌, ◌<◌, List, length, take, Option, IfOk, OnErr};
ghost use Rattle.cfg_io.specs.Fault.{most_faults, Rose};
ghost use Rattle.cfg_io.specs.Told.{Appends};

use crate::Failed;

/// A place that bytes are written to, one piece after another.
///
/// Two ghost members say what it means. Whether it tells the bytes never changes.
pub trait Sink {
    /// How often the sink has failed: a number that never falls, and stays at 2^64 - 1 once it is
    /// there.
    ghost faults: { Self → ℕ };

    /// The bytes written so far, if the sink tells them.
    ghost written: { Self → Option (List ℕ) };

    /// Appends the first bytes of `piece`, which has one at least, and answers how many, from 1 on.
    ///
    /// [`Failed`]: nothing was appended.
    fn write(&mut self, piece: &[u8]) -> Result<usize, Failed>
        requires { 0 < length piece.now }
        ensures some { IfOk result (λ n. 0 < n) }
        ensures in_bounds { IfOk result (λ n. n ≤ length piece.now) }
        ensures appends { IfOk result
            (λ n. Appends (written self.old) (take n piece.now) (written self.new)) }
        ensures failed_appends_nothing { OnErr result (written self.new ≡ written self.old) }
        ensures never_falls { faults self.old ≤ faults self.new }
        ensures failed { OnErr result (Rose (faults self.old) (faults self.new)) };

    /// No count is above 2^64 - 1.
    ghost faults_fit: { (x : Self) → faults x ≤ most_faults };
}
