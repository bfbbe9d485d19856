//! What bytes are read from.
ghost use Rattle.std.specs.Prelude.{◌≡◌, ◌↔◌, ℕ, ◌≤◌, ◌<◌, List, [], length, take, Bool, Option};
ghost use Rattle.std.specs.Prelude.{IfSome, IfOk, OnOk, OnErr};
ghost use Rattle.cfg_io.specs.Fault.{most_faults, Rose};
ghost use Rattle.cfg_io.specs.Opened.{Opened, Nothing, Something, IsOpened, told_path};
ghost use Rattle.cfg_io.specs.Told.{Takes};

use crate::Failed;

/// A source of bytes that is opened once, by a path, and then read from front to back.
///
/// Four ghost members say what it means. Which paths and bytes it tells never changes.
pub trait Input {
    /// How often the input has failed: a number that never falls, and stays at 2^64 - 1 once it is
    /// there.
    ghost faults: { Self → ℕ };

    /// Whether something is opened and, if the input tells it, by which path.
    ghost opened: { Self → Opened };

    /// Whether the input tells the path that it was opened by.
    ghost tells_path: { Self → Bool };

    /// The bytes still to be read, if the input tells them.
    ghost rest: { Self → Option (List ℕ) };

    /// Opens what is at `path`, while nothing is opened.
    ///
    /// [`Failed`]: nothing is opened then.
    fn open(&mut self, path: &str) -> Result<(), Failed>
        requires { opened self.old ≡ Nothing }
        ensures opens { OnOk result
            (opened self.new ≡ Something (told_path (tells_path self.old) path.now)) }
        ensures stays_closed { OnErr result (opened self.new ≡ Nothing) }
        ensures takes_nothing { rest self.new ≡ rest self.old }
        ensures tells_as_before { tells_path self.new ≡ tells_path self.old }
        ensures never_falls { faults self.old ≤ faults self.new }
        ensures failed { OnErr result (Rose (faults self.old) (faults self.new)) };

    /// Reads the next bytes into the front of `buf`, which has room for one at least, and answers
    /// how many: 0 exactly at the end.
    ///
    /// [`Failed`]: no byte was taken. What is opened stays opened after either answer.
    fn read(&mut self, buf: &mut [u8]) -> Result<usize, Failed>
        requires is_opened { IsOpened (opened self.old) }
        requires has_room { 0 < length buf.old }
        ensures in_bounds { IfOk result (λ n. n ≤ length buf.new) }
        ensures takes { IfOk result (λ n. Takes (rest self.old) (take n buf.new) (rest self.new)) }
        ensures ends { IfOk result (λ n. IfSome (rest self.old) (λ left. (n ≡ 0) ↔ (left ≡ []))) }
        ensures failed_takes_nothing { OnErr result (rest self.new ≡ rest self.old) }
        ensures stays_opened { opened self.new ≡ opened self.old }
        ensures tells_as_before { tells_path self.new ≡ tells_path self.old }
        ensures never_falls { faults self.old ≤ faults self.new }
        ensures failed { OnErr result (Rose (faults self.old) (faults self.new)) };

    /// No count is above 2^64 - 1.
    ghost faults_fit: { (x : Self) → faults x ≤ most_faults };
}
