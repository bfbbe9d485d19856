//! How many workers a step of a graph's making is worth.

ghost use Rattle.std.specs.Prelude.{◌≤◌, ◌<◌};

/// A step of a graph's making that threads share.
#[derive(Clone, Copy, Debug, PartialEq, Eq)]
pub enum Step {
    /// To find the tables of all code; its work is counted in halfwords of code.
    Tables,
    /// To make the blocks and edges; in halfwords of code.
    Outline,
    /// To make the functions; in blocks.
    Functions,
    /// To find the tail calls; in edges.
    Tails,
}

/// How many shares of work a step has at least for which threads are started. They take 1 to 2 ms
/// together. To start threads and wait for them takes less than 1 ms, but several where others want
/// the processors.
pub const LEAST_SHARES: usize = 3;

impl Step {
    /// How much of its work a worker gets at least: what takes some 0.3 to 0.7 ms.
    pub fn share(self) -> usize
        ensures { 0 < result }
    {
        match self {
            Step::Tables => 65_536,
            Step::Outline => 32_768,
            Step::Functions => 8_192,
            Step::Tails => 16_384,
        }
    }
}

/// How many of so many workers this much work of a step is worth. Each gets a
/// [`share`](Step::share) of it at least. If there are fewer than [`LEAST_SHARES`], one does it.
pub fn workers_worth(step: Step, work: usize, workers: u32) -> u32
    requires { 1 ≤ workers }
    ensures some { 1 ≤ result }
    ensures most { result ≤ workers }
{
    let shares = work / step.share();
    if shares < LEAST_SHARES {
        1
    } else if shares < workers as usize {
        shares as u32
    } else {
        workers
    }
}
