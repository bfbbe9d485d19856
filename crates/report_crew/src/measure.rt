//! Which lines are worth several workers, and how many are a round's.

use crate::sharing::PARTS_PER_WORKER;
use graph_report::ReportLines;

/// How many lines a part of a round has: some 190 KB of text.
pub const PART_LINES: usize = 4_096;

/// The fewest lines that several workers share. Fewer are little work against the start of threads.
pub const LEAST_LINES: usize = 8_192;

/// The most bytes of text that are kept at once: 256 MiB. The lines of a round have that many only
/// if names are long.
pub const MOST_BYTES: usize = 268_435_456;

/// Of how many lines so many workers make the text at once, in a round: four parts for each worker,
/// of [`PART_LINES`] lines each.
pub fn lines_at_once(workers: u32) -> usize {
    (workers as usize).saturating_mul(PARTS_PER_WORKER * PART_LINES)
}

/// Whether several workers are to make the text of these lines, which is then kept as a whole.
/// Other text is made piece by piece while it is written: if it has few lines, and if it might have
/// more bytes than are kept at once.
/// Time: O(f log s) for f functions and s seeds.
pub fn is_worth_sharing(lines: &ReportLines) -> bool {
    LEAST_LINES <= lines.count() && lines.most_bytes() <= MOST_BYTES
}
