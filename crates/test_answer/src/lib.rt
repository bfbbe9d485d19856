//! Tests of reports and of runs: the text of a report, the words of a command line, and what several
//! workers do in a run. What one run prints for a file is a case of `check_rows`.
//!
//! They show what no contract says. Reports have the expected bytes. Each call succeeds with ample
//! memory. A run uses its workers, and several give what one gives. The crate has no code of its
//! own, so that the crates under test are not proved again for their tests.
//!
//! - `row_files`: the files of the worked rows.
//! - `report_text`, `live_names`: the text of a graph, and of live registers, that are given.
//! - `shared_text`: the text of a report by several workers, and which reports are worth that.
//! - `command_lines`: what words ask for.
//! - `one_run`: a run of the program.
//! - `long_row`: a report of many lines. `shared_runs`: runs whose text workers share.
//! - `rounds`: reports whose text is made in many rounds.
//! - `several_workers`: workers against one thread.
//! - `worth`: how many workers a step is worth.
//! - `gated_runs`: runs whose workers gates hold: that they work at the same time, and steal.
#![tactic(auto)]

#[cfg(test)]
mod asserts;
#[cfg(test)]
mod command_lines;
#[cfg(test)]
mod gated_runs;
#[cfg(test)]
mod live_names;
#[cfg(test)]
mod long_row;
#[cfg(test)]
mod one_run;
#[cfg(test)]
mod report_text;
#[cfg(test)]
mod rounds;
#[cfg(test)]
mod row_files;
#[cfg(test)]
mod several_workers;
#[cfg(test)]
mod shared_runs;
#[cfg(test)]
mod shared_text;
#[cfg(test)]
mod worth;
