//! Tests of live registers: those of one function (`live_regs`) and of all (`live_crew`).
//!
//! They show what no contract says. The definition gives what is expected of worked programs, each
//! call succeeds with ample memory, and several workers give what one gives. The crate has no code
//! of its own, so that the crates under test are not proved again for their tests.
//!
//! - `files`: the files of worked programs.
//! - `all_calls`: the live registers of a file by every call, which agree.
//! - `masks`: those of worked programs.
//! - `effects`: what single instructions read and write.
#![tactic(auto)]

#[cfg(test)]
mod all_calls;
#[cfg(test)]
mod asserts;
#[cfg(test)]
mod effects;
#[cfg(test)]
mod files;
#[cfg(test)]
mod masks;
