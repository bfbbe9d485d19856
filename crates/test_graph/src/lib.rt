//! Tests of the crates that build graphs, in a crate of their own: so none of those is proved a
//! second time for its tests.
//!
//! A contract says what an answer is if there is one. It cannot say that memory is left for one,
//! nor that the definitions which it cites mean what the standard does. So each public call is made
//! here at least once, and what it answers is compared with worked examples.
//!
//! - `listed_programs`: the worked programs of `test_programs`, asked as the programs that they are.
//! - `graphs`: their graphs.
//! - `file_code`: the code of a file as a program, against walks that decode each instruction.
//! - `reached_graphs`: the graphs of the code of files.
//! - `cut_tables`: the tables of all code (`code_tables`), and how many entries are kept of each.
//! - `address_maps`: many addresses of a map, of one page and of several, near and far.
//! - `state_program`: a small program, for the tests of changes and of work that is left.
//! - `state_changes`: each change of a state on it, one after the other.
//! - `waits`: few and many waiters of one terminator, in several orders.
//! - `work_left`: the work that is left in a state, found by one worker and by several.
//! - `gaps`: the ranges that bounds leave between them.
//! - `closed`, `closed_states`: the closed states of the worked programs.
//! - `closed_marks`: the marks of these, against those that are made without a state.
#![tactic(auto)]

#[cfg(test)]
mod address_maps;
#[cfg(test)]
mod asserts;
#[cfg(test)]
mod closed;
#[cfg(test)]
mod closed_marks;
#[cfg(test)]
mod closed_states;
#[cfg(test)]
mod cut_tables;
#[cfg(test)]
mod file_code;
#[cfg(test)]
mod gaps;
#[cfg(test)]
mod graphs;
#[cfg(test)]
mod listed_programs;
#[cfg(test)]
mod reached_graphs;
#[cfg(test)]
mod state_changes;
#[cfg(test)]
mod state_program;
#[cfg(test)]
mod waits;
#[cfg(test)]
mod work_left;
