//! Tests of the written machine, and of its moves in a graph.
//!
//! Each test tells something that no contract can say: that the definitions give what the manual
//! says at its corner cases, that a call answers while there is memory, and that the generic calls
//! run at a type.
//!
//! - `operations`: what each kind of instruction computes (`rv_operations`).
//! - `programs`: small programs run to a trap (`rv_machine`).
//! - `memory`: the memory of a file when its program starts.
//! - `cover`: the moves of steps in an outline (`edge_cover`).
//! - `traces`: the traces of the worked rows (`walk_trace`).
//! - `small_file`: the file that these tests share.
#![tactic(auto)]

#[cfg(test)]
mod asserts;
#[cfg(test)]
mod cover;
#[cfg(test)]
mod memory;
#[cfg(test)]
mod operations;
#[cfg(test)]
mod programs;
#[cfg(test)]
mod small_file;
#[cfg(test)]
mod traces;
