//! Tests of the crates that read and make files.
//!
//! Each test tells something that no contract can say: that the definitions fit files of another
//! tool, that a call answers while there is memory, and that each generic call runs at a type.
//!
//! - `transfer`: whole readings and writings (`cfg_io`).
//! - `images`: judging and reading an executable (`elf_image`).
//! - `profiles`: what attributes and declared tables say (`elf_image`).
//! - `landings`: where calls land by frames and exception tables (`landing_pads`).
//! - `symbols`: the functions that its symbols name, and those that do not return (`elf_symbols`).
//! - `making`: executables made from their parts (`elf_maker`).
//! - `large`: large executables made from one number (`big_case`).
//! - `small_files`: the files that these tests share.
#![tactic(auto)]

#[cfg(test)]
mod asserts;
#[cfg(test)]
mod images;
#[cfg(test)]
mod landings;
#[cfg(test)]
mod large;
#[cfg(test)]
mod making;
#[cfg(test)]
mod profiles;
#[cfg(test)]
mod small_files;
#[cfg(test)]
mod symbols;
#[cfg(test)]
mod transfer;
