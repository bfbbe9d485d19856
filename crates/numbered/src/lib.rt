//! Numbers for the addresses of a program, and the addresses that are marked by number.
//!
//! What is known of a program's instructions is kept in arrays, by the numbers of their addresses. The
//! numbers rise with the addresses, so marks read in the order of the numbers give a list of
//! addresses that rises. Whoever works over any program asks for no more than this: the builder of
//! one thread, what reads a closed state, and the makers and checkers of certificates. Nothing is
//! followed here, and no graph is built.
//!
//! - `numbered`: a program whose addresses are numbered.
//! - `file_code`: the numbers of the code of a file.
//! - `marked`: the addresses that are marked, in their order.
#![tactic(auto)]

mod file_code;
mod marked;
mod numbered;

pub use marked::{first_marked, marked_addresses, marked_among, marked_between};
pub use numbered::Numbered;
