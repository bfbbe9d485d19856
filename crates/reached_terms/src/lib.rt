//! Which instructions that end a chain a program reaches from its seeds, which of them return, and
//! where blocks are known to start: at least where control is sent.
//!
//! An instruction of a chain is reached if and only if control comes to the chain's end, and returns
//! if the end does. So the closure of a program is found over its terminators alone: what is known
//! of each is kept in arrays, by the number of its address, and whoever waits for it to return is
//! linked to it. Each address at which a chain is entered on the way is marked. Of all this the
//! marks are kept: of what is reached, of what returns, and of where control is sent.
//!
//! - `marks`: what is known of the terminators, and the changes of it.
//! - `closure`: the closure from the seeds.
//! - `reached`: what a program reaches, as marks.
#![tactic(auto)]

mod closure;
mod marks;
mod reached;

pub use reached::ReachedTerms;
