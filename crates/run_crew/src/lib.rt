//! One whole run of the program `cfg`, by as many workers as its words ask for. What a run is, and
//! the run on one thread, are in `cfg_run`.
//!
//! - `whole_run`: a whole run over any input and any sinks, and what is proved of it.
//! - `workers`: workers as the maker of what a text shows.
#![tactic(auto)]

mod whole_run;
mod workers;

pub use whole_run::run;
