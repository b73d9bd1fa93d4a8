//! Runs of pages, one directly behind the other, mapped and released together.
#![tactic(auto)]

mod laws;
mod runs;

pub use laws::{runs_are_counted, runs_are_of_one_table, runs_grow, runs_join};
pub use runs::{map_reserved, map_run, release_run};
