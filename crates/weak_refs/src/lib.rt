//! References that do not keep what they name: those whose target was not kept become null.
#![tactic(auto)]

mod clear;
mod laws;

pub use clear::{KeepTest, clear_dead};
pub use laws::{cleared_references, references_are_of_one_table};
