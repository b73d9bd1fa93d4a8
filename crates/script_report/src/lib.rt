//! The report of a script, as a function of its bytes, and laws about it.
#![tactic(auto)]

mod examples;
mod laws;
mod own_examples;

pub use laws::{commands_are_answered, lines_come_after_all_labels, scripts_are_isolated};
