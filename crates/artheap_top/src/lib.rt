//! The top call: a job from its words, its input and a new machine, to its report and its status.
#![tactic(auto)]

mod soak;
mod soak_examples;
mod summary;
mod tally;
mod top;
mod words;

pub use job_status::Status;
pub use script_report::{commands_are_answered, scripts_are_isolated};
pub use script_run::Machine;
pub use top::artheap;
