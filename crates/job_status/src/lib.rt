//! What the jobs of `artheap` share: the status of each ending, why a job stopped, and what is said of an input.
#![tactic(auto)]

mod status;
mod stop;

pub use status::Status;
pub use stop::{Stop, job_status};
