//! The live objects of a process: those that a collection keeps, found by following references over real pages.
#![tactic(auto)]

mod laws;
mod live;
mod marks;
mod order;

pub use laws::{live_lists_are_unique, reach_follows_references};
pub use live::{Live, find_live};
