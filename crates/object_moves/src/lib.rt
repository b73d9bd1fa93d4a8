//! Objects of the regions that move together: they are copied one behind the other, and references are turned to where
//! their targets went.
#![tactic(auto)]

mod copies;
mod turns;

pub use copies::{copy_all, young_size};
pub use turns::{turn_all, turn_roots, turn_slots};
