//! A collection of the objects that memory holds: the live ones are copied into fresh regions, every reference to them is
//! corrected, and what isn't reached is gone.
#![tactic(auto)]

mod collect;
mod lists;
mod phases;
mod plan;
mod weak;

pub use collect::{Kept, collect_objects};
pub use lists::young_slots;
pub use phases::turn_references;
