//! A promotion of the objects that memory holds: those of the regions move to a new segment of the zygote space, the large
//! ones are promoted where they are, and every reference is corrected.
#![tactic(auto)]

mod copies;
mod lists;
mod plan;
mod promotion;

pub use promotion::{PromoteError, promote_objects};
