//! The plain object graph of a process: what the heap's machinery is proved to compute. It speaks of no frames,
//! bitmaps, cards or regions in lists. What stands here as code is the names of things, and laws.
#![tactic(auto)]

mod examples;
mod laws;
mod names;

pub use laws::{
    collecting_costs_no_more, collecting_leaves_nothing_dangling, collecting_twice_is_once,
    collecting_uses_no_more, kept_is_immune_or_reached, places_are_apart, places_are_packed,
    places_are_slots, places_hold_what_was_stored, reaching_is_a_path, values_fit_their_places,
    young_objects_are_packed,
};
pub use names::{Content, Held, Place, Root, Shape, Stored};
