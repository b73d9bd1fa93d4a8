//! Objects as memory holds them, by their addresses, and the steps that change them.
//!
//! A step is said for all raw objects that memory holds: one value is stored, an object is added, copied and
//! forwarded, a reference is turned to where its target went, some are forgotten. No graph stands behind them.
#![tactic(auto)]

mod laws;
mod moves;
mod pages;
mod steps;

pub use laws::{
    added_objects_are_held, changed_pages_are_kept, fewer_objects_are_held,
    kept_pages_are_of_one_table, kept_pages_compose, moved_objects_are_held,
    other_objects_are_held, same_objects_are_held, stored_objects_are_held,
    turned_references_are_held,
};
pub use moves::{evacuate, goes_to, in_regions, turn_object, turn_slot};
pub use pages::{drop_page, map_page};
pub use steps::{add_object, store_value};
