//! A collection of the graph that a process holds in its pages, and what the collection of the objects in memory means for it.
#![tactic(auto)]

mod collection;
mod laws;

pub use collection::collect;
pub use laws::{
    collected_graphs_are_held, collected_graphs_are_kept, graphs_can_be_collected,
    held_heaps_have_room, mortal_objects_are_counted, reached_objects_are_reached,
    rows_have_addresses, sealed_graphs_are_kept,
};
