//! A graph in pages: its objects stand at the addresses that are computed from where a process keeps them, and the mapped
//! pages are theirs.
#![tactic(auto)]

mod laws;
mod steps;

pub use laws::{
    addresses_differ, cleared_objects_are_held, cleared_pages_are_kept, collected_graphs_stand,
    computed_addresses_stay, graphs_are_raw_objects, grown_graphs_stand, names_have_pages,
    new_objects_lie_beside, pages_follow_objects, pages_have_bytes, stored_graphs_stand,
};
pub use steps::{add_to_graph, store_in_graph};
