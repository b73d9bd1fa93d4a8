//! A promotion of the graph that a process holds in its pages, and what the promotion of the objects in memory means for it.
#![tactic(auto)]

mod laws;
mod promotion;

pub use laws::{
    collected_graphs_have_their_spots, graphs_can_be_promoted, promoted_graphs_are_kept,
    sealed_graphs_have_no_spots, spots_have_pages,
};
pub use promotion::promote;
