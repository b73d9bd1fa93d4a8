//! What the dumps of a script show.
#![tactic(auto)]

mod laws;

pub use laws::dumps_show_graphs;
