//! What a written dump shows, in the words of its reader.
#![tactic(auto)]

mod examples;
mod laws;

pub use laws::{one_graph_is_shown, written_shows};
