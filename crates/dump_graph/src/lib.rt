//! The graph of a dump: its classes and objects in order, which of them are roots, and the edges between them.
#![tactic(auto)]

mod classes;
mod climb;
mod graph;
mod guesses;
mod laws;
mod node;
mod numbers;
mod parts;
mod references;

pub use climb::{Climb, Up, climbed_by};
pub use graph::DumpGraph;
pub use laws::layouts_lead_up;
