//! The plain object graph of a process, as values: each call computes a definition of the graph and gives a new value.
//! It keeps no index, no cache and no page.
#![tactic(auto)]

mod allocation;
mod collection;
mod fills;
mod fork;
mod graph;
mod object;
mod packing;
mod reach;
mod roots;
mod sizes;
mod values;

pub use allocation::Allocated;
pub use graph::Graph;
pub use object::Object;
pub use packing::{after, place};
pub use sizes::{is_large, is_ref, is_too_large, size_in, unrounded};
