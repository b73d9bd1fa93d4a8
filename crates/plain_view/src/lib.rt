//! What a dump sees of a plain graph: the graph, and the table of addresses that the first regions and slots give.
#![tactic(auto)]

mod addresses;
mod examples;
mod view;

pub use view::View;
