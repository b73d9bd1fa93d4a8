//! Dumps of a heap and texts of its table of addresses, written to a shelf from whatever a view shows.
#![tactic(auto)]

mod class_dump;
mod dump;
mod error;
mod examples;
mod fields;
mod front;
mod objects;
mod pieces;
mod segment;
mod strings;
mod table_text;
mod values;

pub use dump::write_dump;
pub use error::DumpError;
pub use table_text::write_map;
