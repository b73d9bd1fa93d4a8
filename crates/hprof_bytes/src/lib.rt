//! Dumps as bytes, put into a sink: the header, then the fields of the records in order.
#![tactic(auto)]

mod examples;
mod fields;
mod parts;
mod records;

pub use records::write_bytes;
