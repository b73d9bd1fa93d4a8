//! The listing of a dump, line by line.
#![tactic(auto)]

mod counts;
mod examples;
mod lines;
mod put;

pub use lines::write_listing;
pub use put::{id_of, put_piece, put_pieces};
