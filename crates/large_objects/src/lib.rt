//! The large objects: each in a slot of its own, which it keeps for as long as it stands.
#![tactic(auto)]

mod larges;
mod laws;
mod rows;
mod table;

pub use larges::Larges;
pub use laws::{
    marks_keep_pages, new_tables_fit, pages_are_counted, pages_are_of_rows, rows_are_found,
    rows_cost_at_least_one, written_pages_are_counted,
};
pub use rows::LargeRow;
