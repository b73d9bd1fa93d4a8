//! Shortest paths from the roots of a dump to its objects.
#![tactic(auto)]

mod find;
mod laws;
mod levels;
mod path_error;
mod put;
mod way;

pub use find::find_path;
pub use laws::{distances_show_themselves, no_path_ends_without_distance, told_path_is_shortest};
pub use path_error::PathError;
