//! The zygote space: what forks promoted, in segments of objects that stand one directly behind the other.
#![tactic(auto)]

mod laws;
mod space;

pub use laws::{
    closing_ends_a_segment, new_tables_fit, pages_are_of_objects, segments_are_gained,
    spaces_keep_segments,
};
pub use space::{ZygoteError, ZygoteSpace};
