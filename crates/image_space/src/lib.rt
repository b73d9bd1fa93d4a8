//! The image space: boot objects, each directly behind the one before, in the pages of the image window.
#![tactic(auto)]

mod laws;
mod space;

pub use laws::{
    new_tables_fit, pages_are_of_objects, spaces_keep_sizes, spots_are_sums, spots_stay_apart,
};
pub use space::{ImageError, ImageSpace};
