//! The lists of regions: in use, from and free, linked by index through one table.
#![tactic(auto)]

mod chains;
mod lists;

pub use lists::{RegionLists, RegionRow};
