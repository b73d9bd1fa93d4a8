//! A wide dump, converted: a dump of 1.0.3 whose identifiers have 4 bytes, numbered in the order in which they first
//! appear.
#![tactic(auto)]

mod classes;
mod conversion;
mod convert_error;
mod converted;
mod examples;
mod identifiers;
mod laws;
mod missing;
mod places;
mod sizes;
mod values;

pub use conversion::convert;
pub use convert_error::ConvertError;
pub use laws::{parts_are_converted, renamed_names, values_are_renamed};
