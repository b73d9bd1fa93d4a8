//! Classes, their fields, and where the fields stand in objects.
#![tactic(auto)]

mod arrays;
mod classes;
mod kind;
mod laws;
mod name;
mod placing;
mod row;

pub use arrays::{array_size, array_unrounded, element_offset};
pub use classes::{Classes, DefineError};
pub use kind::{FieldAt, FieldDecl, Kind, Value, fits};
pub use laws::{inherited_places_come_first, layout_rule, places_have_declared_kinds};
pub use name::Name;
