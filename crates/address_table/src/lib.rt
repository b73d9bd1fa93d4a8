//! Where the objects of a graph stand: the table of their addresses, computed from where a process keeps what may stand
//! in several places.
#![tactic(auto)]

mod laws;

pub use laws::{
    addresses_are_listed, first_homes_suffice, null_is_no_object, objects_lie_apart, tables_fit,
};
