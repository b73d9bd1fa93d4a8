//! The mod-union table: which cards of an immune space hold a reference out of it, to an object that moves or may go.
//!
//! Between collections, stores into objects of an immune space make their cards dirty. An update scans the dirty cards
//! and the ones that it recorded before, and no others.
#![tactic(auto)]

mod laws;
mod noted;
mod scan;
mod search;
mod table;

pub use laws::{
    clean_cards_hold_no_outward_slot, outward_slots_are_unique, updated_spaces_can_be_updated,
};
pub use table::ModUnion;
