//! Objects in pages: headers, values and references at their addresses.
//!
//! An object stands at a multiple of 8: its class word, its lock word, the length of an array, each value at its
//! offset, and zeros between and behind them up to its rounded size.
#![tactic(auto)]

mod headers;
mod heap_view;
mod laws;
mod names;
mod objects;
mod values;
mod words;

pub use headers::{read_header, read_shape, set_forward};
pub use heap_graph::Shape;
pub use heap_view::{HeapView, Seen};
pub use laws::{
    all_references, alone_stays, copies_stand, forwarded_objects_stand, headers_read_back,
    mapped_is_below, more_classes_stand, objects_are_their_bytes, others_stand,
    pages_are_of_one_table, places_lie_in_objects, reads_add_up, reads_are_counted,
    references_rise, same_values_stand, seen_objects_stand, stored_values_stand, values_read_back,
    values_stand,
};
pub use names::{Header, Heap, Slot};
pub use objects::{copy_object, ref_slot, reference_at, size_of, write_new};
pub use values::{load, store};
