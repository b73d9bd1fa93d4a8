ghost use Rattle.std.specs.Prelude.{◌≡◌, IfOk, nat_eq};
ghost use Rattle.std.specs.List.{position};
ghost use Rattle.heap_graph.specs.Values.{empty_slot, value_at, with_stored};

use crate::is_ref;
use class_layout::FieldAt;
use heap_graph::{Content, Stored};
use std::alloc::{AllocError, Global};

/// What a field or an element holds, given what was stored: null or 0 where nothing was.
pub(crate) fn value_at(stored: &[Stored], at: &FieldAt) -> Content
    ensures { result ≡ value_at stored.now at.now }
{
    for s in stored {
        if s.at.offset == at.offset {
            return s.value;
        }
    }
    if is_ref(at.kind) {
        Content::Null
    } else {
        Content::Number(0)
    }
}

/// What was stored, with one more store: in the slot's old place, or last.
#[tactic(auto, using(crate::proofs::Stores::stores))]
pub(crate) fn with_stored(
    alloc: Global,
    stored: &[Stored],
    new: &Stored,
) -> Result<Vec<Stored>, AllocError>
    ensures { IfOk result (λ v. v.items ≡ with_stored stored.now new.now) }
{
    let mut copies = Vec::from_slice(alloc, stored)?;
    match index_of(stored, &new.at) {
        Some(i) => copies[i] = *new,
        None => copies.push(*new)?,
    }
    Ok(copies)
}

// Which of the stores was to the slot.
fn index_of(stored: &[Stored], at: &FieldAt) -> Option<usize>
    ensures { result ≡ position (λ s. nat_eq s.at.offset at.now.offset) stored.now }
{
    stored.iter().position(|s| s.at.offset == at.offset)
}
