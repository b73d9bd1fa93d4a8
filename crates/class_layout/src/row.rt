//! What is kept of a class, and how its fields are placed.
ghost use Rattle.std.specs.Prelude.{◌≡◌, ℕ, ◌+◌, ◌*◌, ◌^◌, ◌<◌, ◌≤◌, length, slice_get, slice_index, IfOk, IfSome};
ghost use Rattle.model_numbers.specs.Numbers.{field_limit};

use crate::placing::place_all;
use crate::{FieldAt, FieldDecl, Kind, Name};
use std::alloc::{AllocError, Global};

// A class word and a lock word of 4 bytes each.
const HEADER_BYTES: u32 = 8;

/// What is kept of a class besides its name. All places are offsets in bytes from the start of an object.
#[derive(Clone, Drop)]
pub struct Row {
    pub(crate) parent: Option<u32>,
    /// The own fields, in the order of declaration.
    pub(crate) fields: Vec<FieldDecl>,
    /// Where each own field stands.
    pub(crate) offsets: Vec<u32>,
    /// How many references the superclasses have.
    pub(crate) refs_before: u32,
    /// How many own references there are. They stand one directly after the other.
    pub(crate) refs: u32,
    /// Where the first own reference stands, or would.
    pub(crate) first_ref: u32,
    /// Where the last field ends.
    pub(crate) end: u32,
}

impl Row {
    ghost use Rattle.std.specs.List.{position};
    ghost use Rattle.class_layout.specs.Names.{same_name};
    ghost use Rattle.class_layout.specs.Placing.{IsBehind, IsHeader};

    /// The row of a class without superclass and fields.
    pub(crate) fn header(alloc: Global) -> Row
        ensures { IsHeader result }
    {
        Row {
            parent: None,
            fields: Vec::new(alloc),
            offsets: Vec::new(alloc),
            refs_before: 0,
            refs: 0,
            first_ref: HEADER_BYTES,
            end: HEADER_BYTES,
        }
    }

    /// The row of a class with these fields, behind those of its superclass.
    pub(crate) fn behind(
        alloc: Global,
        parent: u32,
        before: &Row,
        fields: &[FieldDecl],
    ) -> Result<Row, AllocError>
        requires few { length fields.now ≤ field_limit }
        requires room { before.now.end + 400000 < 2 ^ 32 }
        requires few_refs { before.now.refs_before + before.now.refs < 2 ^ 32 }
        ensures { IfOk result (IsBehind parent before.now fields.now) }
    {
        let mut offsets = vec![in alloc; 0; fields.len()]?;
        let end = place_all(fields, before.end, &mut offsets);
        Ok(Row {
            parent: Some(parent),
            fields: fields.to_vec(alloc)?,
            offsets,
            refs_before: before.refs_before + before.refs,
            refs: fields.iter().filter(|f| f.kind.is_ref()).count() as u32,
            first_ref: Kind::Ref.place_from(before.end),
            end,
        })
    }

    // Which own field has the name.
    pub(crate) fn own_field(&self, name: &Name) -> Option<usize>
        ensures { result ≡ position (λ f. same_name f.name name.now) self.now.fields.items }
    {
        self.fields.iter().position(|f| f.name == *name)
    }

    // The place of an own field.
    pub(crate) fn field_at(&self, k: usize, weak: bool) -> FieldAt
        requires within { k < length self.now.fields.items }
        requires long { length self.now.offsets.items ≡ length self.now.fields.items }
        ensures { IfSome (slice_get self.now.fields.items k) (λ f.
            result ≡ record { kind = f.kind; offset = slice_index self.now.offsets.items k; weak = weak }) }
    {
        FieldAt {
            kind: self.fields[k].kind,
            offset: self.offsets[k],
            weak,
        }
    }
}
