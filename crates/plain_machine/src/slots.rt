//! Slots of objects, by field name or index, and what they hold.
ghost use Rattle.std.specs.Prelude.{◌≡◌, false, Ok, Err, IfOk, MatchResult};
ghost use Rattle.class_layout.specs.Kinds.{is_ref};
ghost use Rattle.heap_graph.specs.Sizes.{is_too_large};
ghost use Rattle.heap_graph.specs.declared.names.Shape.{Shape};
ghost use Rattle.heap_graph.specs.Values as values;
ghost use Rattle.heap_graph.specs.Formed.{IsShape};
ghost use Rattle.heap_world.specs.Slots.{named_by, object_held, only_reference, slot_indexed, slot_named, stored_value};
ghost use Rattle.heap_world.specs.Sound.{IsSound};

use crate::part::Part;
use class_layout::{FieldAt, Kind, Name, Value, element_offset, fits};
use heap_graph::{Content, Held, Shape};
use heap_world::Refusal;
use plain_graph::{Object, is_ref};

/// A root's reference as a slot.
pub(crate) fn slot_of(held: Held) -> Content
    ensures { result ≡ values.slot_of held }
{
    match held {
        Held::Null => Content::Null,
        Held::Object(number) => Content::Object(number),
    }
}

/// A slot's reference. A number is none.
pub(crate) fn held_of(slot: Content) -> Held
    ensures { result ≡ values.held_of slot }
{
    match slot {
        Content::Object(number) => Held::Object(number),
        Content::Number(_) | Content::Null => Held::Null,
    }
}

/// A reference, where the kind's values are references.
pub(crate) fn only_reference(kind: Kind, held: Held) -> Result<Held, Refusal>
    ensures { result ≡ only_reference (is_ref kind) held }
{
    if is_ref(kind) {
        Ok(held)
    } else {
        Err(Refusal::Misfit)
    }
}

/// What a value stores in a slot of a kind, where `named` is what the root that it names holds.
pub(crate) fn stored_value(kind: Kind, value: &Value, named: Held) -> Result<Content, Refusal>
    ensures { result ≡ stored_value kind value.now named }
{
    match value {
        Value::Number(z) if fits(kind, *z) => Ok(Content::Number(*z)),
        Value::Null if is_ref(kind) => Ok(Content::Null),
        Value::Root(_) if is_ref(kind) => Ok(slot_of(named)),
        _ => Err(Refusal::Misfit),
    }
}

impl Part {
    /// What a value names, where it names a root that stands.
    pub(crate) fn named_by(&self, value: &Value) -> Result<Held, Refusal>
        ensures { result ≡ named_by self.now.graph value.now }
    {
        match value {
            Value::Root(name) => self.graph.held_by_root(name),
            Value::Number(_) | Value::Null => Ok(Held::Null),
        }
    }

    /// The object that a root holds.
    #[tactic(auto, using(crate::proofs::Objects::has_shape))]
    pub(crate) fn object_held(&self, held: Held) -> Result<&Object, Refusal>
        requires sound { IsSound self.now }
        ensures object { MatchResult result (λ o. object_held self.now.graph held ≡ Ok o.now) (λ why. object_held self.now.graph held ≡ Err why) }
        ensures shape { IfOk result (λ o. IsShape self.now.graph.classes o.now.shape) }
    {
        let Held::Object(number) = held else {
            return Err(Refusal::Null);
        };
        match self.graph.object_at(number) {
            Some(o) => Ok(o),
            None => Err(Refusal::Null),
        }
    }

    /// Where a field of an object stands. An array has none.
    pub(crate) fn slot_named(&self, o: &Object, field: &Name) -> Result<FieldAt, Refusal>
        requires shape { IsShape self.now.graph.classes o.now.shape }
        ensures { result ≡ slot_named self.now.graph.classes o.now.shape field.now }
    {
        match o.shape() {
            Shape::Instance(class) => self
                .graph
                .classes()
                .field(class, field)
                .ok_or(Refusal::NoField),
            Shape::Array { .. } => Err(Refusal::NoField),
        }
    }

    /// Where an element of an object stands. An instance has none.
    pub(crate) fn slot_at(&self, o: &Object, index: u32) -> Result<FieldAt, Refusal>
        requires shape { IsShape self.now.graph.classes o.now.shape }
        ensures { result ≡ slot_indexed o.now.shape index }
    {
        match o.shape() {
            Shape::Instance(_) => Err(Refusal::NotArray),
            Shape::Array { kind, count } if index < count => Ok(FieldAt {
                kind,
                offset: element_offset(kind, index) as u32,
                weak: false,
            }),
            Shape::Array { .. } => Err(Refusal::IndexRange),
        }
    }
}
