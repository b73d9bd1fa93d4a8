//! Commands that read slots, and those that write roots alone.
ghost use Rattle.std.specs.Prelude.{◌≡◌, ℕ, List, Ok, Err, IfOk, MatchResult};
ghost use Rattle.heap_graph.specs.Values.{value_at};
ghost use Rattle.heap_world.specs.Acts.{array_name, copy_root, drop_held, get_element, get_field, held_reply, load_element, load_field, load_slot, shape_name, show_root, shown, slot_reply, write_held};
ghost use Rattle.heap_world.specs.Effect.{effect_or, tells};
ghost use Rattle.heap_graph.specs.Formed.{IsShape};
ghost use Rattle.heap_world.specs.Sound.{IsSound};
ghost use Rattle.plain_machine.specs.Outcomes.{IsOutcome};

use crate::outcome::Outcome;
use crate::part::Part;
use crate::slots::{held_of, only_reference};
use class_layout::{FieldAt, Kind, Name};
use heap_graph::{Content, Held, Shape};
use heap_world::{Refusal, Reply};
use plain_graph::Object;
use std::alloc::AllocError;

fn slot_reply(slot: Content) -> Reply
    ensures { result ≡ slot_reply slot }
{
    match slot {
        Content::Number(z) => Reply::Number(z),
        Content::Null => Reply::Null,
        Content::Object(number) => Reply::Object(number),
    }
}

fn held_reply(held: Held) -> Reply
    ensures { result ≡ held_reply held }
{
    match held {
        Held::Null => Reply::Null,
        Held::Object(number) => Reply::Object(number),
    }
}

impl Part {
    /// The object that a root holds, and where one of its fields stands.
    fn field_of(&self, root: &Name, field: &Name) -> Result<(&Object, FieldAt), Refusal>
        requires sound { IsSound self.now }
        ensures get { MatchResult result
            (λ r. get_field self.now root.now field.now ≡ Ok (tells self.now (slot_reply (value_at r.0.now.slots r.1))))
            (λ why. get_field self.now root.now field.now ≡ Err why) }
        ensures load { (to : List ℕ) → MatchResult result
            (λ r. load_field self.now to root.now field.now ≡ load_slot self.now to r.0.now r.1)
            (λ why. load_field self.now to root.now field.now ≡ Err why) }
    {
        let held = self.graph.held_by_root(root)?;
        let o = self.object_held(held)?;
        let at = self.slot_named(o, field)?;
        Ok((o, at))
    }

    /// The object that a root holds, and where one of its elements stands.
    fn element_of(&self, root: &Name, index: u32) -> Result<(&Object, FieldAt), Refusal>
        requires sound { IsSound self.now }
        ensures get { MatchResult result
            (λ r. get_element self.now root.now index ≡ Ok (tells self.now (slot_reply (value_at r.0.now.slots r.1))))
            (λ why. get_element self.now root.now index ≡ Err why) }
        ensures load { (to : List ℕ) → MatchResult result
            (λ r. load_element self.now to root.now index ≡ load_slot self.now to r.0.now r.1)
            (λ why. load_element self.now to root.now index ≡ Err why) }
    {
        let held = self.graph.held_by_root(root)?;
        let o = self.object_held(held)?;
        let at = self.slot_at(o, index)?;
        Ok((o, at))
    }

    /// Reads a field.
    pub(crate) fn get(&self, root: &Name, field: &Name) -> Outcome
        requires sound { IsSound self.now }
        ensures { IsOutcome self.now result (effect_or self.now (get_field self.now root.now field.now)) }
    {
        match self.field_of(root, field) {
            Ok((o, at)) => self.tells(slot_reply(o.value_at(&at))),
            Err(why) => self.refuses(why),
        }
    }

    /// Reads an element.
    pub(crate) fn at(&self, root: &Name, index: u32) -> Outcome
        requires sound { IsSound self.now }
        ensures { IsOutcome self.now result (effect_or self.now (get_element self.now root.now index)) }
    {
        match self.element_of(root, index) {
            Ok((o, at)) => self.tells(slot_reply(o.value_at(&at))),
            Err(why) => self.refuses(why),
        }
    }

    fn write_held(&self, to: Name, held: Held, reply: Reply) -> Result<Outcome, AllocError>
        ensures { IfOk result (λ out. IsOutcome self.now out (write_held self.now to held reply)) }
    {
        self.becomes(self.graph.with_root(to, held)?, reply)
    }

    /// Lets a root hold what another holds.
    pub(crate) fn copy(&self, to: Name, from: &Name) -> Result<Outcome, AllocError>
        ensures { IfOk result (λ out. IsOutcome self.now out (effect_or self.now (copy_root self.now to from.now))) }
    {
        match self.graph.held_by_root(from) {
            Ok(held) => self.write_held(to, held, Reply::Done),
            Err(why) => Ok(self.refuses(why)),
        }
    }

    /// Lets a root hold what a slot of an object holds.
    fn load_slot(&self, to: Name, o: &Object, at: &FieldAt) -> Result<Outcome, AllocError>
        ensures { IfOk result (λ out. IsOutcome self.now out (effect_or self.now (load_slot self.now to o.now at.now))) }
    {
        match only_reference(at.kind, held_of(o.value_at(at))) {
            Ok(held) => self.write_held(to, held, held_reply(held)),
            Err(why) => Ok(self.refuses(why)),
        }
    }

    /// Lets a root hold what a field holds.
    pub(crate) fn load(&self, to: Name, from: &Name, field: &Name) -> Result<Outcome, AllocError>
        requires sound { IsSound self.now }
        ensures { IfOk result (λ out. IsOutcome self.now out (effect_or self.now (load_field self.now to from.now field.now))) }
    {
        match self.field_of(from, field) {
            Ok((o, at)) => self.load_slot(to, o, &at),
            Err(why) => Ok(self.refuses(why)),
        }
    }

    /// Lets a root hold what an element holds.
    pub(crate) fn load_at(&self, to: Name, from: &Name, index: u32) -> Result<Outcome, AllocError>
        requires sound { IsSound self.now }
        ensures { IfOk result (λ out. IsOutcome self.now out (effect_or self.now (load_element self.now to from.now index))) }
    {
        match self.element_of(from, index) {
            Ok((o, at)) => self.load_slot(to, o, &at),
            Err(why) => Ok(self.refuses(why)),
        }
    }

    /// Removes a root.
    pub(crate) fn drop_root(&self, root: &Name) -> Result<Outcome, AllocError>
        ensures { IfOk result (λ out. IsOutcome self.now out (effect_or self.now (drop_held self.now root.now))) }
    {
        match self.graph.held_by_root(root) {
            Ok(_) => self.becomes(self.graph.without_root(root)?, Reply::Done),
            Err(why) => Ok(self.refuses(why)),
        }
    }

    /// Names what a root holds.
    pub(crate) fn show(&self, root: &Name) -> Outcome
        requires sound { IsSound self.now }
        ensures { IsOutcome self.now result (effect_or self.now (show_root self.now root.now)) }
    {
        match self.graph.held_by_root(root) {
            Ok(held) => self.tells(self.shown(held)),
            Err(why) => self.refuses(why),
        }
    }

    fn shown(&self, held: Held) -> Reply
        requires sound { IsSound self.now }
        ensures { result ≡ shown self.now.graph held }
    {
        match self.object_held(held) {
            Ok(o) => Reply::Shown {
                number: o.number(),
                class: self.shape_name(o.shape()),
            },
            Err(_) => Reply::Null,
        }
    }

    fn shape_name(&self, shape: Shape) -> Name
        requires shape { IsShape self.now.graph.classes shape }
        ensures { result ≡ shape_name self.now.graph.classes shape }
    {
        match shape {
            Shape::Instance(class) => self.graph.classes().name(class),
            Shape::Array { kind, .. } => array_name(kind),
        }
    }
}

fn array_name(kind: Kind) -> Name
    ensures { result ≡ array_name kind }
{
    let name: &[u8] = match kind {
        Kind::Ref => b"java.lang.Object[]",
        Kind::Boolean => b"boolean[]",
        Kind::Byte => b"byte[]",
        Kind::Char => b"char[]",
        Kind::Short => b"short[]",
        Kind::Int => b"int[]",
        Kind::Long => b"long[]",
    };
    Name::of(name).unwrap()
}
