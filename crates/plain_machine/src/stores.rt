//! Stores into fields and elements.
ghost use Rattle.std.specs.Prelude.{◌≡◌, ◌++◌, Ok, Err, IfOk, OnOk, MatchResult, option_to_list};
ghost use Rattle.class_layout.specs.declared.kind.FieldAt.{FieldAt};
ghost use Rattle.heap_world.specs.Acts.{first_touch, put_element, set_field, store, stored_cards_if};
ghost use Rattle.heap_world.specs.Cards.{add_cards, cards_in};
ghost use Rattle.class_layout.specs.Kinds.{is_ref};
ghost use Rattle.heap_world.specs.Effect.{effect_or};
ghost use Rattle.heap_world.specs.Sound.{IsSound};
ghost use Rattle.plain_machine.specs.Outcomes.{IsOutcome};

use crate::cards::{add_card, card_in};
use crate::outcome::Outcome;
use crate::pages::{is_touched, page_in};
use crate::part::Part;
use crate::slots::stored_value;
use class_layout::{FieldAt, Name, Value};
use heap_graph::{Content, Place, Stored};
use heap_world::{Card, PageName, Refusal, Reply};
use plain_graph::{Object, is_ref};
use std::alloc::AllocError;

/// The page, unless it was touched before.
fn first_touch(touched: &[PageName], page: Option<PageName>) -> Option<PageName>
    ensures { option_to_list result ≡ first_touch touched.now page }
{
    match page {
        Some(page) if !is_touched(touched, &page) => Some(page),
        _ => None,
    }
}

/// The card of a slot of an object at a place, where the slot is a reference and others may share the place.
fn stored_card(place: Place, at: &FieldAt) -> Option<Card>
    ensures { option_to_list result ≡ stored_cards_if (is_ref at.now.kind) (cards_in place at.now.offset) }
{
    if is_ref(at.kind) {
        card_in(place, at.offset)
    } else {
        None
    }
}

/// Puts a page in front of pages.
fn put_first(pages: &mut Vec<PageName>, page: Option<PageName>) -> Result<(), AllocError>
    ensures { OnOk result (pages.new.items ≡ option_to_list page ++ pages.old.items) }
{
    if let Some(page) = page {
        pages.insert(0, page)?;
    }
    Ok(())
}

/// Adds a card to a set.
fn note(cards: &mut Vec<Card>, card: Option<Card>) -> Result<(), AllocError>
    ensures { OnOk result (cards.new.items ≡ add_cards (option_to_list card) cards.old.items) }
{
    if let Some(card) = card {
        add_card(card, cards)?;
    }
    Ok(())
}

impl Part {
    /// Stores a value in a slot of an object.
    fn store(&self, o: &Object, at: &FieldAt, value: Content) -> Result<Outcome, AllocError>
        ensures { IfOk result (λ out. IsOutcome self.now out (store self.now o.now at.now value)) }
    {
        let graph = self
            .graph
            .with_slot(o.number(), &Stored { at: *at, value })?;
        if !o.is_immune(self.graph.is_sealed()) {
            return self.becomes(graph, Reply::Done);
        }
        let page = first_touch(&self.touched, page_in(o, at.offset));
        let mut next = self.with_graph(graph)?;
        put_first(&mut next.touched, page)?;
        note(&mut next.stored, stored_card(o.place(), at))?;
        let mut first = Vec::new(self.alloc);
        put_first(&mut first, page)?;
        Ok(Outcome {
            next: Some(next),
            reply: Reply::Done,
            made: Vec::new(self.alloc),
            first,
        })
    }

    /// What a store into a field needs: the object, the slot's place, and what it will hold.
    fn field_to_set(
        &self,
        root: &Name,
        field: &Name,
        value: &Value,
    ) -> Result<(&Object, FieldAt, Content), Refusal>
        requires sound { IsSound self.now }
        ensures { MatchResult result
            (λ r. set_field self.now root.now field.now value.now ≡ Ok (store self.now r.0.now r.1 r.2))
            (λ why. set_field self.now root.now field.now value.now ≡ Err why) }
    {
        let held = self.graph.held_by_root(root)?;
        let named = self.named_by(value)?;
        let o = self.object_held(held)?;
        let at = self.slot_named(o, field)?;
        let new = stored_value(at.kind, value, named)?;
        Ok((o, at, new))
    }

    /// What a store into an element needs.
    fn element_to_put(
        &self,
        root: &Name,
        index: u32,
        value: &Value,
    ) -> Result<(&Object, FieldAt, Content), Refusal>
        requires sound { IsSound self.now }
        ensures { MatchResult result
            (λ r. put_element self.now root.now index value.now ≡ Ok (store self.now r.0.now r.1 r.2))
            (λ why. put_element self.now root.now index value.now ≡ Err why) }
    {
        let held = self.graph.held_by_root(root)?;
        let named = self.named_by(value)?;
        let o = self.object_held(held)?;
        let at = self.slot_at(o, index)?;
        let new = stored_value(at.kind, value, named)?;
        Ok((o, at, new))
    }

    /// Stores a value in a field.
    pub(crate) fn set(
        &self,
        root: &Name,
        field: &Name,
        value: &Value,
    ) -> Result<Outcome, AllocError>
        requires sound { IsSound self.now }
        ensures { IfOk result (λ out. IsOutcome self.now out (effect_or self.now (set_field self.now root.now field.now value.now))) }
    {
        match self.field_to_set(root, field, value) {
            Ok((o, at, new)) => self.store(o, &at, new),
            Err(why) => Ok(self.refuses(why)),
        }
    }

    /// Stores a value in an element.
    pub(crate) fn put(&self, root: &Name, index: u32, value: &Value) -> Result<Outcome, AllocError>
        requires sound { IsSound self.now }
        ensures { IfOk result (λ out. IsOutcome self.now out (effect_or self.now (put_element self.now root.now index value.now))) }
    {
        match self.element_to_put(root, index, value) {
            Ok((o, at, new)) => self.store(o, &at, new),
            Err(why) => Ok(self.refuses(why)),
        }
    }
}
