//! Cards of the image and the zygote window.
ghost use Rattle.std.specs.Prelude.{◌≡◌, ◌+◌, ◌-◌, ◌/◌, ◌++◌, [], IfOk, OnOk, option_to_list};
ghost use Rattle.model_numbers.specs.Numbers.{card_bytes};
ghost use Rattle.heap_graph.specs.Graph.{is_immune};
ghost use Rattle.heap_world.specs.Cards.{same_card, is_card_among, add_card, add_cards, cards_if, cards_in, held_cards, is_outward, object_cards, slot_cards};

use heap_graph::{Content, Place, Stored};
use heap_world::Card;
use model_numbers::{CARD_BYTES, IMAGE_BASE, ZYGOTE_BASE};
use plain_graph::{Graph, Object};
use std::alloc::{AllocError, Global};

fn same_card(a: &Card, b: &Card) -> bool
    ensures { result ≡ same_card a.now b.now }
{
    match (a, b) {
        (Card::Image(j), Card::Image(k)) => j == k,
        (Card::Zygote(j), Card::Zygote(k)) => j == k,
        _ => false,
    }
}

fn is_card_among(cards: &[Card], card: &Card) -> bool
    ensures { result ≡ is_card_among cards.now card.now }
{
    cards.iter().any(|other| same_card(card, other))
}

/// A set of cards with one more, unless it is in it.
pub(crate) fn add_card(card: Card, cards: &mut Vec<Card>) -> Result<(), AllocError>
    ensures { OnOk result (cards.new.items ≡ add_card card cards.old.items) }
{
    if !is_card_among(cards, &card) {
        cards.insert(0, card)?;
    }
    Ok(())
}

/// The card of an offset in an object of the image or the zygote window.
pub(crate) fn card_in(place: Place, offset: u32) -> Option<Card>
    ensures { option_to_list result ≡ cards_in place offset }
{
    match place {
        Place::Image(spot) => Some(Card::Image(card_of(spot, offset, IMAGE_BASE))),
        Place::Zygote(spot) => Some(Card::Zygote(card_of(spot, offset, ZYGOTE_BASE))),
        Place::Young | Place::Large | Place::Promoted => None,
    }
}

fn card_of(spot: u32, offset: u32, base: u32) -> u32
    ensures { result ≡ (spot + offset - base) / card_bytes }
{
    ((u64::from(spot) + u64::from(offset)).saturating_sub(u64::from(base))
        / u64::from(CARD_BYTES)) as u32
}

/// A set of cards with more of them, the last one first.
pub(crate) fn add_cards(cards: &[Card], set: &mut Vec<Card>) -> Result<(), AllocError>
    ensures { OnOk result (set.new.items ≡ add_cards cards.now set.old.items) }
{
    let mut left = cards.len();
    while left > 0 {
        left -= 1;
        add_card(cards[left], set)?;
    }
    Ok(())
}

/// Whether a slot holds an object that isn't immune.
fn is_outward(graph: &Graph, slot: Content) -> bool
    ensures { result ≡ is_outward graph.now slot }
{
    match slot {
        Content::Object(number) => match graph.object_at(number) {
            Some(o) => !o.is_immune(graph.is_sealed()),
            None => false,
        },
        Content::Number(_) | Content::Null => false,
    }
}

/// Adds the card of a slot at a place, where the slot is outward.
fn push_card(
    graph: &Graph,
    place: Place,
    s: &Stored,
    cards: &mut Vec<Card>,
) -> Result<(), AllocError>
    ensures { OnOk result (cards.new.items ≡ cards.old.items ++ cards_if (is_outward graph.now s.now.value) place s.now.at.offset) }
{
    if is_outward(graph, s.value) {
        if let Some(card) = card_in(place, s.at.offset) {
            cards.push(card)?;
        }
    }
    Ok(())
}

/// Adds the cards of the outward slots of an object at a place.
fn push_cards(
    graph: &Graph,
    place: Place,
    slots: &[Stored],
    cards: &mut Vec<Card>,
) -> Result<(), AllocError>
    ensures { OnOk result (cards.new.items ≡ cards.old.items ++ slot_cards graph.now place slots.now) }
{
    let mut rest = slots;
    while let Some((s, more)) = rest.split_first() {
        push_card(graph, place, s, cards)?;
        rest = more;
    }
    Ok(())
}

/// Adds the cards of an object's outward slots, where it is immune.
fn push_object(graph: &Graph, o: &Object, cards: &mut Vec<Card>) -> Result<(), AllocError>
    ensures { OnOk result (cards.new.items ≡ cards.old.items ++ object_cards graph.now (is_immune graph.now.sealed o.now.place) o.now) }
{
    if o.is_immune(graph.is_sealed()) {
        push_cards(graph, o.place(), o.slots(), cards)?;
    }
    Ok(())
}

/// The cards in which an immune slot holds an object that isn't immune.
pub(crate) fn held_cards(alloc: Global, graph: &Graph) -> Result<Vec<Card>, AllocError>
    ensures { IfOk result (λ cards. cards.items ≡ held_cards graph.now) }
{
    let mut all = Vec::new(alloc);
    for o in graph.objects() {
        push_object(graph, o, &mut all)?;
    }
    let mut cards = Vec::new(alloc);
    add_cards(&all, &mut cards)?;
    Ok(cards)
}
