//! Lists of cards.
ghost use Rattle.std.specs.Prelude.{◌≡◌, ℕ, ◌<◌, ◌≤◌, min, Bool, true, false, IfOk, OnOk};
ghost use Rattle.card_table.specs.CardSet.{is_dirty};
ghost use Rattle.mod_union.specs.Lists.{itself, AreCards, AreRising, ListsBelow};
ghost use Rattle.mod_union.specs.ModUnion.{has_slot_on, is_noted, is_recorded, slot_address};
ghost use Rattle.mod_union.specs.Noted.{IsDirtyOrEnd};

use card_table::Cards;
use cow_pages::Addr;
use model_numbers::{CARD_BYTES, PAGE_BYTES};
use object_view::Slot;
use page_tables::ALL_PAGES;
use std::alloc::{AllocError, Global};

/// How many cards all addresses have.
pub const ALL_CARDS: u32 = ALL_PAGES * (PAGE_BYTES / CARD_BYTES);

/// The cards that are dirty or recorded, by rising number. Each record and each dirty card is looked at once.
pub fn noted_cards(alloc: Global, records: &[u32], cards: &Cards) -> Result<Vec<u32>, AllocError>
    requires { AreCards records.now }
    ensures { IfOk result (λ noted. ListsBelow itself (λ card. is_noted records.now cards.now card ≡ true) ALL_CARDS noted.items) }
{
    let mut noted = Vec::new(alloc);
    let mut dirty = first_dirty(cards, 0);
    for &card in records {
        dirty = push_dirty(cards, dirty, card, &mut noted)?;
        // a record that is dirty too comes with the dirty cards
        if dirty != card {
            noted.push(card)?;
        }
    }
    push_dirty(cards, dirty, ALL_CARDS, &mut noted)?;
    Ok(noted)
}

/// Adds the dirty cards below `to`, the first of which is `dirty`, and tells the first from `to` on.
fn push_dirty(cards: &Cards, dirty: u32, to: u32, noted: &mut Vec<u32>) -> Result<u32, AllocError>
    requires within { to ≤ ALL_CARDS }
    requires dirty { IsDirtyOrEnd cards.now dirty }
    requires first { (card : ℕ) → to ≤ card → card < dirty → is_dirty cards.now card ≡ false }
    ensures next { IfOk result (λ next. IsDirtyOrEnd cards.now next × (to ≤ next)) }
    ensures first { IfOk result (λ next. (card : ℕ) → to ≤ card → card < next → is_dirty cards.now card ≡ false) }
    ensures listed { OnOk result ((test : ℕ → Bool) → ((card : ℕ) → dirty ≤ card → card < to → test card ≡ is_dirty cards.now card)
        → ListsBelow itself (λ card. test card ≡ true) (min dirty to) noted.old.items → ListsBelow itself (λ card. test card ≡ true) to noted.new.items) }
{
    let mut next = dirty;
    while next < to {
        noted.push(next)?;
        next = first_dirty(cards, next + 1);
    }
    Ok(next)
}

/// The first dirty card from a number on, or the number behind all cards.
fn first_dirty(cards: &Cards, from: u32) -> u32
    requires { from ≤ ALL_CARDS }
    ensures dirty { IsDirtyOrEnd cards.now result }
    ensures behind { from ≤ result }
    ensures first { (card : ℕ) → from ≤ card → card < result → is_dirty cards.now card ≡ false }
{
    if from == ALL_CARDS {
        return ALL_CARDS;
    }
    match cards.next_dirty(Addr(from * CARD_BYTES)) {
        Some(at) => at.0 / CARD_BYTES,
        None => ALL_CARDS,
    }
}

/// The cards on which slots lie that come by rising address.
pub fn cards_of(alloc: Global, slots: &[Slot]) -> Result<Vec<u32>, AllocError>
    requires { AreRising slot_address 0 slots.now }
    ensures cards { IfOk result (λ cards. AreCards cards.items) }
    ensures exact { IfOk result (λ cards. (card : ℕ) → is_recorded cards.items card ≡ has_slot_on slots.now card) }
{
    let mut cards = Vec::new(alloc);
    // behind the last card
    let mut next = 0;
    for slot in slots {
        let card = slot.at.0 / CARD_BYTES;
        if card >= next {
            cards.push(card)?;
            next = card + 1;
        }
    }
    Ok(cards)
}
