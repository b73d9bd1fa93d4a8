//! Laws above the definitions.
ghost use Rattle.std.specs.Prelude.{◌≡◌, ℕ, false, List};
ghost use Rattle.class_layout.specs.ClassList.{Class};
ghost use Rattle.card_table.specs.CardSet.{card_of, CardSet, SameSpan};
ghost use Rattle.large_objects.specs.declared.rows.LargeRow.{LargeRow};
ghost use Rattle.object_view.specs.declared.names.Slot.{Slot};
ghost use Rattle.raw_objects.specs.Raws.{Raws};
ghost use Rattle.mod_union.specs.ModUnion.{has_slot_on, is_noted, is_recorded, AreOutward, CanUpdate, IsOutwardSlot, ImmuneSpace};

/// There is one list of the outward slots.
pub fn outward_slots_are_unique()
    ensures { (cs : List Class) (raws : Raws) (rows : List LargeRow) (one other : List Slot) → AreOutward cs raws rows one → AreOutward cs raws rows other → one ≡ other }
{}

/// On a card that is neither dirty nor recorded no outward slot lies.
pub fn clean_cards_hold_no_outward_slot()
    ensures { (space : ImmuneSpace) (records : List ℕ) (cards : CardSet) (raws : Raws) (slot : Slot) → CanUpdate space records cards raws
        → is_noted records cards (card_of slot.at.0) ≡ false → IsOutwardSlot space.classes raws space.rows slot → ⊥ }
{}

/// Where exactly the cards of the outward slots are recorded, as after an update, the next update can be made, whichever
/// cards are dirty.
pub fn updated_spaces_can_be_updated()
    ensures { (space : ImmuneSpace) (before records : List ℕ) (was cards : CardSet) (raws : Raws) (found : List Slot) → CanUpdate space before was raws → SameSpan was cards
        → AreOutward space.classes raws space.rows found → ((card : ℕ) → is_recorded records card ≡ has_slot_on found card) → CanUpdate space records cards raws }
{}
