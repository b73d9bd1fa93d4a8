//! Laws about the references of a process that lead out of its immune spaces.
ghost use Rattle.std.specs.Prelude.{◌≡◌, ◌++◌, ℕ, List, true};
ghost use Rattle.cow_pages.specs.Memory.{Memory};
ghost use Rattle.heap_graph.specs.Formed.{is_in_image};
ghost use Rattle.heap_world.specs.Part.{Part};
ghost use Rattle.mod_union.specs.ModUnion.{has_slot_on, is_noted, AreOutward, CanUpdate};
ghost use Rattle.object_view.specs.declared.names.Slot.{Slot};
ghost use Rattle.evacuate.specs.Stands.{KeepsGraph};
ghost use Rattle.process_state.specs.Cards.{NotesWindow};
ghost use Rattle.process_state.specs.Slots.{image_of, is_in_zygote, raws_in, zygote_of, CountCards};
ghost use Rattle.process_state.specs.State.{heap_of, Notes, State};
ghost use Rattle.process_state.specs.Stands.{StandsIn};

/// The cards of a sealed process's image, and those of its zygote space, can be updated.
pub fn spaces_can_be_updated()
    ensures image { (s : State) (m : Memory) (p : Part) → StandsIn s m p → p.graph.sealed ≡ true
        → CanUpdate (image_of s m) s.image_notes.records s.image_notes.cards (raws_in is_in_image s p.graph) }
    ensures zygote { (s : State) (m : Memory) (p : Part) → StandsIn s m p → p.graph.sealed ≡ true
        → CanUpdate (zygote_of s m) s.zygote_notes.records s.zygote_notes.cards (raws_in is_in_zygote s p.graph) }
{}

/// The slots that lead out of the image and those that lead out of the zygote space are all that lead out, each once, on
/// pages that have their frames alone: with them the process keeps its graph, so that it can be collected.
pub fn graphs_are_kept()
    ensures { (s : State) (m : Memory) (p : Part) (image zygote : List Slot) → StandsIn s m p → p.graph.sealed ≡ true
        → AreOutward s.classes (raws_in is_in_image s p.graph) s.rows image → AreOutward s.classes (raws_in is_in_zygote s p.graph) s.rows zygote
        → KeepsGraph (heap_of s (image ++ zygote)) m s.page_table p.graph }
{}

/// No more cards are dirty or recorded than are noted.
pub fn noted_cards_are_counted()
    ensures { (s : State) (m : Memory) (p : Part) → StandsIn s m p → CountCards s p }
{}

/// Where exactly the cards of the slots that lead out are dirty or recorded, the process stands for the same part.
pub fn updated_processes_stand()
    ensures image { (s : State) (m : Memory) (p : Part) (notes : Notes) (found : List Slot) → StandsIn s m p → p.graph.sealed ≡ true → AreOutward s.classes (raws_in is_in_image s p.graph) s.rows found
        → notes.cards.start ≡ s.image_notes.cards.start → notes.cards.span ≡ s.image_notes.cards.span → ((card : ℕ) → is_noted notes.records notes.cards card ≡ has_slot_on found card)
        → StandsIn (record s { image_notes = notes }) m p }
    ensures zygote { (s : State) (m : Memory) (p : Part) (notes : Notes) (found : List Slot) → StandsIn s m p → p.graph.sealed ≡ true → AreOutward s.classes (raws_in is_in_zygote s p.graph) s.rows found
        → notes.cards.start ≡ s.zygote_notes.cards.start → notes.cards.span ≡ s.zygote_notes.cards.span → ((card : ℕ) → is_noted notes.records notes.cards card ≡ has_slot_on found card)
        → StandsIn (record s { zygote_notes = notes }) m p }
{}
