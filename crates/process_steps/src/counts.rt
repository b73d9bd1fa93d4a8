//! Laws about what a process counts, and how many slots and cards there are.
ghost use Rattle.std.specs.Prelude.{◌≡◌, ◌*◌, ◌≤◌, [], ℕ, List, true, false, length};
ghost use Rattle.class_layout.specs.ClassList.{Class};
ghost use Rattle.class_layout.specs.Placing.{IsIn};
ghost use Rattle.card_table.specs.CardSet.{card_of};
ghost use Rattle.cow_pages.specs.Memory.{Memory};
ghost use Rattle.cow_pages.specs.View.{View};
ghost use Rattle.heap_graph.specs.declared.names.Shape.{Shape};
ghost use Rattle.heap_graph.specs.Allocation.{needs};
ghost use Rattle.heap_graph.specs.Formed.{IsShape};
ghost use Rattle.heap_graph.specs.Packing.{free};
ghost use Rattle.heap_graph.specs.Sizes.{is_large, size_in};
ghost use Rattle.heap_world.specs.Acts.{page_counts};
ghost use Rattle.heap_world.specs.Cards.{held_cards, noted_count};
ghost use Rattle.heap_world.specs.Part.{Part};
ghost use Rattle.heap_world.specs.Sound.{IsSound};
ghost use Rattle.large_objects.specs.declared.rows.LargeRow.{LargeRow};
ghost use Rattle.mod_union.specs.ModUnion.{AreOutward};
ghost use Rattle.object_view.specs.declared.names.Slot.{Slot};
ghost use Rattle.raw_objects.specs.Raws.{HoldsRaws, Raws};
ghost use Rattle.region_space.specs.Space.{would_open};
ghost use Rattle.process_state.specs.Stands.{StandsIn};
ghost use Rattle.process_state.specs.State.{State};
ghost use Rattle.process_steps.specs.Counting.{counted_pages, free_regions};

/// The free regions are those of the graph, and an object that isn't large needs as many as it would open.
pub fn room_is_counted()
    ensures free { (s : State) (m : Memory) (p : Part) → StandsIn s m p → free_regions s ≡ free p.graph }
    ensures opens { (s : State) (m : Memory) (p : Part) (shape : Shape) → StandsIn s m p → IsShape p.graph.classes shape → is_large p.graph.classes shape ≡ false
        → would_open s.regions.in_use (size_in p.graph.classes shape) ≡ needs p.graph shape }
{}

/// The pages that a process counts are those of its part.
pub fn pages_are_counted()
    ensures { (s : State) (m : Memory) (p : Part) → StandsIn s m p → counted_pages s m ≡ page_counts p }
{}

/// On a card lie at most 256 slots that lead out.
pub fn slots_are_few()
    ensures { (cs : List Class) (v : View) (raws : Raws) (rows : List LargeRow) (found : List Slot) (cards : List ℕ) → HoldsRaws cs v raws → AreOutward cs raws rows found
        → ((slot : Slot) → IsIn slot found → IsIn (card_of slot.at.0) cards) → length found ≤ 256 * length cards }
{}

/// The cards that held such a slot when a collection began are no more than those that were noted then.
pub fn held_cards_are_noted()
    ensures { (p : Part) → IsSound p → noted_count [] (held_cards p.graph) ≤ noted_count p.stored p.held }
{}
