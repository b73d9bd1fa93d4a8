//! Laws about a graph that a process holds in its pages: what is reached, that it can be collected, and what a collection of
//! its memory leaves.
ghost use Rattle.std.specs.Prelude.{◌≡◌, ◌↔◌, ℕ, ◌+◌, true, false, filter, length, List};
ghost use Rattle.std.specs.List.{Contains};
ghost use Rattle.class_layout.specs.Placing.{IsIn};
ghost use Rattle.cow_pages.specs.Memory.{Memory};
ghost use Rattle.page_tables.specs.declared.address.Addr.{Addr};
ghost use Rattle.heap_graph.specs.Collection.{collect, freed_count, loose_count};
ghost use Rattle.heap_graph.specs.Formed.{IsFormed};
ghost use Rattle.heap_graph.specs.Graph.{is_immune, Graph, Object};
ghost use Rattle.heap_graph.specs.Reach.{is_among, reached};
ghost use Rattle.region_space.specs.Space.{lists_of, Space};
ghost use Rattle.large_objects.specs.declared.rows.LargeRow.{LargeRow};
ghost use Rattle.large_objects.specs.Rows.{slot_base, waits};
ghost use Rattle.object_view.specs.declared.names.Slot.{Slot};
ghost use Rattle.object_moves.specs.Copies.{HoldsRegions};
ghost use Rattle.address_table.specs.Computed.{table_of};
ghost use Rattle.object_collection.specs.Collects.{state_of, AreLarge, AreYoung, CanCollect, HeapState, IsCollected, IsReached, LeadsOut, LeavesPages};
ghost use Rattle.evacuate.specs.Stands.{homes_in, homes_of, raws_of, young_homes, HasSealed, HasSlotsOut, HoldsHeap, KeepsGraph, StandsFor, StoodBefore};

/// A process that has just sealed its graph keeps it, without slots: nothing that is immune leads to what isn't.
pub fn sealed_graphs_are_kept()
    ensures { (h : HeapState) (m : Memory) (t : ℕ) (g : Graph) → HasSealed h m t g → KeepsGraph h m t g }
{}

/// The objects of a graph that a process holds, as memory has them: those of the regions lie in the rows in use, packed, and
/// those of the large window in the slots of their rows.
pub fn held_heaps_have_room()
    ensures regions { (h : HeapState) (m : Memory) (t : ℕ) (g : Graph) → HoldsHeap h m t g → HoldsRegions h.classes m t (lists_of h.regions) (raws_of (homes_of h) g) }
    ensures young { (h : HeapState) (m : Memory) (t : ℕ) (g : Graph) → HoldsHeap h m t g → AreYoung h (raws_of (homes_of h) g) (young_homes (homes_of h) g) }
    ensures large { (h : HeapState) (m : Memory) (t : ℕ) (g : Graph) → HoldsHeap h m t g → AreLarge h m t (raws_of (homes_of h) g) }
{}

/// Where a process keeps a row for a large object, the object's address is that of the row's slot.
pub fn rows_have_addresses()
    ensures { (h : HeapState) (g : Graph) (row : LargeRow) → IsFormed g → StandsFor h g → Contains h.rows row → table_of (homes_of h) g row.number ≡ slot_base row.slot }
{}

/// An object that isn't immune is reached in the graph exactly where it is reached in memory.
pub fn reached_objects_are_reached()
    ensures { (h : HeapState) (m : Memory) (t : ℕ) (g : Graph) (o : Object) → KeepsGraph h m t g → IsIn o g.objects
        → ((is_among (reached g) o.number ≡ true) × (is_immune g.sealed o.place ≡ false)) ↔ IsReached h (raws_of (homes_of h) g) (table_of (homes_of h) g o.number) }
{}

/// The objects of a graph that a process keeps can be collected.
pub fn graphs_can_be_collected()
    ensures { (h : HeapState) (m : Memory) (t : ℕ) (g : Graph) → KeepsGraph h m t g → CanCollect h m t (raws_of (homes_of h) g) }
{}

/// After a collection of the objects a process holds the collected graph, where the regions in use and the rows now say,
/// whichever slots it is to keep; and a slot that leads out then led out before.
pub fn collected_graphs_are_held()
    ensures held { (h : HeapState) (old new : Memory) (t : ℕ) (g : Graph) (regions : Space) (rows : List LargeRow) (roots : List Addr) (slots : List Slot) → KeepsGraph h old t g
        → IsCollected h new t (raws_of (homes_of h) g) regions rows roots → LeavesPages h old new t → HoldsHeap (state_of h.classes regions rows roots slots) new t (collect g) }
    ensures slots { (h : HeapState) (old new : Memory) (t : ℕ) (g : Graph) (regions : Space) (rows : List LargeRow) (roots : List Addr) (slots : List Slot) → KeepsGraph h old t g
        → IsCollected h new t (raws_of (homes_of h) g) regions rows roots → LeavesPages h old new t
        → (slot : Slot) → LeadsOut (state_of h.classes regions rows roots slots) (raws_of (homes_in regions.in_use rows) (collect g)) slot → StoodBefore h.slots new t slot }
{}

/// So the process keeps the collected graph as it kept the graph before, with the slots that are to be kept now: the next
/// collection stands on it.
pub fn collected_graphs_are_kept()
    ensures { (h : HeapState) (old new : Memory) (t : ℕ) (g : Graph) (regions : Space) (rows : List LargeRow) (roots : List Addr) (slots : List Slot) → KeepsGraph h old t g
        → IsCollected h new t (raws_of (homes_of h) g) regions rows roots → LeavesPages h old new t
        → HasSlotsOut (state_of h.classes regions rows roots slots) (raws_of (homes_in regions.in_use rows) (collect g))
        → KeepsGraph (state_of h.classes regions rows roots slots) new t (collect g) }
{}

/// The objects of the regions and the rows that wait are as many as the objects that aren't immune. Of these a collection of
/// the graph frees those that it doesn't keep.
pub fn mortal_objects_are_counted()
    ensures counted { (h : HeapState) (g : Graph) → g.sealed ≡ true → StandsFor h g → h.regions.objects + length (filter waits h.rows) ≡ loose_count g }
    ensures freed { (g : Graph) → loose_count (collect g) + freed_count g (collect g) ≡ loose_count g }
{}
