//! Laws about the spots of a graph, and about what a promotion of the objects in memory leaves of it.
ghost use Rattle.std.specs.Prelude.{◌≡◌, [], ℕ, IsFalse, List, None, true};
ghost use Rattle.page_tables.specs.declared.address.Addr.{Addr};
ghost use Rattle.cow_pages.specs.Memory.{Memory};
ghost use Rattle.heap_graph.specs.Collection.{collect};
ghost use Rattle.heap_graph.specs.Fork.{has_zygote_room, promoted, promotion_bytes};
ghost use Rattle.heap_graph.specs.Graph.{Graph};
ghost use Rattle.mark_bitmap.specs.Marks.{is_marked};
ghost use Rattle.object_view.specs.declared.names.Slot.{Slot};
ghost use Rattle.region_space.specs.Space.{Space};
ghost use Rattle.large_objects.specs.declared.rows.LargeRow.{LargeRow};
ghost use Rattle.zygote_space.specs.Space as zygote;
ghost use Rattle.object_collection.specs.Collects.{state_of, HeapState};
ghost use Rattle.object_promotion.specs.Promotes.{CanPromote, IsPromoted, LeavesPages};
ghost use Rattle.evacuate.specs.Stands.{homes_of, raws_of, HasSealed, HoldsHeap, KeepsGraph};
ghost use Rattle.zygote_compact.specs.Spots.{HasSpots};

/// An empty zygote space has the spots of a graph that was just sealed: none of its objects stands in the zygote window.
pub fn sealed_graphs_have_no_spots()
    ensures { (h : HeapState) (m : Memory) (t : ℕ) (g : Graph) (z : zygote.Space) → HasSealed h m t g → z.segment ≡ None → z.fill ≡ 0 → ((q : ℕ) → IsFalse (is_marked z.starts q)) → HasSpots z g }
{}

/// A collection leaves the spots: the objects of the zygote window are immune.
pub fn collected_graphs_have_their_spots()
    ensures { (h : HeapState) (m : Memory) (t : ℕ) (g : Graph) (z : zygote.Space) → HoldsHeap h m t g → HasSpots z g → HasSpots z (collect g) }
{}

/// Where a process holds a graph, the pages of the zygote window are those up to the end of its spots.
pub fn spots_have_pages()
    ensures { (h : HeapState) (m : Memory) (t : ℕ) (g : Graph) (z : zygote.Space) → HoldsHeap h m t g → HasSpots z g → zygote.HasPagesUpTo m t z.fill }
{}

/// The objects of a graph that a process keeps can be promoted.
pub fn graphs_can_be_promoted()
    ensures { (h : HeapState) (m : Memory) (t : ℕ) (g : Graph) (z : zygote.Space) → KeepsGraph h m t g → HasSpots z g → CanPromote h m t (raws_of (homes_of h) g) z }
{}

/// After a promotion of the objects, for which there was room, the process holds the promoted graph, whichever slots it is to
/// keep. No slot leads out, so it keeps a sealed graph without any, and the zygote space has the graph's spots.
pub fn promoted_graphs_are_kept()
    ensures held { (h : HeapState) (old new : Memory) (t : ℕ) (g : Graph) (z : zygote.Space) (regions : Space) (rows : List LargeRow) (roots : List Addr) (after : zygote.Space) → HoldsHeap h old t g → HasSpots z g → has_zygote_room g ≡ true
        → IsPromoted h new t (raws_of (homes_of h) g) z regions rows roots after → LeavesPages h old new t z.fill (promotion_bytes g) → (slots : List Slot) → HoldsHeap (state_of h.classes regions rows roots slots) new t (promoted g) }
    ensures kept { (h : HeapState) (old new : Memory) (t : ℕ) (g : Graph) (z : zygote.Space) (regions : Space) (rows : List LargeRow) (roots : List Addr) (after : zygote.Space) → HoldsHeap h old t g → HasSpots z g → g.sealed ≡ true → has_zygote_room g ≡ true
        → IsPromoted h new t (raws_of (homes_of h) g) z regions rows roots after → LeavesPages h old new t z.fill (promotion_bytes g) → KeepsGraph (state_of h.classes regions rows roots []) new t (promoted g) }
    ensures spots { (h : HeapState) (old new : Memory) (t : ℕ) (g : Graph) (z : zygote.Space) (regions : Space) (rows : List LargeRow) (roots : List Addr) (after : zygote.Space) → HoldsHeap h old t g → HasSpots z g → has_zygote_room g ≡ true
        → IsPromoted h new t (raws_of (homes_of h) g) z regions rows roots after → HasSpots after (promoted g) }
{}
