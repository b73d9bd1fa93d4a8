//! Laws above the definitions: when memory holds a graph, and when it holds the graph after a step.
ghost use Rattle.std.specs.Prelude.{◌≡◌, ◌↔◌, ◌||◌, ◌++◌, ◌∷◌, [], ℕ, ◌+◌, ◌<◌, true, IsTrue, List, ℤ};
ghost use Rattle.std.specs.List.{All};
ghost use Rattle.class_layout.specs.declared.kind.Kind.{Kind};
ghost use Rattle.class_layout.specs.ClassList.{Class};
ghost use Rattle.class_layout.specs.Placing.{IsIn};
ghost use Rattle.page_tables.specs.declared.address.Window.{Window};
ghost use Rattle.page_tables.specs.Address.{page_of};
ghost use Rattle.cow_pages.specs.Memory.{is_mapped, Memory};
ghost use Rattle.cow_pages.specs.View.{view_of, View};
ghost use Rattle.heap_graph.specs.declared.names.Stored.{Stored};
ghost use Rattle.heap_graph.specs.declared.names.Place.{Place};
ghost use Rattle.heap_graph.specs.declared.names.Shape.{Shape};
ghost use Rattle.heap_graph.specs.Allocation.{with_object};
ghost use Rattle.heap_graph.specs.Collection.{collect};
ghost use Rattle.heap_graph.specs.Graph.{Graph, Object};
ghost use Rattle.heap_graph.specs.Sizes.{size_in};
ghost use Rattle.heap_world.specs.Acts.{stored_in, with_slot};
ghost use Rattle.heap_graph.specs.Formed.{IsFormed};
ghost use Rattle.object_view.specs.Changes.{ChangesWithin, PutsNumber};
ghost use Rattle.object_view.specs.Objects.{IsKnown, IsPlace};
ghost use Rattle.object_view.specs.Seen.{seen_value};
ghost use Rattle.object_view.specs.Values.{number_of};
ghost use Rattle.raw_objects.specs.Keeps.{Keeps};
ghost use Rattle.raw_objects.specs.Raws.{new_raw, HoldsRaws, Raws, StandsRaw};
ghost use Rattle.raw_objects.specs.References.{IsSlotIn};
ghost use Rattle.address_table.specs.Computed.{table_of, Homes, HouseAll};
ghost use Rattle.graph_pages.specs.Cleared.{nulled};
ghost use Rattle.graph_pages.specs.Collected.{AreTurned, Going};
ghost use Rattle.graph_pages.specs.Holds.{raws_under, AreAmong, HoldsGraph, IsBeside, SameTable, TellsApart};
ghost use Rattle.graph_pages.specs.Pages.{has_bytes_in, page_named, MapsWindow, PagesHold};
ghost use Rattle.weak_refs.specs.Weak.{is_page_of, ClearsSlots};
ghost use Rattle.world_laws.specs.Named.{is_named};
ghost use Rattle.heap_world.specs.declared.names.PageName.{PageName};

/// A graph that is held is held as raw objects. Of raw objects that are held comes back each graph whose objects are
/// among them, so those that were dropped cost nothing.
pub fn graphs_are_raw_objects()
    ensures raw { (cs : List Class) (v : View) (table : ℕ → ℕ) (os : List Object) → HoldsGraph cs v table os → HoldsRaws cs v (raws_under table os) }
    ensures among { (cs : List Class) (table : ℕ → ℕ) (os : List Object) → TellsApart table os → AreAmong cs (raws_under table os) table os }
    ensures back { (cs : List Class) (v : View) (raws : Raws) (table : ℕ → ℕ) (os : List Object) → HoldsRaws cs v raws → AreAmong cs raws table os → HoldsGraph cs v table os }
    ensures same { (cs : List Class) (v : View) (table next : ℕ → ℕ) (os : List Object) → HoldsGraph cs v table os → SameTable table next os → HoldsGraph cs v next os }
{}

/// The objects of a formed graph that is held have addresses of their own.
pub fn addresses_differ()
    ensures { (g : Graph) (table : ℕ → ℕ) (v : View) → IsFormed g → HoldsGraph g.classes v table g.objects → TellsApart table g.objects }
{}

/// Where a value was put at a place of an object, the graph with this slot stored is held.
pub fn stored_graphs_stand()
    ensures { (cs : List Class) (old new : View) (table : ℕ → ℕ) (os : List Object) (o : Object) (kind : Kind) (offset : ℕ) (s : Stored) (z : ℤ) → HoldsGraph cs old table os → TellsApart table os
        → IsIn o os → IsPlace cs o.shape kind offset s.at → seen_value table s.value ≡ z → PutsNumber old new kind (table o.number + offset) (number_of kind z)
        → HoldsGraph cs new table (stored_in os o.number s) }
{}

/// Where a new object was written beside the others, the graph with this object is held, under a table that has the others
/// where they were.
pub fn grown_graphs_stand()
    ensures { (cs : List Class) (old new : View) (table next : ℕ → ℕ) (os : List Object) (o : Object) → HoldsGraph cs old table os → TellsApart table os → o.slots ≡ [] → SameTable table next os
        → IsBeside cs table os (next o.number) (size_in cs o.shape) → IsKnown cs o.shape → ChangesWithin old new (next o.number) (next o.number + size_in cs o.shape)
        → StandsRaw cs new (next o.number) (new_raw o.shape o.number) → HoldsGraph cs new next (os ++ o ∷ []) }
{}

/// Where each kept object is held at its new address with its references turned, the collected graph is held.
pub fn collected_graphs_stand()
    ensures { (g : Graph) (table next go : ℕ → ℕ) (v : View) (raws : Raws) → IsFormed g → Going g table next go → HoldsRaws g.classes v raws → AreTurned g raws table next go
        → HoldsGraph g.classes v next (collect g).objects }
{}

/// A store moves no object, and a new object moves none of the others.
pub fn computed_addresses_stay()
    ensures stored { (homes : Homes) (g : Graph) (n k : ℕ) (s : Stored) → table_of homes (with_slot g n s) k ≡ table_of homes g k }
    ensures grown { (homes : Homes) (g : Graph) (shape : Shape) (slots : List Stored) (place : Place) → IsFormed g → SameTable (table_of homes g) (table_of homes (with_object g shape slots place)) g.objects }
{}

/// A new object lies beside the others, where the graph with it is formed and housed.
pub fn new_objects_lie_beside()
    ensures { (homes : Homes) (g : Graph) (shape : Shape) (slots : List Stored) (place : Place) → IsFormed g → IsFormed (with_object g shape slots place) → HouseAll homes (with_object g shape slots place)
        → IsBeside g.classes (table_of homes g) g.objects (table_of homes (with_object g shape slots place) g.next) (size_in g.classes shape) }
{}

/// Where references of a table were cleared, the pages with one of them may have changed, and no other.
pub fn cleared_pages_are_kept()
    ensures { (old new : Memory) (t : ℕ) (slots : List ℕ) → ClearsSlots old new t slots → Keeps old new t (is_page_of slots) }
{}

/// Where references of raw objects were cleared, memory holds the objects with null in these.
pub fn cleared_objects_are_held()
    ensures { (cs : List Class) (old new : Memory) (t : ℕ) (slots : List ℕ) (raws : Raws) → HoldsRaws cs (view_of old t) raws → All (λ at. (n : ℕ) × IsSlotIn cs raws at n) slots
        → ClearsSlots old new t slots → HoldsRaws cs (view_of new t) (nulled raws slots) }
{}

/// An object has bytes in exactly the pages in which one of its bytes lies.
pub fn pages_have_bytes()
    ensures { (cs : List Class) (table : ℕ → ℕ) (p : ℕ) (o : Object) → (has_bytes_in cs table p o ≡ true) ↔ ((i : ℕ) × (i < size_in cs o.shape) × (page_of (table o.number + i) ≡ p)) }
{}

/// The pages that are mapped for a graph are mapped for it after a store. Those of a new object join them.
pub fn pages_follow_objects()
    ensures stored { (m : Memory) (t : ℕ) (w : Window) (cs : List Class) (table : ℕ → ℕ) (os : List Object) (n : ℕ) (s : Stored) → MapsWindow m t w cs table os → MapsWindow m t w cs table (stored_in os n s) }
    ensures grown { (old new : Memory) (t : ℕ) (w : Window) (cs : List Class) (table next : ℕ → ℕ) (os : List Object) (o : Object) → MapsWindow old t w cs table os → SameTable table next os
        → ((p : ℕ) → is_mapped new t p ≡ (is_mapped old t p || has_bytes_in cs next p o)) → MapsWindow new t w cs next (os ++ o ∷ []) }
{}

/// The pages of names, which stand or wait for a fork, are mapped, and different names have different pages.
pub fn names_have_pages()
    ensures differ { (homes : Homes) (g : Graph) (a b : PageName) → IsFormed g → HouseAll homes g → is_named g a ≡ true → is_named g b ≡ true
        → page_named (table_of homes g) a ≡ page_named (table_of homes g) b → a ≡ b }
    ensures mapped { (m : Memory) (t : ℕ) (homes : Homes) (g : Graph) (a : PageName) → IsFormed g → HouseAll homes g → PagesHold m t homes g → is_named g a ≡ true
        → IsTrue (is_mapped m t (page_named (table_of homes g) a)) }
{}
