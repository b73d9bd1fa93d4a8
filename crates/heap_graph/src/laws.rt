//! Laws above the definitions: what they say, in other words.
ghost use Rattle.std.specs.Prelude.{◌≡◌, ◌⊎◌, ◌↔◌, ◌≤◌, ℕ, List, true, nat_eq};
ghost use Rattle.std.specs.List.{AllByRecursion};
ghost use Rattle.class_layout.specs.ClassList.{Class, IsClassList};
ghost use Rattle.class_layout.specs.declared.kind.FieldAt.{FieldAt};
ghost use Rattle.class_layout.specs.Placing.{IsIn};
ghost use Rattle.heap_graph.specs.declared.names.Content.TheVariants as content;
ghost use Rattle.heap_graph.specs.declared.names.Shape.{Shape};
ghost use Rattle.heap_graph.specs.declared.names.Stored.{Stored};
ghost use Rattle.heap_graph.specs.Collection.{clear_if, cleared_slots, collect, is_kept};
ghost use Rattle.heap_graph.specs.Formed.{FitsKind, HasSlot, IsFormed};
ghost use Rattle.heap_graph.specs.Graph.{Graph, Object, is_immune};
ghost use Rattle.heap_graph.specs.Packing.{costs, places_from, used, young_objects, young_sizes};
ghost use Rattle.heap_graph.specs.Paths.{ArePacked, FitRegions, FitsRegion, IsClosed, IsReached, LeadsTo};
ghost use Rattle.heap_graph.specs.Places.{places_of};
ghost use Rattle.heap_graph.specs.Reach.{Node, is_among, reached, reached_from};
ghost use Rattle.heap_graph.specs.Values.{targets, value_at, value_if, with_stored};

/// Reaching by rounds is a path of strong slots, among nodes and among the objects of a graph.
pub fn reaching_is_a_path()
    ensures nodes { (vs : List Node) (from : List ℕ) (n : ℕ) → (is_among (reached_from vs from) n ≡ true) ↔ ((path : List ℕ) × LeadsTo vs from path n) }
    ensures objects { (g : Graph) (n : ℕ) → (is_among (reached g) n ≡ true) ↔ IsReached g n }
{}

/// A collection keeps an object exactly where it is immune or a path reaches it.
pub fn kept_is_immune_or_reached()
    ensures { (g : Graph) (o : Object) → (is_kept g.sealed (reached g) o ≡ true) ↔ ((is_immune g.sealed o.place ≡ true) ⊎ IsReached g o.number) }
{}

/// A collection of a collection changes nothing.
pub fn collecting_twice_is_once()
    ensures { (g : Graph) → collect (collect g) ≡ collect g }
{}

/// A collection leaves nothing dangling.
pub fn collecting_leaves_nothing_dangling()
    ensures { (g : Graph) → IsClosed g → IsClosed (collect g) }
{}

/// What fits a region lies in one region, places rise, and nothing overlaps.
pub fn places_are_packed()
    ensures { (p : ℕ) (sizes : List ℕ) → FitRegions sizes → ArePacked p sizes (places_from p sizes) }
{}

/// The young objects of a graph, whose shapes stand in regions, lie in one region each, rise and don't overlap.
pub fn young_objects_are_packed()
    ensures { (g : Graph) → AllByRecursion (λ o. FitsRegion g.classes o.shape) (young_objects g) → ArePacked 0 (young_sizes g) (places_from 0 (young_sizes g)) }
{}

/// A collection doesn't raise what large objects cost.
pub fn collecting_costs_no_more()
    ensures { (g : Graph) → costs (collect g) ≤ costs g }
{}

/// A collection doesn't raise the regions used.
pub fn collecting_uses_no_more()
    ensures { (g : Graph) → used (collect g) ≤ used g }
{}

/// The places of a shape are its slots: each slot is a place, and among the classes that stand each place is a slot. What
/// was stored to an object of a formed graph was stored to a place of its shape.
pub fn places_are_slots()
    ensures slot { (cs : List Class) (shape : Shape) (at : FieldAt) → HasSlot cs shape at → IsIn at (places_of cs shape) }
    ensures place { (cs : List Class) (shape : Shape) (at : FieldAt) → IsClassList cs → IsIn at (places_of cs shape) → HasSlot cs shape at }
    ensures stored { (g : Graph) (o : Object) (s : Stored) → IsFormed g → IsIn o g.objects → IsIn s o.slots → IsIn s.at (places_of g.classes o.shape) }
{}

/// Two places of a shape have two offsets.
pub fn places_are_apart()
    ensures { (cs : List Class) (shape : Shape) (p q : FieldAt) → IsIn p (places_of cs shape) → IsIn q (places_of cs shape) → p.offset ≡ q.offset → p ≡ q }
{}

/// What stands at a place of an object of a formed graph is of the place's kind.
pub fn values_fit_their_places()
    ensures { (g : Graph) (o : Object) (at : FieldAt) → IsFormed g → IsIn o g.objects → IsIn at (places_of g.classes o.shape) → FitsKind at.kind (value_at o.slots at) }
{}

/// A store puts its value in its place and leaves each other place as it was. Clearing is of each place alone: a weak one
/// loses an object that isn't kept. The object that a place holds is among the targets.
pub fn places_hold_what_was_stored()
    ensures stored { (ss : List Stored) (new : Stored) (at : FieldAt) → value_at (with_stored ss new) at ≡ value_if (nat_eq new.at.offset at.offset) new.value (value_at ss at) }
    ensures cleared { (g : Graph) (o : Object) (at : FieldAt) (kept : List ℕ) → IsFormed g → IsIn o g.objects → IsIn at (places_of g.classes o.shape) → value_at (cleared_slots kept o.slots) at ≡ clear_if at.weak kept (value_at o.slots at) }
    ensures target { (ss : List Stored) (at : FieldAt) (n : ℕ) → value_at ss at ≡ content.Object n → is_among (targets ss) n ≡ true }
{}
