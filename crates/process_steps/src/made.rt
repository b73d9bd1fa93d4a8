//! Laws about an object that was made.
ghost use Rattle.std.specs.Prelude.{◌≡◌, ◌+◌, ℕ, List, true, false};
ghost use Rattle.model_numbers.specs.Numbers.{image_base};
ghost use Rattle.cow_pages.specs.Memory.{Memory};
ghost use Rattle.heap_graph.specs.declared.names.Place.TheVariants as place;
ghost use Rattle.heap_graph.specs.declared.names.Shape.{Shape};
ghost use Rattle.heap_graph.specs.declared.names.Stored.{Stored};
ghost use Rattle.heap_graph.specs.Allocation.{with_object};
ghost use Rattle.heap_graph.specs.Allocation.Allocated.{Made};
ghost use Rattle.heap_graph.specs.Graph.{image_fill};
ghost use Rattle.heap_graph.specs.Sizes.{is_large, size_in, unrounded};
ghost use Rattle.heap_world.specs.Acts.{after_make};
ghost use Rattle.heap_world.specs.Part.{Part};
ghost use Rattle.process_state.specs.Acts.{Acts, Step};
ghost use Rattle.process_state.specs.Stands.{StandsIn};
ghost use Rattle.process_state.specs.State.{State};
ghost use Rattle.process_steps.specs.Kept.{IsKept};
ghost use Rattle.process_steps.specs.Placing.{HasPlace, IsMade, PlacesInImage, PlacesInRegions, PlacesInSlot};

/// A process in whose regions an object was placed and written, and its root, does what the definition of the making says
/// where there is room.
pub fn young_objects_act()
    ensures { (c : Step) (p : Part) (root : List ℕ) (shape : Shape) (slots : List Stored) (placed : State) (between : Memory) (at : ℕ) → StandsIn c.old c.was p → p.graph.sealed ≡ true
        → IsKept (after_make p root shape (Made (with_object p.graph shape slots place.Young) false)).part → PlacesInRegions c.old placed c.was between at (size_in p.graph.classes shape)
        → HasPlace placed between p shape place.Young at → IsMade c p root shape slots place.Young placed between at → Acts c p (after_make p root shape (Made (with_object p.graph shape slots place.Young) false)) }
{}

/// A process in which an object was placed in a slot of its own and written, and its root, does what the definition of the
/// making says where there is room.
pub fn large_objects_act()
    ensures { (c : Step) (p : Part) (root : List ℕ) (shape : Shape) (slots : List Stored) (placed : State) (between : Memory) (at : ℕ) → StandsIn c.old c.was p → p.graph.sealed ≡ true
        → IsKept (after_make p root shape (Made (with_object p.graph shape slots place.Large) false)).part → PlacesInSlot c.old placed c.was between at (unrounded p.graph.classes shape)
        → HasPlace placed between p shape place.Large at → IsMade c p root shape slots place.Large placed between at → Acts c p (after_make p root shape (Made (with_object p.graph shape slots place.Large) false)) }
{}

/// A process in whose image an object was placed and written, and its root, does what the definition of the making says where
/// there is room.
pub fn image_objects_act()
    ensures { (c : Step) (p : Part) (root : List ℕ) (shape : Shape) (slots : List Stored) (placed : State) (between : Memory) (at : ℕ) → StandsIn c.old c.was p → p.graph.sealed ≡ false
        → IsKept (after_make p root shape (Made (with_object p.graph shape slots (place.Image (image_base + image_fill p.graph))) false)).part → PlacesInImage c.old placed c.was between at (size_in p.graph.classes shape)
        → HasPlace placed between p shape (place.Image (image_base + image_fill p.graph)) at → IsMade c p root shape slots (place.Image (image_base + image_fill p.graph)) placed between at → Acts c p (after_make p root shape (Made (with_object p.graph shape slots (place.Image (image_base + image_fill p.graph))) false)) }
{}
