//! Laws about the place of a new object.
ghost use Rattle.std.specs.Prelude.{◌≡◌, ◌+◌, ◌∷◌, [], ℕ, List, true, false};
ghost use Rattle.model_numbers.specs.Numbers.{image_base};
ghost use Rattle.cow_pages.specs.Memory.{Memory};
ghost use Rattle.heap_graph.specs.declared.names.Place.{Place};
ghost use Rattle.heap_graph.specs.declared.names.Place.TheVariants as place;
ghost use Rattle.heap_graph.specs.declared.names.Shape.{Shape};
ghost use Rattle.heap_graph.specs.declared.names.Stored.{Stored};
ghost use Rattle.heap_graph.specs.Allocation.{with_object};
ghost use Rattle.heap_graph.specs.Formed.{IsFormed};
ghost use Rattle.heap_graph.specs.Graph.{image_fill, Graph};
ghost use Rattle.heap_graph.specs.Sizes.{size_in, unrounded};
ghost use Rattle.heap_world.specs.Acts.{root_written, with_slot};
ghost use Rattle.heap_world.specs.Part.{Part};
ghost use Rattle.process_state.specs.Stands.{StandsIn};
ghost use Rattle.process_state.specs.State.{State};
ghost use Rattle.process_steps.specs.Placing.{HasPlace, PlacesInImage, PlacesInRegions, PlacesInSlot};

/// A graph with a new object is formed if it is with the root that is written last, and then it is without the object's slots
/// too. A slot of the new object that is stored to is one with which it is made.
pub fn new_graphs_are_formed()
    ensures formed { (g : Graph) (root : List ℕ) (shape : Shape) (slots : List Stored) (place : Place) → IsFormed g → IsFormed (root_written (with_object g shape slots place) root g.next) → IsFormed (with_object g shape slots place) × IsFormed (with_object g shape [] place) }
    ensures stored { (g : Graph) (shape : Shape) (slot : Stored) (place : Place) → IsFormed g → with_slot (with_object g shape [] place) g.next slot ≡ with_object g shape (slot ∷ []) place }
{}

/// Where an object was placed in the image there is room for it, if the graph with it is formed.
pub fn image_objects_have_room()
    ensures { (s placed : State) (was between : Memory) (p : Part) (shape : Shape) (at : ℕ) → StandsIn s was p → p.graph.sealed ≡ false → IsFormed (with_object p.graph shape [] (place.Image (image_base + image_fill p.graph)))
        → PlacesInImage s placed was between at (size_in p.graph.classes shape) → HasPlace placed between p shape (place.Image (image_base + image_fill p.graph)) at }
{}

/// Where an object was placed in a slot of its own there is room for it, if the graph with it is formed.
pub fn large_objects_have_room()
    ensures { (s placed : State) (was between : Memory) (p : Part) (shape : Shape) (at : ℕ) → StandsIn s was p → p.graph.sealed ≡ true → IsFormed (with_object p.graph shape [] place.Large)
        → PlacesInSlot s placed was between at (unrounded p.graph.classes shape) → HasPlace placed between p shape place.Large at }
{}

/// Where an object was placed in the regions there is room for it, if the graph with it is formed.
pub fn young_objects_have_room()
    ensures { (s placed : State) (was between : Memory) (p : Part) (shape : Shape) (at : ℕ) → StandsIn s was p → p.graph.sealed ≡ true → IsFormed (with_object p.graph shape [] place.Young)
        → PlacesInRegions s placed was between at (size_in p.graph.classes shape) → HasPlace placed between p shape place.Young at }
{}
