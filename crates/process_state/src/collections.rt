//! A law about a process that is collected.
ghost use Rattle.std.specs.Prelude.{◌≡◌, List, true};
ghost use Rattle.heap_graph.specs.Collection.{collect};
ghost use Rattle.heap_world.specs.Acts.{gc_to};
ghost use Rattle.heap_world.specs.Part.{Part};
ghost use Rattle.object_view.specs.declared.names.Slot.{Slot};
ghost use Rattle.process_state.specs.Acts.{Acts, Step};
ghost use Rattle.process_state.specs.Collections.{IsCollection};
ghost use Rattle.process_state.specs.Stands.{StandsIn};

/// A sealed process that is collected does what the definition of a collection says.
pub fn collections_act()
    ensures { (c : Step) (p : Part) (slots : List Slot) → StandsIn c.old c.was p → p.graph.sealed ≡ true → IsCollection c p slots → Acts c p (gc_to p (collect p.graph)) }
{}
