//! A law about a store.
ghost use Rattle.class_layout.specs.declared.kind.FieldAt.{FieldAt};
ghost use Rattle.heap_graph.specs.declared.names.Content.{Content};
ghost use Rattle.heap_graph.specs.Graph.{Object};
ghost use Rattle.heap_world.specs.Acts.{store};
ghost use Rattle.heap_world.specs.Part.{Part};
ghost use Rattle.process_state.specs.Acts.{Acts, Step};
ghost use Rattle.process_state.specs.Stands.{StandsIn};
ghost use Rattle.process_steps.specs.Kept.{IsKept};
ghost use Rattle.process_steps.specs.Storing.{IsStore};

/// A process that stored into an object, and noted the card, does what the definition of a store says.
pub fn stores_act()
    ensures { (c : Step) (p : Part) (o : Object) (at : FieldAt) (v : Content) → StandsIn c.old c.was p → IsKept (store p o at v).part → IsStore c p o at v → Acts c p (store p o at v) }
{}
