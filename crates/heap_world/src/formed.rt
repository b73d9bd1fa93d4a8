//! What every command keeps of a process's graph.
ghost use Rattle.std.specs.Prelude.{◌≡◌, ◌+◌, ◌≤◌, ℕ, List, true};
ghost use Rattle.model_numbers.specs.Numbers.{most_regions, number_limit};
ghost use Rattle.class_layout.specs.ClassList.{Class, IsClassList};
ghost use Rattle.class_layout.specs.Kinds.{kind_bytes};
ghost use Rattle.class_layout.specs.declared.kind.FieldAt.{FieldAt};
ghost use Rattle.heap_graph.specs.Fork.{child_of};
ghost use Rattle.heap_graph.specs.Graph.{Graph, first_graph};
ghost use Rattle.heap_graph.specs.Packing.{places_from, young_sizes};
ghost use Rattle.heap_graph.specs.Paths.{ArePacked};
ghost use Rattle.heap_graph.specs.Sizes.{unrounded};
ghost use Rattle.heap_graph.specs.declared.names.Shape.{Shape};
ghost use Rattle.heap_world.specs.Acts.{act, fork_part};
ghost use Rattle.heap_graph.specs.Formed.{HasSlot, IsFormed, is_referent};
ghost use Rattle.heap_world.specs.Commands.{HasFewFields};
ghost use Rattle.heap_world.specs.Part.{Part};
ghost use Rattle.heap_world.specs.declared.command.Verb.{Verb};

/// The graph of each process is formed: it is at first, every command and every fork keeps it, and a child's is its parent's.
pub fn graphs_are_formed()
    ensures first { (budget number : ℕ) → budget ≤ most_regions → number ≤ number_limit → IsFormed (first_graph budget number) }
    ensures act { (p : Part) (v : Verb) → HasFewFields v → IsFormed p.graph → IsFormed (act p v).part.graph }
    ensures fork { (p : Part) → p.graph.sealed ≡ true → IsFormed p.graph → IsFormed (fork_part p).part.graph }
    ensures child { (g : Graph) → IsFormed g → IsFormed (child_of g) }
{}

/// The young objects of a formed graph lie in one region each, rise and don't overlap.
pub fn formed_graphs_are_packed()
    ensures { (g : Graph) → IsFormed g → ArePacked 0 (young_sizes g) (places_from 0 (young_sizes g)) }
{}

/// A slot of a shape lies behind the header and before the object's end, and it is weak exactly where it is the
/// referent of a weak reference.
pub fn slots_lie_in_objects()
    ensures header { (cs : List Class) (shape : Shape) (at : FieldAt) → HasSlot cs shape at → 8 ≤ at.offset }
    ensures within { (cs : List Class) (shape : Shape) (at : FieldAt) → HasSlot cs shape at → at.offset + kind_bytes at.kind ≤ unrounded cs shape }
    ensures weak { (cs : List Class) (shape : Shape) (at : FieldAt) → IsClassList cs → HasSlot cs shape at → at.weak ≡ is_referent cs shape at.offset }
{}
