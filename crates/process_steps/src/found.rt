//! Laws about the objects that roots and slots of a process hold.
ghost use Rattle.std.specs.Prelude.{◌≡◌, ◌≢◌, ◌<◌, ◌≤◌, ℕ, List, Some};
ghost use Rattle.model_numbers.specs.Numbers.{number_limit};
ghost use Rattle.class_layout.specs.declared.kind.FieldAt.{FieldAt};
ghost use Rattle.class_layout.specs.Placing.{IsIn};
ghost use Rattle.cow_pages.specs.Memory.{Memory};
ghost use Rattle.cow_pages.specs.View.{view_of};
ghost use Rattle.heap_graph.specs.declared.names.Content.TheVariants as content;
ghost use Rattle.heap_graph.specs.declared.names.Held.TheVariants as held;
ghost use Rattle.heap_graph.specs.declared.names.Root.{Root};
ghost use Rattle.heap_graph.specs.Formed.{FitsKind, HasSlot};
ghost use Rattle.heap_graph.specs.Graph.{object_at, root_at, Object};
ghost use Rattle.heap_graph.specs.Values.{value_at};
ghost use Rattle.heap_world.specs.Part.{Part};
ghost use Rattle.object_view.specs.Objects.{IsKnown};
ghost use Rattle.raw_objects.specs.Raws.{StandsRaw};
ghost use Rattle.graph_pages.specs.Holds.{raw_under};
ghost use Rattle.root_list.specs.Roots.{held_at};
ghost use Rattle.process_state.specs.Stands.{StandsIn};
ghost use Rattle.process_state.specs.State.{addresses_in, State};
ghost use Rattle.process_steps.specs.Finding.{held_address};

/// A root of the process is one of its part, and holds the address of what that holds. What roots and slots hold is there;
/// and an object of the part stands at its address, which isn't 0.
pub fn objects_are_found()
    ensures roots { (s : State) (m : Memory) (p : Part) (name : List ℕ) → StandsIn s m p → held_at s.roots name ≡ held_address (addresses_in s p.graph) (root_at p.graph.roots name) }
    ensures held { (s : State) (m : Memory) (p : Part) (name : List ℕ) (r : Root) (n : ℕ) → StandsIn s m p → root_at p.graph.roots name ≡ Some r → r.holds ≡ held.Object n → (o : Object) × (object_at p.graph n ≡ Some o) }
    ensures targets { (s : State) (m : Memory) (p : Part) (o : Object) (at : FieldAt) (n : ℕ) → StandsIn s m p → IsIn o p.graph.objects → value_at o.slots at ≡ content.Object n → (x : Object) × (object_at p.graph n ≡ Some x) }
    ensures found { (s : State) (m : Memory) (p : Part) (n : ℕ) (o : Object) → StandsIn s m p → object_at p.graph n ≡ Some o → IsIn o p.graph.objects × (o.number ≡ n) }
    ensures stands { (s : State) (m : Memory) (p : Part) (o : Object) → StandsIn s m p → IsIn o p.graph.objects → StandsRaw s.classes (view_of m s.page_table) (addresses_in s p.graph o.number) (raw_under (addresses_in s p.graph) o)
        × IsKnown s.classes o.shape × (addresses_in s p.graph o.number ≢ 0) × (1 ≤ o.number) × (o.number < number_limit) }
    ensures fits { (s : State) (m : Memory) (p : Part) (o : Object) (at : FieldAt) → StandsIn s m p → IsIn o p.graph.objects → HasSlot p.graph.classes o.shape at → FitsKind at.kind (value_at o.slots at) }
{}
