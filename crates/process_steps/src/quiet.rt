//! Laws about steps that leave the pages of memory, and about what each command keeps.
ghost use Rattle.std.specs.Prelude.{◌≡◌, ◌+◌, ◌-◌, ◌^◌, ℕ, List, min};
ghost use Rattle.cow_pages.specs.Memory.{IsSound, Memory};
ghost use Rattle.heap_graph.specs.declared.names.Held.{Held};
ghost use Rattle.heap_graph.specs.Graph.{drop_root};
ghost use Rattle.heap_world.specs.declared.command.Verb.{Verb};
ghost use Rattle.heap_world.specs.declared.reply.Reply.{Reply};
ghost use Rattle.heap_world.specs.Acts.{dump_counted, dump_to, write_held};
ghost use Rattle.heap_world.specs.Commands.{HasFewFields};
ghost use Rattle.heap_world.specs.Effect.{becomes, tells};
ghost use Rattle.heap_world.specs.Part.{Part};
ghost use Rattle.heap_world.specs.Sound as world;
ghost use Rattle.object_view.specs.Seen.{root_address};
ghost use Rattle.root_list.specs.Roots.{with_root, without_root};
ghost use Rattle.process_state.specs.Acts.{effect_of, Acts, Step};
ghost use Rattle.process_state.specs.Stands.{StandsIn};
ghost use Rattle.process_state.specs.State.{addresses_in, State};
ghost use Rattle.process_steps.specs.Kept.{IsKept};
ghost use Rattle.process_steps.specs.Quiet.{SamePages};

/// What holds of each part before a command holds after it.
pub fn commands_keep_parts()
    ensures { (s : State) (m : Memory) (p : Part) (v : Verb) → StandsIn s m p → HasFewFields v → IsKept (effect_of p v).part }
{}

/// A process that is as it was, in memory whose pages are as they were, does what an answer does.
pub fn unchanged_processes_act()
    ensures { (c : Step) (p : Part) (r : Reply) → StandsIn c.old c.was p → c.new ≡ c.old → SamePages c.was c.now → IsSound c.now → Acts c p (tells p r) }
{}

/// A process that wrote or dropped a root does what the definitions say of that.
pub fn roots_act()
    ensures written { (c : Step) (p : Part) (name : List ℕ) (h : Held) (r : Reply) → StandsIn c.old c.was p → c.new ≡ record c.old { roots = with_root c.old.roots name (record { 0 = root_address (addresses_in c.old p.graph) h }) }
        → SamePages c.was c.now → IsSound c.now → world.IsSound (write_held p name h r).part → Acts c p (write_held p name h r) }
    ensures dropped { (c : Step) (p : Part) (name : List ℕ) (r : Reply) → StandsIn c.old c.was p → c.new ≡ record c.old { roots = without_root c.old.roots name }
        → SamePages c.was c.now → IsSound c.now → world.IsSound (becomes p (record p.graph { roots = drop_root p.graph.roots name }) r).part → Acts c p (becomes p (record p.graph { roots = drop_root p.graph.roots name }) r) }
{}

/// A process that counted a dump does what the definition of a dump says.
pub fn counted_dumps_act()
    ensures { (c : Step) (p : Part) → StandsIn c.old c.was p → c.new ≡ record c.old { dumps = min (c.old.dumps + 1) (2 ^ 32 - 1) } → SamePages c.was c.now → IsSound c.now → Acts c p (dump_to p (dump_counted p.graph)) }
{}
