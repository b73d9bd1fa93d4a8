//! Laws about the first process, and about its seal.
ghost use Rattle.std.specs.Prelude.{◌≡◌, ◌≤◌, ℕ, true, false};
ghost use Rattle.model_numbers.specs.Numbers.{most_regions, number_limit};
ghost use Rattle.cow_pages.specs.Memory.{Memory};
ghost use Rattle.heap_world.specs.declared.command.Verb.TheVariants as verb;
ghost use Rattle.heap_world.specs.Acts.{act};
ghost use Rattle.heap_world.specs.Part.{first_part, Part};
ghost use Rattle.process_state.specs.Acts.{Acts, Step};
ghost use Rattle.process_state.specs.Stands.{StandsIn};
ghost use Rattle.process_state.specs.State.{State};
ghost use Rattle.process_steps.specs.First.{IsFirst};
ghost use Rattle.process_steps.specs.Settling.{Settles};

/// The first process of a machine stands, with a table without pages.
pub fn first_processes_stand()
    ensures { (s : State) (m : Memory) (budget number : ℕ) → 1 ≤ budget → budget ≤ most_regions → 1 ≤ number → number ≤ number_limit → IsFirst s m budget number → StandsIn s m (first_part budget number) }
{}

/// A process that is sealed, with its table settled, does what the definition of the seal says.
pub fn seals_act()
    ensures { (c : Step) (p : Part) → StandsIn c.old c.was p → p.graph.sealed ≡ false → c.new ≡ record c.old { sealed = true } → Settles c.was c.now c.old.page_table → Acts c p (act p verb.Seal) }
{}
