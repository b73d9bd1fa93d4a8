//! Laws about steps of a process.
ghost use Rattle.std.specs.Prelude.{◌≡◌, [], ℕ};
ghost use Rattle.cow_pages.specs.Memory.{IsSound, Memory};
ghost use Rattle.heap_world.specs.declared.reply.Reply.{Reply};
ghost use Rattle.heap_world.specs.Effect.{tells, Effect};
ghost use Rattle.heap_world.specs.Part.{Part};
ghost use Rattle.world_laws.specs.Effects.{KeepsNames};
ghost use Rattle.process_state.specs.Acts.{Acts, Step};
ghost use Rattle.process_state.specs.Stands.{StandsIn};
ghost use Rattle.process_state.specs.State.{State};

/// A process that only answers, and at most reads, does what an answer does.
pub fn answers_act()
    ensures { (s : State) (m : Memory) (p : Part) (r : Reply) (reads : ℕ) → StandsIn s m p → IsSound (record m { reads = reads }) → Acts (record { old = s; new = s; was = m; now = record m { reads = reads } }) p (tells p r) }
{}

/// A step that follows one which made no page and touched none first, as a collection is, is one step with it.
pub fn steps_follow_one_another()
    ensures { (c d : Step) (p : Part) (e f : Effect) → Acts c p e → Acts d e.part f → d.old ≡ c.new → d.was ≡ c.now → e.made ≡ [] → e.first ≡ [] → KeepsNames e.part f
        → Acts (record { old = c.old; new = d.new; was = c.was; now = d.now }) p f }
{}
