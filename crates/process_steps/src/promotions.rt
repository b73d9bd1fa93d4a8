//! Laws about a process that forks: it collects, and then promotes.
ghost use Rattle.std.specs.Prelude.{◌≡◌, List, true, false};
ghost use Rattle.cow_pages.specs.Memory.{Memory};
ghost use Rattle.heap_graph.specs.Collection.{collect};
ghost use Rattle.heap_graph.specs.Fork.{has_zygote_room};
ghost use Rattle.heap_graph.specs.Formed.{IsFormed};
ghost use Rattle.heap_world.specs.declared.reply.Reply.TheVariants.{Done};
ghost use Rattle.heap_world.specs.Acts.{fork_part, gc_to};
ghost use Rattle.heap_world.specs.Part.{with_collected, Part};
ghost use Rattle.object_view.specs.declared.names.Slot.{Slot};
ghost use Rattle.process_state.specs.Acts.{Acts, Step};
ghost use Rattle.process_state.specs.Stands.{StandsIn};
ghost use Rattle.process_steps.specs.Kept.{IsKept};
ghost use Rattle.process_steps.specs.Promoting.{IsPromotion};

/// A collected process that is promoted, with its table settled and its cards cleared, does what a fork does behind its
/// collection.
pub fn promotions_act()
    ensures { (c : Step) (p : Part) (slots : List Slot) (between : Memory) → IsKept p → p.graph.sealed ≡ true → (fork_part p).reply ≡ Done → StandsIn c.old c.was (with_collected p (collect p.graph))
        → IsPromotion c (collect p.graph) slots between → Acts c (with_collected p (collect p.graph)) (fork_part p) }
{}

/// So the collection and the promotion together are the fork of the process; and where the zygote window is full, its
/// collection alone is.
pub fn forks_act()
    ensures done { (c d : Step) (p : Part) → p.graph.sealed ≡ true → IsFormed p.graph → Acts c p (gc_to p (collect p.graph)) → Acts d (with_collected p (collect p.graph)) (fork_part p) → (fork_part p).reply ≡ Done
        → d.old ≡ c.new → d.was ≡ c.now → Acts (record { old = c.old; new = d.new; was = c.was; now = d.now }) p (fork_part p) }
    ensures full { (c : Step) (p : Part) → Acts c p (gc_to p (collect p.graph)) → has_zygote_room (collect p.graph) ≡ false → Acts c p (fork_part p) }
{}
