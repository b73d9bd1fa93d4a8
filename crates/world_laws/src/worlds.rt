//! What every line keeps of a world.
ghost use Rattle.std.specs.Prelude.{◌≡◌, ◌⊎◌, ◌+◌, ◌≤◌, ℕ, List, true, false, IfSome};
ghost use Rattle.model_numbers.specs.Numbers.{most_regions, number_limit};
ghost use Rattle.class_layout.specs.Placing.{IsIn};
ghost use Rattle.heap_graph.specs.Collection.{collect};
ghost use Rattle.heap_world.specs.declared.command.Command.{Command};
ghost use Rattle.heap_world.specs.declared.reply.Refusal.{Refusal};
ghost use Rattle.heap_world.specs.declared.reply.Reply.{Reply};
ghost use Rattle.heap_world.specs.Commands.{HasFewFields};
ghost use Rattle.heap_world.specs.Part.{with_collected};
ghost use Rattle.heap_world.specs.Run.{Line, world_after};
ghost use Rattle.heap_world.specs.World.{World, first_world, process_named, put_process, step};
ghost use Rattle.world_laws.specs.Effects.{is_full};
ghost use Rattle.world_laws.specs.Wanting.{CameOnAlone, left_worlds};
ghost use Rattle.world_laws.specs.Worlds.{AreLines, IsInOrder, IsSoundWorld, next_line};

/// The names of a world are apart and its processes sound: at first, and after each command.
pub fn worlds_are_sound()
    ensures first { (budget number : ℕ) → 1 ≤ budget → budget ≤ most_regions → number ≤ number_limit → IsSoundWorld (first_world budget number) }
    ensures step { (w : World) (line : ℕ) (c : Command) → HasFewFields c.verb → IsSoundWorld w → IsSoundWorld (step w line c).world }
{}

/// A refused line leaves the world as it was. Where the heap or the zygote window is full, the process it names is left
/// collected: its labels and its touched pages stay.
pub fn refused_lines_leave_the_world()
    ensures left { (w : World) (line : ℕ) (c : Command) (why : Refusal) → IsSoundWorld w → (step w line c).reply ≡ Reply.Refused why → is_full why ≡ false → (step w line c).world ≡ w }
    ensures full { (w : World) (line : ℕ) (c : Command) (why : Refusal) → (step w line c).reply ≡ Reply.Refused why → is_full why ≡ true →
        IfSome (process_named w.processes c.process) (λ q. (step w line c).world ≡ put_process w (record q { part = with_collected q.part (collect q.part.graph) })) }
{}

/// All laws of worlds at once: they hold of the world that a script begins with, and each line keeps them, so that they
/// hold after every script whose lines are numbered in their order.
pub fn worlds_stay_in_order()
    ensures first { (budget number line : ℕ) → 1 ≤ budget → budget ≤ most_regions → number ≤ number_limit → IsInOrder line (first_world budget number) }
    ensures step { (w : World) (line : ℕ) (c : Command) → HasFewFields c.verb → IsInOrder line w → IsInOrder (line + 1) (step w line c).world }
    ensures script { (budget number line : ℕ) (lines : List Line) → 1 ≤ budget → budget ≤ most_regions → number ≤ number_limit → AreLines line lines →
        IsInOrder (next_line line lines) (world_after (first_world budget number) lines) }
{}

/// Where memory was wanting for a line, the world before it is left, or one where its process alone was collected, or
/// promoted as by a fork. Each world that may be left is in order before the next line.
pub fn left_worlds_stay_in_order()
    ensures alone { (w left : World) (line : ℕ) (c : Command) → IsSoundWorld w → IsIn left (left_worlds w line c) → (left ≡ w) ⊎ CameOnAlone w line c left }
    ensures order { (w left : World) (line : ℕ) (c : Command) → HasFewFields c.verb → IsInOrder line w → IsIn left (left_worlds w line c) → IsInOrder (line + 1) left }
{}
