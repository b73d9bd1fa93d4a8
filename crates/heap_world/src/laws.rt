//! Laws above the definitions: what they say, in other words.
ghost use Rattle.std.specs.Prelude.{◌≡◌, ℕ, List, Some, false, IfSome, map};
ghost use Rattle.class_layout.specs.Names.{same_name};
ghost use Rattle.heap_world.specs.declared.command.Command.{Command};
ghost use Rattle.heap_world.specs.declared.reply.Reply.{Reply};
ghost use Rattle.heap_world.specs.Isolation.{AreAlone, NoNameTaken, first_told, told_after};
ghost use Rattle.heap_world.specs.Run.{Line, answers, world_after};
ghost use Rattle.heap_world.specs.World.{Process, World, child_process, first_world, process_named, step};
ghost use Rattle.heap_world.specs.declared.command.Verb.{Verb};

/// A step for one process leaves every other process as it was, its labels included.
pub fn a_step_leaves_other_processes()
    ensures { (w : World) (line : ℕ) (c : Command) (name : List ℕ) → same_name c.process name ≡ false →
        IfSome (process_named w.processes name) (λ q. process_named (step w line c).world.processes name ≡ Some q) }
{}

/// A fork's child is its parent after the fork, with its labels, but that it was never dumped.
pub fn a_child_is_its_parent()
    ensures { (w : World) (line : ℕ) (parent child : List ℕ) →
        let s = step w line (record { process = parent; verb = Verb.Fork child }) in
        s.reply ≡ Reply.Done →
        IfSome (process_named s.world.processes parent) (λ q. process_named s.world.processes child ≡ Some (child_process q child)) }
{}

/// Without a fork that is refused since its name is taken, each process answers and is what its own lines alone
/// make of it, but for the counts of all processes' frames. What they were told is listed in the order of processes.
pub fn processes_are_isolated()
    ensures alone { (budget number : ℕ) (lines : List Line) →
        let start = first_world budget number in
        NoNameTaken (answers start lines) → AreAlone start (world_after start lines) (told_after start first_told lines) }
    ensures names { (budget number : ℕ) (lines : List Line) →
        let start = first_world budget number in
        map (λ t. t.name) (told_after start first_told lines) ≡ map (λ q. q.name) (world_after start lines).processes }
{}
