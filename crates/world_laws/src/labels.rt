//! The labels of pages: which pages have one, of which line, and which processes share it.
ghost use Rattle.std.specs.Prelude.{◌≡◌, ◌≢◌, ◌+◌, ◌<◌, ◌⊎◌, ℕ, Some, true, false};
ghost use Rattle.class_layout.specs.Names.{same_name};
ghost use Rattle.class_layout.specs.Placing.{IsIn};
ghost use Rattle.heap_world.specs.declared.command.Command.{Command};
ghost use Rattle.heap_world.specs.declared.names.Label.{Label};
ghost use Rattle.heap_world.specs.declared.names.PageName.{PageName};
ghost use Rattle.heap_world.specs.Commands.{HasFewFields};
ghost use Rattle.heap_world.specs.World.{Process, World, label_of, step};
ghost use Rattle.world_laws.specs.Labels.{AddsOwn, AreEarlier, AreLabelled, HasEarlier, HaveLikeLarge, HaveOneLine, HaveOwnLines, IsLabelled, IsOwn};
ghost use Rattle.world_laws.specs.Named.{is_named};
ghost use Rattle.world_laws.specs.Worlds.{IsSoundWorld};

/// Labels are of lines before the next one, and a step adds labels of its own line alone: to those that the process had,
/// or to those of the process that it names, which forked.
pub fn labels_are_earlier()
    ensures step { (w : World) (line : ℕ) (c : Command) → AreEarlier line w → AreEarlier (line + 1) (step w line c).world }
    ensures own { (w : World) (line : ℕ) (c : Command) (new : Process) → IsIn new (step w line c).world.processes →
        (old : Process) × IsIn old w.processes × ((old.name ≡ new.name) ⊎ (old.name ≡ c.process)) × AddsOwn line old new }
{}

/// Each page that stands, and each page of a large object that waits for a fork, has a label, which is of that page and of
/// an earlier line.
pub fn pages_are_labelled()
    ensures step { (w : World) (line : ℕ) (c : Command) → HasFewFields c.verb → IsSoundWorld w → AreLabelled w → AreLabelled (step w line c).world }
    ensures before { (line : ℕ) (q : Process) (page : PageName) → HasEarlier line q → IsLabelled q → is_named q.part.graph page ≡ true →
        (n : ℕ) × (n < line) × (label_of q.labels page ≡ Some (record { page = page; line = n })) }
{}

/// The pages of a large object that waits for a fork have labels of one line.
pub fn large_objects_have_one_line()
    ensures { (w : World) (line : ℕ) (c : Command) → HasFewFields c.verb → IsSoundWorld w → HaveOneLine w → HaveOneLine (step w line c).world }
{}

/// The line of a page that waits, or that its process touched, is the line of no other process's label.
pub fn own_pages_have_own_lines()
    ensures step { (w : World) (line : ℕ) (c : Command) → HasFewFields c.verb → IsSoundWorld w → AreEarlier line w → HaveOwnLines w → HaveOwnLines (step w line c).world }
    ensures apart { (w : World) (q r : Process) (a b : PageName) (l m : Label) → HaveOwnLines w → IsIn q w.processes → IsIn r w.processes → same_name q.name r.name ≡ false →
        IsOwn q a → label_of q.labels a ≡ Some l → label_of r.labels b ≡ Some m → m.line ≢ l.line }
{}

/// Where two processes have one label of a page of a large object, they have one object there: of one shape.
pub fn equal_labels_are_of_one_object()
    ensures { (w : World) (line : ℕ) (c : Command) → HasFewFields c.verb → IsSoundWorld w → AreEarlier line w → HaveLikeLarge w → HaveLikeLarge (step w line c).world }
{}
