//! What commands do to the page names of a process.
ghost use Rattle.std.specs.Prelude.{◌≡◌, ◌+◌, ◌∷◌, ◌||◌, [], ℕ, true, false, length};
ghost use Rattle.std.specs.List.{IsDistinct};
ghost use Rattle.heap_graph.specs.Fork.{promoted};
ghost use Rattle.heap_graph.specs.Graph.{Graph};
ghost use Rattle.heap_world.specs.declared.command.Verb.{Verb};
ghost use Rattle.heap_world.specs.declared.names.PageName.{PageName};
ghost use Rattle.heap_world.specs.declared.reply.Reply.{Reply};
ghost use Rattle.heap_world.specs.Acts.{act, fork_part};
ghost use Rattle.heap_world.specs.Effect.{is_refusal};
ghost use Rattle.heap_graph.specs.Formed.{IsFormed};
ghost use Rattle.heap_world.specs.Commands.{HasFewFields};
ghost use Rattle.heap_world.specs.Pages.{is_touched, own_page_count, same_page, standing_pages};
ghost use Rattle.heap_world.specs.Part.{Part};
ghost use Rattle.heap_world.specs.World.{Process, World, frame_count, live};
ghost use Rattle.world_laws.specs.Effects.{AddsTouched, KeepsNames, MakesNew, TouchesFirst, is_seal, is_store};
ghost use Rattle.world_laws.specs.Labels.{IsLabelled};
ghost use Rattle.world_laws.specs.Named.{is_named, stands, waiting_pages, waits};

/// The tests of pages are those of lists: of the pages that stand, each of which is there once, and of those that wait.
/// The pages with labels are both.
pub fn pages_stand_by_lists()
    ensures standing { (g : Graph) (page : PageName) → is_touched (standing_pages g) page ≡ stands g page }
    ensures waiting { (g : Graph) (page : PageName) → is_touched (waiting_pages g) page ≡ waits g page }
    ensures both { (g : Graph) (page : PageName) → is_named g page ≡ (stands g page || waits g page) }
    ensures once { (g : Graph) → IsFormed g → IsDistinct same_page (standing_pages g) }
{}

/// What a command leaves labelled had a label before, or was made by it; and so for pages that wait.
pub fn named_pages_were_named_or_made()
    ensures act { (p : Part) (v : Verb) → HasFewFields v → IsFormed p.graph → KeepsNames p (act p v) }
    ensures fork { (p : Part) → p.graph.sealed ≡ true → IsFormed p.graph → KeepsNames p (fork_part p) }
{}

/// A page that a command makes is new, and has a label afterwards.
pub fn made_pages_are_new()
    ensures act { (p : Part) (v : Verb) → IsFormed p.graph → MakesNew p (act p v) }
    ensures fork { (p : Part) → p.graph.sealed ≡ true → IsFormed p.graph → MakesNew p (fork_part p) }
{}

/// A page that is touched first stood and was untouched, and only a store touches one. Afterwards it is touched, with what
/// was touched before, but for a seal and a fork, after which nothing is. A refused fork leaves what was touched.
pub fn touched_pages_stood()
    ensures first { (p : Part) (v : Verb) → IsFormed p.graph → TouchesFirst p (act p v) }
    ensures stores { (p : Part) (v : Verb) → is_store v ≡ false → (act p v).first ≡ [] }
    ensures act { (p : Part) (v : Verb) → is_seal v ≡ false → AddsTouched p (act p v) }
    ensures seal { (p : Part) → p.graph.sealed ≡ false → (act p Verb.Seal).part.touched ≡ [] }
    ensures fork { (p : Part) → (fork_part p).reply ≡ Reply.Done → ((fork_part p).first ≡ []) × ((fork_part p).part.touched ≡ []) }
    ensures refused { (p : Part) → is_refusal (fork_part p).reply ≡ true → ((fork_part p).first ≡ []) × ((fork_part p).part.touched ≡ p.touched) }
{}

/// After a promotion no page is a process's own, and none waits.
pub fn promoted_pages_are_shared()
    ensures own { (g : Graph) → own_page_count (promoted g) ≡ 0 }
    ensures waiting { (g : Graph) (page : PageName) → waits (promoted g) page ≡ false }
{}

/// Where one process lives alone, its frames are the pages that stand in it and its own.
pub fn frames_of_one_process_are_its_pages()
    ensures { (w : World) (q : Process) → live w.processes ≡ q ∷ [] → IsFormed q.part.graph → IsLabelled q →
        frame_count w ≡ length (standing_pages q.part.graph) + own_page_count q.part.graph }
{}
