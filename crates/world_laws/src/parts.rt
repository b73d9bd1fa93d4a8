//! Immune objects: the pages that they stand on, the cards and pages of their outward slots, and how forks make them.
ghost use Rattle.std.specs.Prelude.{◌≡◌, ◌+◌, ◌≤◌, ◌<◌, ◌/◌, [], ℕ, List, Some, true, false};
ghost use Rattle.std.specs.List.{AllByRecursion};
ghost use Rattle.model_numbers.specs.Numbers.{most_regions, number_limit, page_bytes, zygote_base};
ghost use Rattle.class_layout.specs.declared.kind.FieldAt.{FieldAt};
ghost use Rattle.class_layout.specs.Kinds.{is_ref, kind_bytes};
ghost use Rattle.class_layout.specs.Placing.{IsIn};
ghost use Rattle.heap_graph.specs.declared.names.Content.{Content};
ghost use Rattle.heap_graph.specs.declared.names.Stored.{Stored};
ghost use Rattle.heap_graph.specs.Collection.{collect};
ghost use Rattle.heap_graph.specs.Fork.{child_of, promotion_start};
ghost use Rattle.heap_graph.specs.Graph.{Graph, Object, is_immune, object_at};
ghost use Rattle.heap_graph.specs.Sizes.{unrounded};
ghost use Rattle.heap_graph.specs.Table.{in_spot_window};
ghost use Rattle.heap_world.specs.declared.command.Verb.{Verb};
ghost use Rattle.heap_world.specs.declared.names.PageName.{PageName};
ghost use Rattle.heap_world.specs.declared.reply.Reply.{Reply};
ghost use Rattle.heap_world.specs.Acts.{act, fork_part, store};
ghost use Rattle.heap_world.specs.Cards.{is_outward, noted_count};
ghost use Rattle.heap_graph.specs.Formed.{HasSlot, IsFormed};
ghost use Rattle.heap_world.specs.Commands.{HasFewFields};
ghost use Rattle.heap_world.specs.Pages.{is_touched, page_in, standing_pages, zygote_pages};
ghost use Rattle.heap_world.specs.Part.{Part, first_part};
ghost use Rattle.heap_world.specs.Sound.{IsSound};
ghost use Rattle.world_laws.specs.Outward.{IsCardAmong, LieIn, NotesWithin, TouchesOutward};
ghost use Rattle.world_laws.specs.Promotions.{ArePromoted};

/// The page of each immune slot that holds an object that isn't immune is touched: at first, and after each command and fork.
pub fn outward_slots_are_touched()
    ensures first { (budget number : ℕ) → TouchesOutward (first_part budget number) }
    ensures act { (p : Part) (v : Verb) → HasFewFields v → IsSound p → TouchesOutward p → TouchesOutward (act p v).part }
    ensures fork { (p : Part) → p.graph.sealed ≡ true → IsSound p → TouchesOutward p → TouchesOutward (fork_part p).part }
    ensures child { (p : Part) → TouchesOutward p → TouchesOutward (record p { graph = child_of p.graph }) }
{}

/// Noted cards lie below the fills of their windows, at first and after each command and fork, and there are at most as
/// many as the windows have.
pub fn noted_cards_lie_within()
    ensures first { (budget number : ℕ) → NotesWithin (first_part budget number) }
    ensures act { (p : Part) (v : Verb) → HasFewFields v → IsSound p → NotesWithin p → NotesWithin (act p v).part }
    ensures fork { (p : Part) → p.graph.sealed ≡ true → IsSound p → NotesWithin p → NotesWithin (fork_part p).part }
    ensures child { (p : Part) → NotesWithin p → NotesWithin (record p { graph = child_of p.graph }) }
    ensures count { (p : Part) → IsSound p → NotesWithin p → noted_count p.stored p.held ≤ 327680 }
{}

/// Each byte of an immune object of a formed graph lies on a page that stands.
pub fn objects_stand_on_standing_pages()
    ensures { (g : Graph) (o : Object) (offset : ℕ) → IsFormed g → IsIn o g.objects → is_immune g.sealed o.place ≡ true → offset < unrounded g.classes o.shape →
        (page : PageName) × (page_in o o.place offset ≡ Some page) × (is_touched (standing_pages g) page ≡ true) × LieIn page o offset 1 }
{}

/// A store into an immune object touches the page on which the slot's own bytes lie, and no other.
pub fn stores_touch_their_own_page()
    ensures own { (p : Part) (o : Object) (s : FieldAt) (v : Content) → IsFormed p.graph → object_at p.graph o.number ≡ Some o → HasSlot p.graph.classes o.shape s → is_immune p.graph.sealed o.place ≡ true →
        (page : PageName) × (page_in o o.place s.offset ≡ Some page) × (is_touched (store p o s v).part.touched page ≡ true) × LieIn page o s.offset (kind_bytes s.kind) }
    ensures alone { (p : Part) (o : Object) (s : FieldAt) (v : Content) → AllByRecursion (λ page. page_in o o.place s.offset ≡ Some page) (store p o s v).first }
{}

/// The card on which an immune slot of the image or of the zygote window lies is noted: where a reference is stored in it,
/// and as long as it holds an object that isn't immune.
pub fn slots_note_their_own_card()
    ensures store { (p : Part) (o : Object) (s : FieldAt) (v : Content) → IsFormed p.graph → object_at p.graph o.number ≡ Some o → HasSlot p.graph.classes o.shape s → is_immune p.graph.sealed o.place ≡ true →
        is_ref s.kind ≡ true → in_spot_window o.place ≡ true → IsCardAmong (store p o s v).part.stored [] o s.offset (kind_bytes s.kind) }
    ensures outward { (p : Part) (o : Object) (s : Stored) → IsSound p → IsIn o p.graph.objects → IsIn s o.slots → is_immune p.graph.sealed o.place ≡ true → is_outward p.graph s.value ≡ true →
        IsCardAmong p.stored p.held o s.at.offset (kind_bytes s.at.kind) }
{}

/// A fork that is done makes every object immune. The objects are those of the collected graph, with their numbers, shapes
/// and slots; what stood stays, and what is new stands from a page on that none of them had. All else of the graph is
/// collected alone.
pub fn forks_promote()
    ensures immune { (p : Part) → p.graph.sealed ≡ true → (fork_part p).reply ≡ Reply.Done → AllByRecursion (λ o. is_immune (fork_part p).part.graph.sealed o.place ≡ true) (fork_part p).part.graph.objects }
    ensures objects { (p : Part) → (fork_part p).reply ≡ Reply.Done → ArePromoted (zygote_base + promotion_start (collect p.graph)) (collect p.graph).objects (fork_part p).part.graph.objects }
    ensures rest { (p : Part) → (fork_part p).reply ≡ Reply.Done → (fork_part p).part.graph ≡ record (collect p.graph) { objects = (fork_part p).part.graph.objects } }
    ensures page { (g : Graph) (at : ℕ) → promotion_start g ≤ at → is_touched (zygote_pages g) (PageName.Zygote (at / page_bytes)) ≡ false }
{}
