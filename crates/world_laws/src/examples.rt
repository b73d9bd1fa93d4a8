//! The definitions, computed: what the world answers to small scripts. Each function's contract is an example.
ghost use Rattle.std.specs.Prelude.{◌≡◌, ◌∷◌, [], codes};
ghost use Rattle.class_layout.specs.declared.kind.Kind.{Kind};
ghost use Rattle.heap_world.specs.declared.command.Verb.{Verb};
ghost use Rattle.heap_world.specs.declared.names.PageName.{PageName};
ghost use Rattle.heap_world.specs.Examples.{line};
ghost use Rattle.heap_world.specs.Run.{answers, world_after};
ghost use Rattle.heap_world.specs.World.{first_world};
ghost use Rattle.world_laws.specs.Examples as example;

fn several_pages()
    ensures { answers (first_world 64 1) example.several_pages ≡ example.several_pages_answers }
{}

// The fork is refused, collects, and leaves what was touched.
fn near_the_window_end()
    ensures answers { answers example.near_end example.fork_and_collect ≡ example.near_end_answers }
    ensures touched { example.touched_pages (world_after example.near_end example.fork_and_collect) ≡ (PageName.Zygote 65534 ∷ []) ∷ [] }
{}

fn full_by_one_byte()
    ensures { answers example.nearly_full_image example.by_one_byte ≡ example.by_one_byte_answers }
{}

fn refused_and_collected()
    ensures { answers (first_world 1 1) example.refused_and_collected ≡ example.refused_and_collected_answers }
{}

fn noted_card()
    ensures { example.allowances (first_world 64 1) example.noted_card ≡ example.noted_card_allowances }
{}

// Where memory is wanting, a fork leaves the world before, or its process collected, or promoted. The child isn't there.
fn left_by_a_fork()
    ensures fork { example.places_left (world_after (first_world 64 1) example.one_held) (line 4 (codes "zygote") (Verb.Fork (codes "app")))
        ≡ example.both_young ∷ example.one_young ∷ example.one_promoted ∷ [] }
    ensures taken { example.places_left (world_after (first_world 64 1) example.one_held) (line 4 (codes "zygote") (Verb.Fork (codes "zygote"))) ≡ example.both_young ∷ [] }
{}

// An object for which there is room leaves the world before. One for which there is none may leave the process collected.
fn left_by_an_object()
    ensures room { example.places_left (world_after (first_world 64 1) example.one_held) (line 4 (codes "zygote") (Verb.Array (codes "b") Kind.Byte 300000)) ≡ example.both_young ∷ [] }
    ensures full { example.places_left (world_after (first_world 1 1) example.one_held) (line 4 (codes "zygote") (Verb.Array (codes "b") Kind.Byte 300000))
        ≡ example.both_young ∷ example.one_young ∷ [] }
{}
