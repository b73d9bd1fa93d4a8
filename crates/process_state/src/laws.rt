//! Laws about a process that stands in memory: which changes leave it standing.
ghost use Rattle.std.specs.Prelude.{◌≡◌, ◌≢◌, ℕ, List, true, None};
ghost use Rattle.page_tables.specs.declared.address.Addr.{Addr};
ghost use Rattle.cow_pages.specs.Change.{ChangesTable};
ghost use Rattle.cow_pages.specs.Memory.{is_live, page_at, IsSound, Memory};
ghost use Rattle.cow_pages.specs.Only.{OnlyTable};
ghost use Rattle.heap_graph.specs.declared.names.Held.{Held};
ghost use Rattle.heap_graph.specs.Graph.{drop_root, write_root};
ghost use Rattle.heap_world.specs.declared.reply.Reply.TheVariants.{Done};
ghost use Rattle.heap_graph.specs.Fork.{child_of};
ghost use Rattle.heap_world.specs.Part.{Part};
ghost use Rattle.heap_world.specs.Acts.{fork_part};
ghost use Rattle.heap_world.specs.Sound as world;
ghost use Rattle.object_view.specs.Seen.{root_address};
ghost use Rattle.root_list.specs.Roots.{with_root, without_root};
ghost use Rattle.process_state.specs.State.{addresses_in, State};
ghost use Rattle.process_state.specs.Same.{SameFor};
ghost use Rattle.process_state.specs.Stands.{StandsIn};

/// A process stands in every memory that is the same for it. So it is where a step of another process changed that one's
/// table, where that table ended, and where a table was added with its pages.
pub fn others_leave_it_standing()
    ensures same { (s : State) (p : Part) (old new : Memory) → StandsIn s old p → SameFor s p old new → IsSound new → StandsIn s new p }
    ensures acted { (s : State) (p : Part) (old new : Memory) (t : ℕ) → StandsIn s old p → t ≢ s.page_table → OnlyTable old new t → IsSound new → StandsIn s new p }
    ensures ended { (s : State) (p : Part) (old new : Memory) (t : ℕ) → StandsIn s old p → t ≢ s.page_table → ChangesTable old new t → ((q : ℕ) → page_at new t q ≡ None) → IsSound new → StandsIn s new p }
    ensures joined { (s : State) (p : Part) (old new : Memory) (t u : ℕ) → StandsIn s old p → t ≢ s.page_table → u ≢ s.page_table → ChangesTable old new u → ((q : ℕ) → page_at new u q ≡ page_at old t q) → IsSound new → StandsIn s new p }
{}

/// More reads, and more that is free, change nothing for a process.
pub fn uncounted_changes_leave_it_standing()
    ensures { (s : State) (p : Part) (old new : Memory) → StandsIn s old p → new ≡ record old { reads = new.reads; frames = new.frames; leaf_count = new.leaf_count; spare = new.spare } → IsSound new → StandsIn s new p }
{}

/// A process that promoted all its objects has no page that it needs alone: it stands where a table was added that has its
/// pages, and with that table so does its child, which has the same state but was never dumped.
pub fn forked_processes_stand()
    ensures parent { (s : State) (p : Part) (old new : Memory) (u : ℕ) → (fork_part p).reply ≡ Done → p.graph.sealed ≡ true → StandsIn s old (fork_part p).part → u ≢ s.page_table → ChangesTable old new u
        → ((q : ℕ) → page_at new u q ≡ page_at old s.page_table q) → IsSound new → StandsIn s new (fork_part p).part }
    ensures child { (s : State) (p : Part) (old new : Memory) (u : ℕ) → (fork_part p).reply ≡ Done → p.graph.sealed ≡ true → StandsIn s old (fork_part p).part → is_live new u ≡ true
        → ((q : ℕ) → page_at new u q ≡ page_at old s.page_table q) → IsSound new → StandsIn (record s { page_table = u; dumps = 0 }) new (record (fork_part p).part { graph = child_of (fork_part p).part.graph }) }
{}

/// A root that is written or dropped leaves all else as it was.
pub fn written_roots_stand()
    ensures { (s : State) (m : Memory) (p : Part) (name : List ℕ) (h : Held) → StandsIn s m p → world.IsSound (record p { graph = record p.graph { roots = write_root p.graph.roots name h } })
        → StandsIn (record s { roots = with_root s.roots name (record { 0 = root_address (addresses_in s p.graph) h }) }) m (record p { graph = record p.graph { roots = write_root p.graph.roots name h } }) }
{}

/// So does one that is dropped.
pub fn dropped_roots_stand()
    ensures { (s : State) (m : Memory) (p : Part) (name : List ℕ) → StandsIn s m p → world.IsSound (record p { graph = record p.graph { roots = drop_root p.graph.roots name } })
        → StandsIn (record s { roots = without_root s.roots name }) m (record p { graph = record p.graph { roots = drop_root p.graph.roots name } }) }
{}
