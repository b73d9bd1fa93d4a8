//! Laws above the definitions: which raw objects memory holds after it changed, and which pages steps leave.
ghost use Rattle.std.specs.Prelude.{◌≡◌, ◌≢◌, ◌⊎◌, ◌||◌, ℕ, ◌+◌, ◌%◌, ◌^◌, ◌<◌, ◌≤◌, Bool, true, false, nat_eq, IsTrue, ℤ, pos, List};
ghost use Rattle.class_layout.specs.declared.kind.FieldAt.{FieldAt};
ghost use Rattle.class_layout.specs.declared.kind.Kind.{Kind};
ghost use Rattle.class_layout.specs.ClassList.{Class};
ghost use Rattle.class_layout.specs.Placing.{IsIn};
ghost use Rattle.page_tables.specs.Address.{page_of};
ghost use Rattle.cow_pages.specs.Memory.{is_mapped, is_written, IsSound, Memory};
ghost use Rattle.cow_pages.specs.Only.{OnlyTable};
ghost use Rattle.cow_pages.specs.View.{view_of, SameBeside, SameView, View};
ghost use Rattle.heap_graph.specs.Sizes.{size_in};
ghost use Rattle.object_view.specs.declared.names.Header.TheVariants.{Forward};
ghost use Rattle.object_view.specs.Changes.{ChangesPages, ChangesWithin, HasBytes, PutsNumber};
ghost use Rattle.heap_graph.specs.Places.{places_of};
ghost use Rattle.object_view.specs.Objects.{IsKnown, IsPlace, IsSpace};
ghost use Rattle.object_view.specs.Values.{number_of};
ghost use Rattle.object_view.specs.Words.{lock_word};
ghost use Rattle.page_runs.specs.Runs.{MapsRun};
ghost use Rattle.raw_objects.specs.Keeps.{Keeps};
ghost use Rattle.raw_objects.specs.Raws.{added, among, changed, evacuated, forwarded_raw, raw_size, stored, HoldsRaws, IsFreeSpace, IsOffPage, Raw, Raws, SameRaws, StandsRaw};
ghost use Rattle.raw_objects.specs.References.{goes, turned_where, IsReadable, IsSlotIn};

/// Where a value was put at a place of an object, memory holds the objects with this value stored.
pub fn stored_objects_are_held()
    ensures { (cs : List Class) (old new : View) (raws : Raws) (at : ℕ) (kind : Kind) (offset : ℕ) (place : FieldAt) (z : ℤ) → HoldsRaws cs old raws → raws.has at ≡ true
        → IsPlace cs (raws.raw at).shape kind offset place → PutsNumber old new kind (at + offset) (number_of kind z) → HoldsRaws cs new (stored raws at offset z) }
{}

/// Where an object was written into bytes that no object has, memory holds one object more.
pub fn added_objects_are_held()
    ensures { (cs : List Class) (old new : View) (raws : Raws) (at : ℕ) (x : Raw) → HoldsRaws cs old raws → IsFreeSpace cs raws at (size_in cs x.shape)
        → ChangesWithin old new at (at + size_in cs x.shape) → IsKnown cs x.shape → StandsRaw cs new at x → HoldsRaws cs new (added raws at x) }
{}

/// Where an object's bytes were copied into bytes that no object has, memory holds the copy too. Where the new address
/// was then noted in the old object, memory holds the copy and the forwarded object.
pub fn moved_objects_are_held()
    ensures copied { (cs : List Class) (old new : View) (raws : Raws) (from to : ℕ) → HoldsRaws cs old raws → raws.has from ≡ true → to % 8 ≡ 0 → IsSpace old to (raw_size cs raws from)
        → IsFreeSpace cs raws to (raw_size cs raws from) → HasBytes old new from to (raw_size cs raws from) → ChangesWithin old new to (to + raw_size cs raws from)
        → HoldsRaws cs new (added raws to (raws.raw from)) }
    ensures forwarded { (cs : List Class) (old new : View) (raws : Raws) (from to : ℕ) → HoldsRaws cs old raws → raws.has from ≡ true → to % 8 ≡ 0 → to < 2 ^ 32
        → PutsNumber old new Kind.Int (from + 4) (lock_word (Forward (record { 0 = to }))) → HoldsRaws cs new (changed raws from (forwarded_raw (raws.raw from) to)) }
    ensures evacuated { (cs : List Class) (old mid new : View) (raws : Raws) (from to : ℕ) → HoldsRaws cs old raws → raws.has from ≡ true → to % 8 ≡ 0 → IsSpace old to (raw_size cs raws from)
        → IsFreeSpace cs raws to (raw_size cs raws from) → HasBytes old mid from to (raw_size cs raws from) → ChangesWithin old mid to (to + raw_size cs raws from)
        → PutsNumber mid new Kind.Int (from + 4) (lock_word (Forward (record { 0 = to }))) → HoldsRaws cs new (evacuated raws from to) }
{}

/// Memory holds the objects as before where no byte of theirs changed: but for bytes that no object has, for a page
/// without any, for pages without any that are gone, for a run of pages that was mapped, and for nothing at all.
pub fn other_objects_are_held()
    ensures bytes { (cs : List Class) (old new : View) (raws : Raws) (at size : ℕ) → HoldsRaws cs old raws → IsFreeSpace cs raws at size → ChangesWithin old new at (at + size) → HoldsRaws cs new raws }
    ensures page { (cs : List Class) (old new : View) (raws : Raws) (p : ℕ) → HoldsRaws cs old raws → IsOffPage cs raws p → SameBeside old new p → HoldsRaws cs new raws }
    ensures pages { (cs : List Class) (old new : View) (raws : Raws) (gone : ℕ → Bool) → HoldsRaws cs old raws → ((p : ℕ) → gone p ≡ true → IsOffPage cs raws p)
        → ((at : ℕ) → gone (page_of at) ≡ false → (new.byte at ≡ old.byte at) × (new.mapped at ≡ old.mapped at)) → HoldsRaws cs new raws }
    ensures run { (cs : List Class) (old new : Memory) (t first n : ℕ) (raws : Raws) → HoldsRaws cs (view_of old t) raws → MapsRun old new t first n → HoldsRaws cs (view_of new t) raws }
    ensures all { (cs : List Class) (old new : View) (raws : Raws) → HoldsRaws cs old raws → SameView old new → HoldsRaws cs new raws }
{}

/// What memory holds, it holds also without some of the objects.
pub fn fewer_objects_are_held()
    ensures { (cs : List Class) (v : View) (raws : Raws) (test : ℕ → Bool) → HoldsRaws cs v raws → HoldsRaws cs v (among raws test) }
{}

/// Objects have the values of their places alone.
pub fn same_objects_are_held()
    ensures { (cs : List Class) (v : View) (old new : Raws) → HoldsRaws cs v old → SameRaws cs old new → HoldsRaws cs v new }
{}

/// Where the new address of its target was put into one reference, memory holds the objects with this reference turned
/// too. None is turned before the first, and two tests that agree on the references turn the same ones.
pub fn turned_references_are_held()
    ensures one { (cs : List Class) (old new : View) (raws : Raws) (done : ℕ → Bool) (at target : ℕ) → HoldsRaws cs old (turned_where raws done) → IsSlotIn cs raws at target
        → PutsNumber old new Kind.Ref at (number_of Kind.Ref (pos (goes raws target))) → HoldsRaws cs new (turned_where raws (λ b. nat_eq at b || done b)) }
    ensures none { (cs : List Class) (v : View) (raws : Raws) → HoldsRaws cs v raws → HoldsRaws cs v (turned_where raws (λ b. false)) }
    ensures agree { (cs : List Class) (v : View) (raws : Raws) (one other : ℕ → Bool) → HoldsRaws cs v (turned_where raws one)
        → ((a : ℕ) (p : FieldAt) → raws.has a ≡ true → IsIn p (places_of cs (raws.raw a).shape) → p.kind ≡ Kind.Ref → one (a + p.offset) ≡ other (a + p.offset))
        → HoldsRaws cs v (turned_where raws other) }
    ensures readable { (cs : List Class) (v : View) (raws : Raws) (done : ℕ → Bool) (at target : ℕ) → HoldsRaws cs v (turned_where raws done) → IsSlotIn cs raws at target → IsReadable v target }
{}

/// Steps one after the other change the pages that each of them may change, and no other.
pub fn kept_pages_compose()
    ensures none { (m : Memory) (t : ℕ) (may : ℕ → Bool) → Keeps m m t may }
    ensures both { (one two three : Memory) (t : ℕ) (may : ℕ → Bool) → Keeps one two t may → Keeps two three t may → Keeps one three t may }
    ensures wider { (old new : Memory) (t : ℕ) (may more : ℕ → Bool) → Keeps old new t may → ((p : ℕ) → may p ≡ true → more p ≡ true) → Keeps old new t more }
{}

/// Steps that keep the pages of a table change this table alone: each page of it has the frame that it had, or one of its own.
pub fn kept_pages_are_of_one_table()
    ensures { (old new : Memory) (t : ℕ) (may : ℕ → Bool) → Keeps old new t may → OnlyTable old new t }
{}

/// A change of some pages is a step that may change these, where the same pages are mapped and no flag of theirs is cleared.
pub fn changed_pages_are_kept()
    ensures pages { (old new : Memory) (t first n : ℕ) (may : ℕ → Bool) → ChangesPages old new t first n → IsSound new → ((q : ℕ) → is_mapped new t q ≡ is_mapped old t q)
        → ((q : ℕ) → first ≤ q → q < first + n → IsTrue (is_mapped old t q))
        → ((q : ℕ) → first ≤ q → q < first + n → IsTrue (is_written old t q) → IsTrue (is_written new t q))
        → ((q : ℕ) → first ≤ q → q < first + n → may q ≡ true) → Keeps old new t may }
    ensures reads { (old : Memory) (t n : ℕ) (may : ℕ → Bool) → Keeps old (record old { reads = n }) t may }
{}
