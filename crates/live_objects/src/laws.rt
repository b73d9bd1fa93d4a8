//! Laws about what is reached, and about the lists of live objects.
ghost use Rattle.std.specs.Prelude.{◌≡◌, ◌⊎◌, ℕ, true, List};
ghost use Rattle.std.specs.List.{Contains};
ghost use Rattle.class_layout.specs.ClassList.{Class};
ghost use Rattle.page_tables.specs.declared.address.Addr.{Addr};
ghost use Rattle.large_objects.specs.declared.rows.LargeRow.{LargeRow};
ghost use Rattle.raw_objects.specs.Raws.{Raws};
ghost use Rattle.region_lists.specs.Rows.{Lists};
ghost use Rattle.region_space.specs.Space.{IsSpace};
ghost use Rattle.live_objects.specs.Live.{ListsYoung};
ghost use Rattle.live_objects.specs.Reach.{Holds, Reached, is_node};

/// What is reached are objects that aren't immune: the starts, and what a reached object holds. From more starts more is
/// reached.
pub fn reach_follows_references()
    ensures objects { (cs : List Class) (rows : List LargeRow) (raws : Raws) (starts : List ℕ) (b : ℕ) → Reached cs rows raws starts b → is_node rows raws b ≡ true }
    ensures starts { (cs : List Class) (rows : List LargeRow) (raws : Raws) (starts : List ℕ) (b : ℕ) → Contains starts b → is_node rows raws b ≡ true → Reached cs rows raws starts b }
    ensures held { (cs : List Class) (rows : List LargeRow) (raws : Raws) (starts : List ℕ) (a b : ℕ) → Reached cs rows raws starts a → Holds cs rows raws a b → Reached cs rows raws starts b }
    ensures only { (cs : List Class) (rows : List LargeRow) (raws : Raws) (starts : List ℕ) (b : ℕ) → Reached cs rows raws starts b
        → Contains starts b ⊎ ((a : ℕ) × Reached cs rows raws starts a × Holds cs rows raws a b) }
    ensures more { (cs : List Class) (rows : List LargeRow) (raws : Raws) (few many : List ℕ) (b : ℕ) → ((n : ℕ) → Contains few n → Contains many n) → Reached cs rows raws few b → Reached cs rows raws many b }
{}

/// There is one list of the live objects of the regions.
pub fn live_lists_are_unique()
    ensures { (s : Lists) (cs : List Class) (rows : List LargeRow) (raws : Raws) (starts : List ℕ) (one other : List Addr) → IsSpace s → ListsYoung s.in_use (Reached cs rows raws starts) one
        → ListsYoung s.in_use (Reached cs rows raws starts) other → one ≡ other }
{}
