//! Laws about spots: the objects of a segment stand from a whole page on, at the sums of the sizes before them.
ghost use Rattle.std.specs.Prelude.{◌≡◌, ℕ, ◌-◌, ◌<◌, ◌||◌, List, [], ◌∷◌, ◌++◌, None, IsFalse, IsTrue};
ghost use Rattle.page_tables.specs.declared.address.Window.TheVariants.{Zygote};
ghost use Rattle.page_tables.specs.Address.{is_in};
ghost use Rattle.cow_pages.specs.Memory.{Memory, is_mapped, page_at};
ghost use Rattle.page_runs.specs.Covered.{covers};
ghost use Rattle.image_space.specs.Space.{holds_first};
ghost use Rattle.mark_bitmap.specs.Marks.{is_marked};
ghost use Rattle.zygote_space.specs.Space.{Space, GainsSegment, HasOpen, HasPagesUpTo, HasSegments, IsSpace, Opens, Places, end_of, to_page, zygote_spot};

/// A space without bytes has no segments. One in which a segment is opened has an open one without objects, and one in
/// which an object is placed has its size besides.
pub fn spaces_keep_segments()
    ensures empty { (s : Space) → s.fill ≡ 0 → s.segment ≡ None → ((q : ℕ) → IsFalse (is_marked s.starts q)) → HasSegments s [] }
    ensures opened { (old new : Space) (segments : List (List ℕ)) (total : ℕ) → HasSegments old segments → Opens old new total → HasOpen new segments [] total }
    ensures placed { (old new : Space) (segments : List (List ℕ)) (sizes : List ℕ) (rest at size : ℕ) → HasOpen old segments sizes rest
        → Places old new at size → HasOpen new segments (sizes ++ size ∷ []) (rest - size) }
{}

/// A segment that is closed is the last of the closed ones.
pub fn closing_ends_a_segment()
    ensures { (old new : Space) (segments : List (List ℕ)) (sizes : List ℕ) (rest : ℕ) → HasOpen old segments sizes rest
        → new ≡ record old { segment = None } → HasSegments new (segments ++ sizes ∷ []) }
{}

/// A segment that was added is the last of the closed ones.
pub fn segments_are_gained()
    ensures { (old new : Space) (segments : List (List ℕ)) (sizes : List ℕ) → HasSegments old segments → GainsSegment old new sizes → HasSegments new (segments ++ sizes ∷ []) }
{}

/// A table without pages has exactly those of a space without bytes.
pub fn new_tables_fit()
    ensures { (m : Memory) (t : ℕ) → ((p : ℕ) → page_at m t p ≡ None) → HasPagesUpTo m t 0 }
{}

/// With an object more, a page holds bytes up to the last object exactly where it did before or the object covers it, and
/// with a segment more one holds bytes of the space where it did before or the segment covers it. A table that has the
/// pages of a space has exactly those that hold bytes of it.
pub fn pages_are_of_objects()
    ensures grown { (old new : Space) (at size p : ℕ) → IsSpace old → 0 < size → Places old new at size → holds_first Zygote new.fill p ≡ (holds_first Zygote old.fill p || covers at size p) }
    ensures opened { (old new : Space) (total p : ℕ) → old.segment ≡ None → 0 < total → Opens old new total
        → holds_first Zygote (end_of new) p ≡ (holds_first Zygote (end_of old) p || covers (zygote_spot (to_page old.fill)) total p) }
    ensures mapped { (m : Memory) (t bytes p : ℕ) → HasPagesUpTo m t bytes → IsTrue (is_in Zygote p) → is_mapped m t p ≡ holds_first Zygote bytes p }
{}
