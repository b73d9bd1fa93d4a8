//! Laws about spots: the objects of a space stand at the sums of the sizes before them.
ghost use Rattle.std.specs.Prelude.{◌≡◌, ℕ, ◌+◌, ◌≤◌, List, [], ◌∷◌, ◌++◌, sum, None, IsFalse, IsTrue, ◌||◌};
ghost use Rattle.model_numbers.specs.Numbers.{image_base};
ghost use Rattle.page_tables.specs.declared.address.Window.TheVariants.{Image};
ghost use Rattle.page_tables.specs.Address.{is_in};
ghost use Rattle.cow_pages.specs.Memory.{Memory, is_mapped, page_at};
ghost use Rattle.mark_bitmap.specs.Marks.{is_marked};
ghost use Rattle.image_space.specs.Space.{Space, HasPagesUpTo, HasSizes, IsSize, Places, holds_first, image_spot, spots_from};
ghost use Rattle.page_runs.specs.Covered.{covers};

/// The spot of an object is the window's first address plus the sum of the sizes before it.
pub fn spots_are_sums()
    ensures { (before more : List ℕ) (size : ℕ) → spots_from image_base (before ++ size ∷ more)
        ≡ spots_from image_base before ++ image_spot (sum before) ∷ spots_from (image_spot (sum before + size)) more }
{}

/// An object ends at or before the spot of each later one.
pub fn spots_stay_apart()
    ensures { (before between : List ℕ) (size : ℕ) → image_spot (sum before) + size ≤ image_spot (sum (before ++ size ∷ between)) }
{}

/// A space without bytes has no sizes, and one in which an object is placed has its size besides.
pub fn spaces_keep_sizes()
    ensures empty { (s : Space) → s.fill ≡ 0 → ((q : ℕ) → IsFalse (is_marked s.starts q)) → HasSizes s [] }
    ensures more { (old new : Space) (sizes : List ℕ) (at size : ℕ) → HasSizes old sizes → Places old new at size → HasSizes new (sizes ++ size ∷ []) }
{}

/// A table without pages has exactly those of a space without bytes.
pub fn new_tables_fit()
    ensures { (m : Memory) (t : ℕ) → ((p : ℕ) → page_at m t p ≡ None) → HasPagesUpTo m t 0 }
{}

/// With an object more, a page holds bytes of the space exactly where it did before or the object covers it. A table that
/// has the pages of a space has exactly those that hold bytes of it.
pub fn pages_are_of_objects()
    ensures grown { (old new : Space) (at size p : ℕ) → IsSize size → Places old new at size → holds_first Image new.fill p ≡ (holds_first Image old.fill p || covers at size p) }
    ensures mapped { (m : Memory) (t fill p : ℕ) → HasPagesUpTo m t fill → IsTrue (is_in Image p) → is_mapped m t p ≡ holds_first Image fill p }
{}
