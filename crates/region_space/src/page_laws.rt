//! Laws about the places and the pages of objects: which rows and pages hold them, and how many pages they need.
ghost use Rattle.std.specs.Prelude.{◌≡◌, ℕ, ◌+◌, ◌<◌, ◌≤◌, ◌⊎◌, ◌||◌, All, List, ◌++◌, IsTrue};
ghost use Rattle.std.specs.List.{list_any};
ghost use Rattle.model_numbers.specs.Numbers.{region_bytes};
ghost use Rattle.page_tables.specs.Address.{page_of};
ghost use Rattle.cow_pages.specs.Memory.{Memory, is_mapped};
ghost use Rattle.heap_graph.specs.Packing.{end_from};
ghost use Rattle.heap_graph.specs.Sizes.{parts_for};
ghost use Rattle.region_lists.specs.Rows.{Lists, Row};
ghost use Rattle.region_space.specs.Packed.{Pack, packed_pages};
ghost use Rattle.page_runs.specs.Covered.{covers};
ghost use Rattle.region_space.specs.Pages.{IsObjectIn, page_sum};
ghost use Rattle.region_space.specs.Space.{HasPages, IsSize, IsSpace, Places, filled, further_pages, holds_page, with_object};

/// An object that was placed lies in a row in use, beside each object that stood in a row before, in use or from. Each byte
/// of an object in a row lies in a mapped page.
pub fn objects_lie_in_rows()
    ensures placed { (old new : Lists) (at size : ℕ) → IsSpace old → IsSize size → Places old new at size → IsObjectIn new.in_use at size }
    ensures beside { (old new : Lists) (at size a n : ℕ) → IsSpace old → IsSize size → Places old new at size → IsObjectIn (filled old) a n → (a + n ≤ at) ⊎ (at + size ≤ a) }
    ensures mapped { (m : Memory) (t : ℕ) (s : Lists) (a n i : ℕ) → IsSpace s → HasPages m t (filled s) → IsObjectIn (filled s) a n → i < n → IsTrue (is_mapped m t (page_of (a + i))) }
{}

/// With an object more, a page holds bytes of objects exactly where it did before or the object covers it.
pub fn pages_are_of_objects()
    ensures grown { (old new : Lists) (at size p : ℕ) → IsSpace old → IsSize size → Places old new at size
        → list_any (holds_page p) (filled new) ≡ (list_any (holds_page p) (filled old) || covers at size p) }
{}

/// Packed objects have as many pages as a fold over their sizes says, and each object adds those that `place` maps for it.
/// The first objects of a list use no more regions than all of it, and no more pages.
///
/// This is said of the first ones alone: a collection drops objects between others, and those that are kept may need more
/// pages than were mapped for all. So the pages of the copies have to be counted over the sizes that are kept.
pub fn packings_have_pages()
    ensures rows { (rows : List Row) (sizes : List ℕ) → Pack rows sizes → page_sum rows ≡ packed_pages sizes }
    ensures step { (rows : List Row) (region size : ℕ) → page_sum (with_object rows region size) ≡ page_sum rows + further_pages rows size }
    ensures before { (before more : List ℕ) → All IsSize before → packed_pages before ≤ packed_pages (before ++ more) }
    ensures used { (before more : List ℕ) → parts_for region_bytes (end_from 0 before) ≤ parts_for region_bytes (end_from 0 (before ++ more)) }
{}
