//! Laws about the rows and the pages of large objects.
ghost use Rattle.std.specs.Prelude.{◌≡◌, ◌+◌, ◌≤◌, ◌&&◌, ℕ, IsTrue, List, [], None, Some, count_by, length, map, option_map};
ghost use Rattle.std.specs.List.{Contains, filter, list_any};
ghost use Rattle.class_layout.specs.Kinds.{next_multiple};
ghost use Rattle.page_tables.specs.declared.address.Window.TheVariants.{Large};
ghost use Rattle.cow_pages.specs.Laws.{pages_in};
ghost use Rattle.cow_pages.specs.Memory.{Memory, page_at, is_written, mapped_in, written_in, IsSound};
ghost use Rattle.large_objects.specs.declared.rows.LargeRow.{LargeRow};
ghost use Rattle.page_runs.specs.Covered.{covers};
ghost use Rattle.large_objects.specs.Pages.{HasPages, holds_page, page_sum};
ghost use Rattle.large_objects.specs.Rows.{AreRows, IsBytes, costs_of, marked_at, promoted_row, row_at, slot_base, waits};

/// The row of an object is found at the address where its slot begins. Marked or promoted, it is found there too.
pub fn rows_are_found()
    ensures found { (rows : List LargeRow) (row : LargeRow) → AreRows rows → Contains rows row → row_at rows (slot_base row.slot) ≡ Some row }
    ensures marked { (rows : List LargeRow) (a b : ℕ) → row_at (map (marked_at a) rows) b ≡ option_map (marked_at a) (row_at rows b) }
    ensures promoted { (rows : List LargeRow) (at : ℕ) → row_at (map promoted_row rows) at ≡ option_map promoted_row (row_at rows at) }
{}

/// Each object costs a region or more. So a slot is free where all cost fewer regions than there are slots.
pub fn rows_cost_at_least_one()
    ensures { (rows : List LargeRow) → AreRows rows → length rows ≤ costs_of rows }
{}

/// A page holds bytes of an object exactly where the object's bytes, rounded up to a multiple of 8, have one in it.
pub fn pages_are_of_rows()
    ensures covered { (row : LargeRow) (p : ℕ) → IsBytes row.bytes → holds_page p row ≡ covers (slot_base row.slot) (next_multiple 8 row.bytes) p }
{}

/// A table without pages has exactly those of no object.
pub fn new_tables_fit()
    ensures { (m : Memory) (t : ℕ) → ((p : ℕ) → page_at m t p ≡ None) → HasPages m t [] }
{}

/// Objects that are marked or promoted keep their pages.
pub fn marks_keep_pages()
    ensures marked { (m : Memory) (t at : ℕ) (rows : List LargeRow) → HasPages m t rows → HasPages m t (map (marked_at at) rows) }
    ensures promoted { (m : Memory) (t : ℕ) (rows : List LargeRow) → HasPages m t rows → HasPages m t (map promoted_row rows) }
{}

/// A table that has exactly the pages of objects has as many pages of the large window as their bytes fill.
pub fn pages_are_counted()
    ensures { (m : Memory) (t : ℕ) (rows : List LargeRow) → IsSound m → AreRows rows → HasPages m t rows → mapped_in m t Large ≡ page_sum rows }
{}

/// Where every page of an object that isn't promoted was written, the pages of the large window that were written are
/// these, and those of promoted objects that were.
pub fn written_pages_are_counted()
    ensures { (m : Memory) (t : ℕ) (rows : List LargeRow) → IsSound m → AreRows rows → HasPages m t rows
        → ((p : ℕ) → IsTrue (list_any (holds_page p) (filter waits rows)) → IsTrue (is_written m t p))
        → written_in m t Large ≡ page_sum (filter waits rows) + count_by (λ p. is_written m t p && list_any (holds_page p) (filter (λ row. row.promoted) rows)) (pages_in Large) }
{}
