//! Laws about what contracts see: they hold of every memory that is sound.
ghost use Rattle.std.specs.Prelude.{◌≡◌, ◌≢◌, ◌⊎◌, ◌↔◌, ℕ, List, length, Some, None, IsTrue};
ghost use Rattle.page_tables.specs.declared.address.Window.{Window};
ghost use Rattle.cow_pages.specs.Memory.{Memory, IsSound, HasOneSharer, IsFree, page_at, frame_at, is_live, is_mapped, used_frames, used_leaves};
ghost use Rattle.cow_pages.specs.Change.{ChangesPage, ChangesTable, MapsZeros, WritesPage, settled};
ghost use Rattle.cow_pages.specs.Only.{OnlyTable};
ghost use Rattle.cow_pages.specs.View.{View, view_of};
ghost use Rattle.cow_pages.specs.Laws.{IsPaged, HasNumbers, CountsPages, AreUsed, AreUsedLeaves, HasEntry, ShareLeaves};

/// Each byte of a table is below 256, and 0 where no page is. The addresses of a page are mapped together.
pub fn views_are_paged()
    ensures { (m : Memory) (t : ℕ) → IsSound m → IsPaged (view_of m t) }
{}

/// The numbers at an address fit 16, 32 and 64 bits, and are written as the bytes there.
pub fn numbers_are_bytes()
    ensures { (v : View) (at : ℕ) → IsPaged v → HasNumbers v at }
{}

/// A table's counts are those of the pages that it has in a window.
pub fn counts_are_of_pages()
    ensures { (m : Memory) (t : ℕ) (w : Window) → IsSound m → CountsPages m t w }
{}

/// A page keeps its frame to itself where another page changes that has its old frame or one that was free.
pub fn one_sharer_stays()
    ensures { (old new : Memory) (t p u q : ℕ) → ChangesPage old new u q → (u ≢ t) ⊎ (q ≢ p) → IsTrue (is_mapped old t p)
        → ((f : ℕ) → frame_at new u q ≡ Some f → (frame_at old u q ≡ Some f) ⊎ IsFree old f)
        → HasOneSharer old t p → HasOneSharer new t p }
{}

/// As many frames are used as there are different frames with an entry.
pub fn used_frames_have_entries()
    ensures { (m : Memory) (fs : List ℕ) → IsSound m → AreUsed m fs → used_frames m ≡ length fs }
{}

/// Where the same frames have entries as before, as many are used.
pub fn same_entries_use_as_much()
    ensures { (old new : Memory) → IsSound old → IsSound new → ((f : ℕ) → HasEntry old f ↔ HasEntry new f) → used_frames new ≡ used_frames old }
{}

/// As many leaves are used as there are different ones that a table has.
pub fn used_leaves_have_tables()
    ensures { (m : Memory) (ls : List ℕ) → IsSound m → AreUsedLeaves m ls → used_leaves m ≡ length ls }
{}

/// Pages of one table stand in one leaf exactly where their numbers divided by 1,024 are equal. A leaf that two tables
/// share has no written flag, and a leaf of a table has a mapped page.
pub fn leaves_are_shared()
    ensures { (m : Memory) → IsSound m → ShareLeaves m }
{}

/// What a call changes: nothing, this table alone.
pub fn nothing_is_only_a_table()
    ensures { (m : Memory) (t : ℕ) → OnlyTable m m t }
{}

/// Calls for one table after one another change that table alone.
pub fn only_a_table_twice()
    ensures { (one two three : Memory) (t : ℕ) → OnlyTable one two t → OnlyTable two three t → OnlyTable one three t }
{}

/// A page that a call changes keeps its frame, loses it or gets one that was free, so the call changes this table alone.
pub fn a_page_is_only_a_table()
    ensures { (old new : Memory) (t p : ℕ) → ChangesPage old new t p
        → ((f : ℕ) → frame_at new t p ≡ Some f → (frame_at old t p ≡ Some f) ⊎ IsFree old f) → OnlyTable old new t }
{}

/// Mapping, writing, releasing, settling, reading and reserving change one table alone.
pub fn calls_change_only_a_table()
    ensures mapping { (old new : Memory) (t p : ℕ) → ChangesPage old new t p → MapsZeros old new t p → OnlyTable old new t }
    ensures writing { (old new : Memory) (t at : ℕ) (bytes : List ℕ) → WritesPage old new t at bytes → OnlyTable old new t }
    ensures releasing { (old new : Memory) (t p : ℕ) → ChangesPage old new t p → page_at new t p ≡ None → OnlyTable old new t }
    ensures settling { (old new : Memory) (t : ℕ) → ChangesTable old new t → IsTrue (is_live old t) → IsTrue (is_live new t)
        → ((p : ℕ) → page_at new t p ≡ settled (page_at old t p)) → OnlyTable old new t }
    ensures reading { (old new : Memory) (t n : ℕ) → new ≡ record old { reads = n } → OnlyTable old new t }
    ensures reserving { (old new : Memory) (t : ℕ) → new ≡ record old { frames = new.frames; leaf_count = new.leaf_count; spare = new.spare } → OnlyTable old new t }
{}

/// An entry that had no other sharer, and kept its frame or got another, has none, whatever one table did: its own table
/// or another one. So it is where another table ends, and where one joins with the pages of another.
pub fn alone_stays_alone()
    ensures only { (old new : Memory) (t u p f : ℕ) → OnlyTable old new t → HasOneSharer old u p → frame_at new u p ≡ Some f → HasOneSharer new u p }
    ensures ended { (old new : Memory) (t u p : ℕ) → ChangesTable old new t → ((q : ℕ) → page_at new t q ≡ None) → IsTrue (is_mapped new u p)
        → HasOneSharer old u p → HasOneSharer new u p }
    ensures forked { (old new : Memory) (t v u p : ℕ) → ChangesTable old new v → ((q : ℕ) → page_at new v q ≡ page_at old t q) → u ≢ t → u ≢ v
        → IsTrue (is_mapped old u p) → HasOneSharer old u p → HasOneSharer new u p }
{}
