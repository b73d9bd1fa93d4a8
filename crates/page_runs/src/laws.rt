//! Laws about runs of pages.
ghost use Rattle.std.specs.Prelude.{◌≡◌, ℕ, ◌+◌, ◌≤◌};
ghost use Rattle.page_tables.specs.declared.address.Window.{Window};
ghost use Rattle.page_tables.specs.Address.{first_page, page_count};
ghost use Rattle.cow_pages.specs.Memory.{Memory, IsSound, mapped_in};
ghost use Rattle.cow_pages.specs.Only.{OnlyTable};
ghost use Rattle.page_runs.specs.Runs.{HasRun, MapsRun, ReleasesRun};

/// A window of which a table has exactly a run has as many pages as the run.
pub fn runs_are_counted()
    ensures { (m : Memory) (t : ℕ) (w : Window) (first n : ℕ) → IsSound m → HasRun m t w first n
        → first_page w ≤ first → first + n ≤ first_page w + page_count w → mapped_in m t w ≡ n }
{}

/// A run that is mapped directly behind another makes one run with it.
pub fn runs_join()
    ensures { (one two three : Memory) (t first n k : ℕ) → MapsRun one two t first n → MapsRun two three t (first + n) k
        → MapsRun one three t first (n + k) }
{}

/// Where a table has exactly a run of a window's pages, and a run directly behind it is mapped, it has exactly both.
pub fn runs_grow()
    ensures { (old new : Memory) (t : ℕ) (w : Window) (first n k : ℕ) → HasRun old t w first n → MapsRun old new t (first + n) k → HasRun new t w first (n + k) }
{}

/// Mapping a run, and releasing one, changes one table alone.
pub fn runs_are_of_one_table()
    ensures mapped { (old new : Memory) (t first n : ℕ) → MapsRun old new t first n → OnlyTable old new t }
    ensures released { (old new : Memory) (t first n : ℕ) → ReleasesRun old new t first n → OnlyTable old new t }
{}
