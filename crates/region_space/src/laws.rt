//! Laws about packing: what the rows of regions say is the rule of the definitions.
ghost use Rattle.std.specs.Prelude.{◌≡◌, ℕ, ◌+◌, ◌<◌, All, List, [], ◌∷◌, ◌++◌, Some, None};
ghost use Rattle.model_numbers.specs.Numbers.{region_bytes};
ghost use Rattle.page_tables.specs.declared.address.Window.TheVariants.{Regions};
ghost use Rattle.cow_pages.specs.Memory.{IsSound, Memory, mapped_in};
ghost use Rattle.heap_graph.specs.Packing.{after, end_from, place};
ghost use Rattle.heap_graph.specs.Sizes.{parts_for};
ghost use Rattle.region_lists.specs.Rows.{Lists, Row, first_of};
ghost use Rattle.region_space.specs.Packed.{Pack, address_in, end_of_rows};
ghost use Rattle.region_space.specs.Pages.{IsObjectIn, next_in, page_sum, start_of};
ghost use Rattle.region_space.specs.Space.{HasPages, IsFilled, IsSize, IsSpace, filled, spot_in, with_object, would_open};

/// No rows hold no objects. With an object more the rows hold its size besides, by the rule of packing: it stands at its
/// packing place, and a region is opened exactly where the number of used regions grows.
pub fn regions_pack_by_the_rule()
    ensures empty { Pack [] [] }
    ensures more { (rows : List Row) (sizes : List ℕ) (region size : ℕ) → Pack rows sizes → IsSize size → Pack (with_object rows region size) (sizes ++ size ∷ []) }
    ensures spot { (rows : List Row) (sizes : List ℕ) (region size : ℕ) → Pack rows sizes → IsSize size
        → spot_in rows region size ≡ address_in (with_object rows region size) (place (end_from 0 sizes) size) }
    ensures opens { (rows : List Row) (sizes : List ℕ) (size : ℕ) → Pack rows sizes → IsSize size
        → parts_for region_bytes (after (end_from 0 sizes) size) ≡ parts_for region_bytes (end_from 0 sizes) + would_open rows size }
{}

/// An object more moves none that stands: a packing place below the end keeps its address.
pub fn objects_stay_where_they_are()
    ensures { (rows : List Row) (region size p : ℕ) → All IsFilled rows → p < end_of_rows rows → address_in (with_object rows region size) p ≡ address_in rows p }
{}

/// Each object lies in a row. The walk from object to object passes through all objects of the rows, in the order in which
/// they were placed.
pub fn walks_pass_all_objects()
    ensures lies { (s : Lists) (before more : List ℕ) (size : ℕ) → IsSpace s → All IsSize (before ++ size ∷ more) → Pack s.in_use (before ++ size ∷ more)
        → IsObjectIn s.in_use (address_in s.in_use (place (end_from 0 before) size)) size }
    ensures first { (rows : List Row) (size : ℕ) (more : List ℕ) → IsSize size → Pack rows (size ∷ more) → start_of (first_of rows) ≡ Some (address_in rows 0) }
    ensures next { (s : Lists) (before more : List ℕ) (size follower : ℕ) → IsSpace s → All IsSize (before ++ size ∷ follower ∷ more) → Pack s.in_use (before ++ size ∷ follower ∷ more)
        → next_in s.in_use (address_in s.in_use (place (end_from 0 before) size)) size ≡ Some (address_in s.in_use (place (end_from 0 (before ++ size ∷ [])) follower)) }
    ensures last { (s : Lists) (before : List ℕ) (size : ℕ) → IsSpace s → All IsSize (before ++ size ∷ []) → Pack s.in_use (before ++ size ∷ [])
        → next_in s.in_use (address_in s.in_use (place (end_from 0 before) size)) size ≡ None }
{}

/// As many pages of the region window are mapped as hold bytes of objects.
pub fn mapped_pages_are_counted()
    ensures { (m : Memory) (t : ℕ) (s : Lists) → IsSound m → IsSpace s → HasPages m t (filled s) → mapped_in m t Regions ≡ page_sum (filled s) }
{}
