//! Objects of the regions, copied to their spots in a new segment of the zygote space.
ghost use Rattle.std.specs.Prelude.{◌≡◌, ◌+◌, ℕ, Bool, false, true, List, length, sum};
ghost use Rattle.cow_pages.specs.View.{view_of};
ghost use Rattle.page_tables.specs.Address.{is_in, page_of};
ghost use Rattle.page_tables.specs.declared.address.Window.TheVariants.{Regions};
ghost use Rattle.raw_objects.specs.Keeps.{Covers, Keeps};
ghost use Rattle.raw_objects.specs.Raws.{evacuated, raw_size, Raws};
ghost use Rattle.region_lists.specs.Rows.{Lists};
ghost use Rattle.live_objects.specs.Live.{addresses};
ghost use Rattle.object_moves.specs.Copies.{moved, sizes_at, AreMoved, HoldsRegions};
ghost use Rattle.zygote_space.specs.Space.{IsSpace, GainsSegment, Places};
ghost use Rattle.object_promotion.specs.Promotes.{in_segment, spots_for};
ghost use Rattle.object_promotion.specs.Phases.{CanPlace, CanPlaceAll};

use class_layout::Classes;
use cow_pages::{Addr, Frames, TableNo};
use object_moves::young_size;
use raw_objects::evacuate;
use zygote_space::ZygoteSpace;

/// Copies these objects of the regions to the open segment, one directly behind the other, notes in each where it went, puts
/// the new addresses in place of the old ones, and closes the segment, which has exactly their bytes. No memory is taken,
/// and no read is counted.
pub fn move_to_segment(
    frames: &mut Frames,
    classes: &Classes,
    t: TableNo,
    young: &mut [Addr],
    zygote: &mut ZygoteSpace,
)
    requires { (raws : Raws) × (s : Lists) × CanPlaceAll classes.now frames.old t.0 s raws zygote.old young.old }
    ensures held { (raws : Raws) (s : Lists) → CanPlaceAll classes.now frames.old t.0 s raws zygote.old young.old
        → HoldsRegions classes.now frames.new t.0 s (moved raws young.old young.new (length young.old)) }
    ensures moves { (raws : Raws) (s : Lists) → CanPlaceAll classes.now frames.old t.0 s raws zygote.old young.old
        → AreMoved raws (moved raws young.old young.new (length young.old)) young.old young.new (length young.old) }
    ensures spots { (raws : Raws) (s : Lists) → CanPlaceAll classes.now frames.old t.0 s raws zygote.old young.old
        → addresses young.new ≡ spots_for zygote.old.fill (sizes_at classes.now raws young.old) }
    ensures gains { (raws : Raws) (s : Lists) → CanPlaceAll classes.now frames.old t.0 s raws zygote.old young.old
        → GainsSegment zygote.old zygote.new (sizes_at classes.now raws young.old) }
    ensures keeps { (raws : Raws) (s : Lists) (may : ℕ → Bool) → CanPlaceAll classes.now frames.old t.0 s raws zygote.old young.old → ((p : ℕ) → is_in Regions p ≡ true → may p ≡ true)
        → ((p : ℕ) → in_segment zygote.old.fill (sum (sizes_at classes.now raws young.old)) p ≡ true → may p ≡ true) → Keeps frames.old frames.new t.0 may }
    ensures reads { frames.new.reads ≡ frames.old.reads }
    ensures space { IsSpace zygote.new }
{
    for i in 0..young.len() {
        let to = copy_to_spot(frames, classes, t, young[i], zygote);
        young[i] = to;
    }
    zygote.close_segment();
}

/// Copies one object to the next spot, notes in it where it went, and tells where that is.
fn copy_to_spot(
    frames: &mut Frames,
    classes: &Classes,
    t: TableNo,
    at: Addr,
    zygote: &mut ZygoteSpace,
) -> Addr
    requires { (raws : Raws) × (s : Lists) × CanPlace classes.now frames.old t.0 s raws zygote.old at.0 }
    ensures held { (raws : Raws) (s : Lists) → CanPlace classes.now frames.old t.0 s raws zygote.old at.0 → HoldsRegions classes.now frames.new t.0 s (evacuated raws at.0 result.0) }
    ensures fresh { (raws : Raws) (s : Lists) → CanPlace classes.now frames.old t.0 s raws zygote.old at.0 → raws.has result.0 ≡ false }
    ensures places { (raws : Raws) (s : Lists) → CanPlace classes.now frames.old t.0 s raws zygote.old at.0 → Places zygote.old zygote.new result.0 (raw_size classes.now raws at.0) }
    ensures keeps { (raws : Raws) (s : Lists) (may : ℕ → Bool) → CanPlace classes.now frames.old t.0 s raws zygote.old at.0 → Covers may result.0 (raw_size classes.now raws at.0)
        → may (page_of at.0) ≡ true → Keeps frames.old frames.new t.0 may }
    ensures reads { frames.new.reads ≡ frames.old.reads }
    ensures space { IsSpace zygote.new }
{
    let size = young_size(frames, classes, t, at);
    let to = zygote.place(size);
    match evacuate(frames, t, at, to, size) {
        Ok(()) => to,
        Err(_) => unreachable!(),
    }
}
