//! Objects of the regions, copied behind those that are in use.
ghost use Rattle.std.specs.Prelude.{◌≡◌, ℕ, ◌+◌, ◌≤◌, false, List, length};
ghost use Rattle.cow_pages.specs.Only.{OnlyTable};
ghost use Rattle.cow_pages.specs.View.{view_of};
ghost use Rattle.region_space.specs.Space.{further_pages, lists_of, Places};
ghost use Rattle.raw_objects.specs.Raws.{evacuated, raw_size, Raws};
ghost use Rattle.object_moves.specs.Copies.{moved, sizes_at, AreMoved, CanCopy, CanCopyAll, HoldsRegions, IsYoungAt, KeepsOutside, PacksAt};

use class_layout::Classes;
use cow_pages::{Addr, Frames, TableNo};
use object_view::{read_shape, size_of};
use raw_objects::evacuate;
use region_space::Regions;

/// Copies these objects of the from regions, one behind the other, into regions of which none is in use before, notes in
/// each where it went, and puts the new addresses in place of the old ones.
///
/// As many frames are free as the copies have pages, and as many regions as they fill. So no memory is taken.
pub fn copy_all(
    frames: &mut Frames,
    classes: &Classes,
    t: TableNo,
    young: &mut [Addr],
    regions: &mut Regions,
)
    requires { (raws : Raws) × CanCopyAll classes.now frames.old t.0 (lists_of regions.old) raws young.old }
    ensures held { (raws : Raws) → CanCopyAll classes.now frames.old t.0 (lists_of regions.old) raws young.old → HoldsRegions classes.now frames.new t.0 (lists_of regions.new) (moved raws young.old young.new (length young.old)) }
    ensures moves { (raws : Raws) → CanCopyAll classes.now frames.old t.0 (lists_of regions.old) raws young.old → AreMoved raws (moved raws young.old young.new (length young.old)) young.old young.new (length young.old) }
    ensures packed { (raws : Raws) → CanCopyAll classes.now frames.old t.0 (lists_of regions.old) raws young.old → PacksAt regions.new.in_use (sizes_at classes.now raws young.old) young.new }
    ensures regions { (regions.new.from ≡ regions.old.from) × (regions.new.count ≡ regions.old.count) }
    ensures objects { (regions.new.objects ≡ regions.old.objects + length young.old) × (regions.new.from_objects ≡ regions.old.from_objects) }
    ensures outside { KeepsOutside frames.old frames.new t.0 }
    ensures only { OnlyTable frames.old frames.new t.0 }
{
    for i in 0..young.len() {
        let to = copy_one(frames, classes, t, young[i], regions);
        young[i] = to;
    }
}

// Copies one object behind those in use, notes in it where it went, and tells where that is.
fn copy_one(
    frames: &mut Frames,
    classes: &Classes,
    t: TableNo,
    at: Addr,
    regions: &mut Regions,
) -> Addr
    requires { (raws : Raws) × CanCopy classes.now frames.old t.0 (lists_of regions.old) raws at.0 }
    ensures held { (raws : Raws) → CanCopy classes.now frames.old t.0 (lists_of regions.old) raws at.0 → HoldsRegions classes.now frames.new t.0 (lists_of regions.new) (evacuated raws at.0 result.0) }
    ensures fresh { (raws : Raws) → CanCopy classes.now frames.old t.0 (lists_of regions.old) raws at.0 → raws.has result.0 ≡ false }
    ensures places { (raws : Raws) → CanCopy classes.now frames.old t.0 (lists_of regions.old) raws at.0 → Places (lists_of regions.old) (lists_of regions.new) result.0 (raw_size classes.now raws at.0) }
    ensures objects { (regions.new.objects ≡ regions.old.objects + 1) × (regions.new.from_objects ≡ regions.old.from_objects) }
    ensures spare { (raws : Raws) → CanCopy classes.now frames.old t.0 (lists_of regions.old) raws at.0
        → frames.old.spare ≤ frames.new.spare + further_pages regions.old.in_use (raw_size classes.now raws at.0) }
    ensures outside { KeepsOutside frames.old frames.new t.0 }
    ensures only { OnlyTable frames.old frames.new t.0 }
{
    let size = young_size(frames, classes, t, at);
    let to = regions.place_copy(frames, t, size);
    match evacuate(frames, t, at, to, size) {
        Ok(()) => to,
        Err(_) => unreachable!(),
    }
}

/// The bytes that an object of the regions takes. No read is counted.
pub fn young_size(frames: &mut Frames, classes: &Classes, t: TableNo, at: Addr) -> u32
    requires { (raws : Raws) × IsYoungAt classes.now (view_of frames.old t.0) raws at.0 }
    ensures size { (raws : Raws) → IsYoungAt classes.now (view_of frames.old t.0) raws at.0 → result ≡ raw_size classes.now raws at.0 }
    ensures same { frames.new ≡ frames.old }
{
    let shape = read_shape(frames, t, at);
    size_of(classes, shape) as u32
}
