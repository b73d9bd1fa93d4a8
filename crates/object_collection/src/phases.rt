//! The steps of a collection that write. None of them takes memory.
ghost use Rattle.std.specs.Prelude.{◌≡◌, ℕ, ◌||◌, ◌<◌, ◌≤◌, Bool, true, false, IsTrue, All, [], filter, is_some, length, map};
ghost use Rattle.std.specs.List.{list_any, Contains};
ghost use Rattle.model_numbers.specs.Numbers.{large_slot_count, region_base};
ghost use Rattle.bit_set.specs.Bits.{room};
ghost use Rattle.cow_pages.specs.Memory.{is_live, HasOneSharer, IsSound};
ghost use Rattle.cow_pages.specs.Only.{OnlyTable};
ghost use Rattle.cow_pages.specs.View.{view_of};
ghost use Rattle.page_tables.specs.Address.{page_of};
ghost use Rattle.object_view.specs.Changes.{reads_after_all};
ghost use Rattle.object_view.specs.Seen.{RoseBy};
ghost use Rattle.raw_objects.specs.Keeps.{Keeps};
ghost use Rattle.raw_objects.specs.Raws.{HoldsRaws, Raws};
ghost use Rattle.raw_objects.specs.References.{turned_where};
ghost use Rattle.weak_refs.specs.Weak.{dead_in, is_page_of, AreSlots, ClearsSlots};
ghost use Rattle.region_space.specs.Space.{filled, lists_of, IsSpace};
ghost use Rattle.region_space.specs.Space.{AreAlone as AreRegionsAlone, HasPages as HasRegionPages, holds_page as region_page};
ghost use Rattle.large_objects.specs.declared.rows.LargeRow.{LargeRow};
ghost use Rattle.large_objects.specs.Pages.{AreAlone, HasPages, holds_page};
ghost use Rattle.large_objects.specs.Rows.{row_at, waits, AreRows};
ghost use Rattle.live_objects.specs.Live.{addresses};
ghost use Rattle.live_objects.specs.Reach.{in_large};
ghost use Rattle.object_moves.specs.Copies.{at_of, KeepsOutside};
ghost use Rattle.object_moves.specs.Turns.{gone_to, reads_to_turn, slot_of, ObjectsWithin};
ghost use Rattle.object_collection.specs.Phases.{goes_by, is_turned, marked_by, stays_by, stays_in, CanMove, CanTurn, HaveMoved, LosesPages};

use bit_set::BitSet;
use class_layout::Classes;
use cow_pages::{Addr, Frames, TableNo};
use large_objects::Larges;
use model_numbers::{LARGE_BASE, LARGE_SLOT_BYTES, LARGE_SLOT_COUNT, PAGE_BYTES};
use object_moves::{copy_all, turn_all, turn_roots, turn_slots};
use object_view::Slot;
use region_space::Regions;
use weak_refs::{KeepTest, clear_dead};

/// The slots of the large objects that stay.
#[derive(Drop)]
struct Staying {
    slots: BitSet,
    ghost all: { room slots ≡ large_slot_count },
}

impl KeepTest for Staying {
    ghost use Rattle.object_collection.specs.Phases.{stays_in};

    ghost keeps = { λ it at. stays_in it.slots at };

    fn kept(&self, at: Addr) -> bool {
        !in_large(at)
            || self
                .slots
                .contains(((at.0 - LARGE_BASE) / LARGE_SLOT_BYTES) as usize)
    }
}

/// Whether an address lies in the window of large objects.
fn in_large(at: Addr) -> bool
    ensures { result ≡ in_large at.0 }
{
    let first = LARGE_BASE / PAGE_BYTES;
    let count = LARGE_SLOT_COUNT * LARGE_SLOT_BYTES / PAGE_BYTES;
    (first..first + count).contains(&at.page().0)
}

/// Clears those of the references that lead to a large object which goes. Their pages have their frames alone.
pub fn clear_weak(frames: &mut Frames, t: TableNo, stays: BitSet, weak: &[Addr])
    requires room { room stays ≡ large_slot_count }
    requires live { IsTrue (is_live frames.old t.0) }
    requires slots { AreSlots (view_of frames.old t.0) (addresses weak.now) }
    requires alone { (p : ℕ) → is_page_of (addresses weak.now) p ≡ true → HasOneSharer frames.old t.0 p }
    ensures cleared { ClearsSlots frames.old frames.new t.0 (dead_in (stays_in stays) (view_of frames.old t.0) (addresses weak.now)) }
    ensures reads { frames.new.reads ≡ reads_after_all frames.old.reads (addresses weak.now) }
    ensures sound { IsSound frames.old → IsSound frames.new }
{
    let staying = Staying { slots: stays };
    match clear_dead(frames, t, weak, &staying) {
        Ok(_) => {}
        Err(_) => unreachable!(),
    }
}

/// Moves these objects of the regions into fresh regions, one behind the other, and puts their new addresses in place of the
/// old ones. The regions that were in use are the from regions then.
pub fn move_young(
    frames: &mut Frames,
    classes: &Classes,
    t: TableNo,
    young: &mut [Addr],
    regions: &mut Regions,
)
    requires { (raws : Raws) × CanMove classes.now frames.old t.0 regions.old raws young.old }
    ensures moved { (raws : Raws) → CanMove classes.now frames.old t.0 regions.old raws young.old → HaveMoved classes.now frames.new t.0 regions.new raws young.old young.new }
    ensures regions { (regions.new.count ≡ regions.old.count) × (regions.new.from ≡ regions.old.in_use) × (regions.new.objects ≡ length young.old) }
    ensures outside { KeepsOutside frames.old frames.new t.0 }
    ensures only { OnlyTable frames.old frames.new t.0 }
{
    regions.flip();
    copy_all(frames, classes, t, young, regions);
}

/// Turns all references of these objects, these slots and the roots to where their targets went. Objects, small and large
/// ones, may stand in any window, on pages that have their frames alone. No memory is taken. Where they all stand in the
/// regions or above, no read is counted; where only the large ones do, at most 4 for each 4 bytes of another object, and 16
/// more of each.
pub fn turn_references(
    frames: &mut Frames,
    classes: &Classes,
    t: TableNo,
    young: &[Addr],
    large: &[Addr],
    slots: &[Slot],
    roots: &mut [Addr],
)
    requires { (raws : Raws) × CanTurn classes.now frames.old t.0 raws (record { young = young.now; large = large.now; slots = slots.now }) roots.old }
    ensures held { (raws : Raws) → CanTurn classes.now frames.old t.0 raws (record { young = young.now; large = large.now; slots = slots.now }) roots.old
        → HoldsRaws classes.now (view_of frames.new t.0) (turned_where raws (is_turned classes.now raws (record { young = young.now; large = large.now; slots = slots.now }))) }
    ensures roots { (raws : Raws) → CanTurn classes.now frames.old t.0 raws (record { young = young.now; large = large.now; slots = slots.now }) roots.old
        → roots.new ≡ map (gone_to raws) roots.old }
    ensures keeps { (raws : Raws) (may : ℕ → Bool) → CanTurn classes.now frames.old t.0 raws (record { young = young.now; large = large.now; slots = slots.now }) roots.old
        → ObjectsWithin classes.now may raws young.now → ObjectsWithin classes.now may raws large.now → ((i : ℕ) → i < length slots.now → may (page_of (slot_of slots.now i).at.0) ≡ true)
        → Keeps frames.old frames.new t.0 may }
    ensures reads { ((i : ℕ) → i < length young.now → region_base ≤ at_of young.now i) → ((i : ℕ) → i < length large.now → region_base ≤ at_of large.now i)
        → frames.new.reads ≡ frames.old.reads }
    ensures bounded { IsSound frames.old → ((i : ℕ) → i < length large.now → region_base ≤ at_of large.now i)
        → (raws : Raws) → CanTurn classes.now frames.old t.0 raws (record { young = young.now; large = large.now; slots = slots.now }) roots.old
        → RoseBy (reads_to_turn classes.now raws young.now) frames.old.reads frames.new.reads }
    ensures sound { IsSound frames.old → IsSound frames.new }
{
    turn_all(frames, classes, t, young);
    turn_all(frames, classes, t, large);
    turn_slots(frames, t, slots);
    turn_roots(frames, t, roots);
}

/// Releases the from regions, and removes the large objects that are neither promoted nor among these.
pub fn drop_dead(
    frames: &mut Frames,
    t: TableNo,
    regions: &mut Regions,
    larges: &mut Larges,
    large: &[Addr],
)
    requires live { IsTrue (is_live frames.old t.0) }
    requires space { IsSpace (lists_of regions.old) }
    requires are_rows { AreRows larges.old }
    requires region_pages { HasRegionPages frames.old t.0 (filled (lists_of regions.old)) }
    requires region_alone { AreRegionsAlone frames.old t.0 regions.old.from }
    requires pages { HasPages frames.old t.0 larges.old }
    requires alone { AreAlone frames.old t.0 (filter waits larges.old) }
    requires unmarked { All (λ (row : LargeRow). row.marked ≡ false) larges.old }
    requires rows { (a : ℕ) → Contains (addresses large.now) a → IsTrue (is_some (row_at larges.old a)) }
    ensures rows { larges.new ≡ filter (stays_by large.now) larges.old }
    ensures no_from { (regions.new.from ≡ []) × (regions.new.from_objects ≡ 0) }
    ensures rest { (regions.new.in_use ≡ regions.old.in_use) × (regions.new.count ≡ regions.old.count) × (regions.new.objects ≡ regions.old.objects) }
    ensures loses { LosesPages frames.old frames.new t.0 (λ p. list_any (region_page p) regions.old.from || list_any (holds_page p) (filter (goes_by large.now) larges.old)) }
    ensures only { OnlyTable frames.old frames.new t.0 }
    ensures region_pages { HasRegionPages frames.new t.0 (filled (lists_of regions.new)) }
    ensures pages { HasPages frames.new t.0 larges.new }
    ensures space { IsSpace (lists_of regions.new) }
    ensures sound { IsSound frames.old → IsSound frames.new }
{
    regions.drop_from(frames, t);
    mark_all(larges, large);
    larges.sweep(frames, t);
}

/// Marks the large objects at these addresses.
fn mark_all(larges: &mut Larges, large: &[Addr])
    requires { (a : ℕ) → Contains (addresses large.now) a → IsTrue (is_some (row_at larges.old a)) }
    ensures { larges.new ≡ map (marked_by large.now) larges.old }
{
    for at in large {
        larges.mark(*at);
    }
}

/// How many large objects aren't promoted.
pub fn waiting(larges: &Larges) -> u32
    ensures value { result ≡ length (filter waits larges.now) }
    ensures few { result ≤ large_slot_count }
{
    let mut count = 0;
    for row in larges.rows() {
        if !row.promoted {
            count += 1;
        }
    }
    count
}
