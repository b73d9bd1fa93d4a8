//! What a collection lists and takes before it writes.
ghost use Rattle.std.specs.Prelude.{◌≡◌, ◌⊎◌, ◌↔◌, IfOk, OnOk, OnErr, length, true};
ghost use Rattle.std.specs.List.{Contains};
ghost use Rattle.model_numbers.specs.Numbers.{large_slot_count};
ghost use Rattle.bit_set.specs.Bits.{is_member, room};
ghost use Rattle.cow_pages.specs.Memory.{IsSound};
ghost use Rattle.large_objects.specs.declared.rows.LargeRow.{LargeRow};
ghost use Rattle.raw_objects.specs.Raws.{Raws};
ghost use Rattle.object_collection.specs.Collects.{state_of, CanCollect};
ghost use Rattle.object_collection.specs.Phases.{listed_in, IsPlan};

use crate::lists::{pages_for, slot_addresses, young_slots};
use crate::weak::weak_slots;
use bit_set::BitSet;
use class_layout::Classes;
use cow_pages::{Addr, Frames, TableNo};
use large_objects::Larges;
use live_objects::{Live, find_live};
use object_view::Slot;
use region_space::Regions;
use std::alloc::{AllocError, Global};

/// What a collection has listed: the reached objects of the regions and the large ones, the slots of the large objects that
/// stay, the weak references that may have to be cleared, and the slots that lead into the regions.
#[derive(Drop)]
pub struct Plan {
    pub young: Vec<Addr>,
    pub large: Vec<Addr>,
    pub stays: BitSet,
    pub weak: Vec<Addr>,
    pub turned: Vec<Slot>,
}

/// Lists the objects and the references, and takes as many frames as the copies need. Nothing is written.
pub fn plan_collection(
    alloc: Global,
    frames: &mut Frames,
    t: TableNo,
    classes: &Classes,
    roots: &[Addr],
    slots: &[Slot],
    regions: &Regions,
    larges: &Larges,
) -> Result<Plan, AllocError>
    requires { (raws : Raws) × CanCollect (state_of classes.now regions.now larges.now roots.now slots.now) frames.old t.0 raws }
    ensures plan { IfOk result (λ plan. (raws : Raws) → CanCollect (state_of classes.now regions.now larges.now roots.now slots.now) frames.old t.0 raws
        → IsPlan (state_of classes.now regions.now larges.now roots.now slots.now) frames.new raws (listed_in plan)) }
    ensures rest { frames.new ≡ record frames.old { frames = frames.new.frames; leaf_count = frames.new.leaf_count; spare = frames.new.spare } }
    ensures err { OnErr result (frames.new ≡ frames.old) }
    ensures sound { OnOk result (IsSound frames.new) }
{
    let live = find_live(alloc, frames, classes, t, roots, slots, regions, larges)?;
    let weak = weak_slots(alloc, frames, classes, t, &live, slots)?;
    let turned = young_slots(alloc, slots)?;
    let large = slot_addresses(alloc, &live.large)?;
    let pages = pages_for(frames, classes, t, live.young.as_slice());
    frames.reserve(pages as usize)?;
    let Live {
        young,
        large: mut stays,
    } = live;
    add_promoted(larges, &mut stays);
    Ok(Plan {
        young,
        large,
        stays,
        weak,
        turned,
    })
}

/// Adds the slots of the promoted objects to the set.
fn add_promoted(larges: &Larges, slots: &mut BitSet)
    requires { room slots.old ≡ large_slot_count }
    ensures slots { (row : LargeRow) → Contains larges.now row → (is_member slots.new row.slot ≡ true) ↔ ((row.promoted ≡ true) ⊎ (is_member slots.old row.slot ≡ true)) }
    ensures room { room slots.new ≡ room slots.old }
{
    for row in larges.rows() {
        if row.promoted {
            slots.insert(row.slot as usize);
        }
    }
}
