//! A collection of the objects that memory holds.
ghost use Rattle.std.specs.Prelude.{◌≡◌, ℕ, ◌+◌, ◌*◌, IfOk, OnOk, OnErr, length, filter, List};
ghost use Rattle.cow_pages.specs.Memory.{IsSound};
ghost use Rattle.cow_pages.specs.Only.{OnlyTable};
ghost use Rattle.object_view.specs.Seen.{RoseBy};
ghost use Rattle.raw_objects.specs.Raws.{Raws};
ghost use Rattle.large_objects.specs.Rows.{waits};
ghost use Rattle.object_view.specs.declared.names.Slot.{Slot};
ghost use Rattle.object_collection.specs.Phases.{listed_in, IsPlan};
ghost use Rattle.object_collection.specs.Collects.{state_of, CanCollect, IsCollected, LeavesPages};

use crate::phases::{clear_weak, drop_dead, move_young, turn_references, waiting};
use crate::plan::{Plan, plan_collection};
use class_layout::Classes;
use cow_pages::{Addr, Frames, TableNo};
use large_objects::Larges;
use object_view::Slot;
use region_space::Regions;
use std::alloc::{AllocError, Global};

/// How many objects that aren't immune a collection kept, and how many it freed.
#[derive(Clone, Copy, Debug)]
pub struct Kept {
    pub kept: u32,
    pub freed: u32,
}

/// Collects the objects of a process. Those that aren't immune stay where they are reached: from the roots, from the given
/// slots of immune objects, which are all that lead to objects that aren't immune, and by references that aren't weak. The
/// reached objects of the regions move into fresh regions, packed in the order in which they stood, and each reference and
/// root leads to where its object is. A weak reference to an object that isn't kept becomes null.
///
/// All memory is taken before the first write. After `AllocError` nothing has changed. It makes at most four reads for each
/// slot that are counted.
pub fn collect_objects(
    alloc: Global,
    frames: &mut Frames,
    t: TableNo,
    classes: &Classes,
    roots: &mut [Addr],
    slots: &[Slot],
    regions: &mut Regions,
    larges: &mut Larges,
) -> Result<Kept, AllocError>
    requires { (raws : Raws) × CanCollect (state_of classes.now regions.old larges.old roots.old slots.now) frames.old t.0 raws }
    ensures collected { OnOk result ((raws : Raws) → CanCollect (state_of classes.now regions.old larges.old roots.old slots.now) frames.old t.0 raws
        → IsCollected (state_of classes.now regions.old larges.old roots.old slots.now) frames.new t.0 raws regions.new larges.new roots.new) }
    ensures pages { OnOk result ((raws : Raws) → CanCollect (state_of classes.now regions.old larges.old roots.old slots.now) frames.old t.0 raws
        → LeavesPages (state_of classes.now regions.old larges.old roots.old slots.now) frames.old frames.new t.0) }
    ensures only { OnlyTable frames.old frames.new t.0 }
    ensures kept { IfOk result (λ it. it.kept ≡ regions.new.objects + length (filter waits larges.new)) }
    ensures freed { IfOk result (λ it. it.kept + it.freed ≡ regions.old.objects + length (filter waits larges.old)) }
    ensures reads { OnOk result (RoseBy (4 * length slots.now) frames.old.reads frames.new.reads) }
    ensures err { OnErr result ((frames.new ≡ frames.old) × (roots.new ≡ roots.old) × (regions.new ≡ regions.old) × (larges.new ≡ larges.old)) }
    ensures sound { IsSound frames.new }
{
    let plan = plan_collection(alloc, frames, t, classes, roots, slots, regions, larges)?;
    Ok(carry_out(frames, t, classes, roots, regions, larges, plan))
}

/// Carries out what was planned. No memory is taken.
fn carry_out(
    frames: &mut Frames,
    t: TableNo,
    classes: &Classes,
    roots: &mut [Addr],
    regions: &mut Regions,
    larges: &mut Larges,
    plan: Plan,
) -> Kept
    requires sound { IsSound frames.old }
    requires plan { (slots : List Slot) × (raws : Raws) × CanCollect (state_of classes.now regions.old larges.old roots.old slots) frames.old t.0 raws
        × IsPlan (state_of classes.now regions.old larges.old roots.old slots) frames.old raws (listed_in plan) }
    ensures collected { (slots : List Slot) (raws : Raws) → CanCollect (state_of classes.now regions.old larges.old roots.old slots) frames.old t.0 raws
        → IsPlan (state_of classes.now regions.old larges.old roots.old slots) frames.old raws (listed_in plan)
        → IsCollected (state_of classes.now regions.old larges.old roots.old slots) frames.new t.0 raws regions.new larges.new roots.new }
    ensures pages { (slots : List Slot) (raws : Raws) → CanCollect (state_of classes.now regions.old larges.old roots.old slots) frames.old t.0 raws
        → IsPlan (state_of classes.now regions.old larges.old roots.old slots) frames.old raws (listed_in plan)
        → LeavesPages (state_of classes.now regions.old larges.old roots.old slots) frames.old frames.new t.0 }
    ensures reads { (slots : List Slot) (raws : Raws) → CanCollect (state_of classes.now regions.old larges.old roots.old slots) frames.old t.0 raws
        → IsPlan (state_of classes.now regions.old larges.old roots.old slots) frames.old raws (listed_in plan) → RoseBy (4 * length slots) frames.old.reads frames.new.reads }
    ensures only { OnlyTable frames.old frames.new t.0 }
    ensures kept { result.kept ≡ regions.new.objects + length (filter waits larges.new) }
    ensures freed { result.kept + result.freed ≡ regions.old.objects + length (filter waits larges.old) }
    ensures sound { IsSound frames.new }
{
    let Plan {
        mut young,
        large,
        stays,
        weak,
        turned,
    } = plan;
    let (young, large) = (young.as_mut_slice(), large.as_slice());
    let before = regions.objects() + waiting(larges);
    clear_weak(frames, t, stays, weak.as_slice());
    move_young(frames, classes, t, young, regions);
    turn_references(frames, classes, t, young, large, turned.as_slice(), roots);
    drop_dead(frames, t, regions, larges, large);
    let kept = regions.objects() + waiting(larges);
    Kept {
        kept,
        freed: before - kept,
    }
}
