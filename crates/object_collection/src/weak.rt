//! The weak references that a collection may have to clear.
ghost use Rattle.std.specs.Prelude.{◌≡◌, ℕ, ◌+◌, ◌<◌, ◌≤◌, ◌^◌, true, nat_eq, length, map, IfOk, OnOk};
ghost use Rattle.std.specs.List.{IsDistinct};
ghost use Rattle.model_numbers.specs.Numbers.{region_base};
ghost use Rattle.cow_pages.specs.View.{view_of};
ghost use Rattle.heap_graph.specs.Sizes.{size_in};
ghost use Rattle.raw_objects.specs.Raws.{HoldsRaws, Raws};
ghost use Rattle.live_objects.specs.Live.{addresses};
ghost use Rattle.object_collection.specs.Collects.{HeapState};
ghost use Rattle.object_collection.specs.Listed.{AreWeak, IsWeakSlot, KnowsLive};
ghost use Rattle.object_collection.specs.Weaks.{Adds, AreReadable, IsWeakAmong, IsWeakIn};

use crate::lists::slot_addresses;
use class_layout::Classes;
use cow_pages::{Addr, Frames, TableNo};
use live_objects::Live;
use object_view::{Shape, Slot, read_shape};
use std::alloc::{AllocError, Global};

/// Lists the weak references of the live objects, and the weak ones of the slots.
pub fn weak_slots(
    alloc: Global,
    frames: &mut Frames,
    classes: &Classes,
    t: TableNo,
    live: &Live,
    slots: &[Slot],
) -> Result<Vec<Addr>, AllocError>
    requires { (h : HeapState) × (raws : Raws) × KnowsLive h frames.old t.0 raws live.now.young.items live.now.large × (h.classes ≡ classes.now) × (h.slots ≡ slots.now) }
    ensures weak { IfOk result (λ weak. (h : HeapState) (raws : Raws) → KnowsLive h frames.old t.0 raws live.now.young.items live.now.large → h.classes ≡ classes.now → h.slots ≡ slots.now
        → AreWeak h raws (addresses weak.items)) }
    ensures same { frames.new ≡ frames.old }
{
    let large = slot_addresses(alloc, &live.large)?;
    let mut weak = Vec::new(alloc);
    push_weak(frames, classes, t, &live.young, &mut weak)?;
    push_weak(frames, classes, t, &large, &mut weak)?;
    push_weak_slots(slots, &mut weak)?;
    Ok(weak)
}

/// Pushes the weak references of the objects at these addresses.
fn push_weak(
    frames: &mut Frames,
    classes: &Classes,
    t: TableNo,
    ats: &[Addr],
    weak: &mut Vec<Addr>,
) -> Result<(), AllocError>
    requires { (raws : Raws) × AreReadable classes.now (view_of frames.old t.0) raws ats.now }
    ensures weak { OnOk result ((raws : Raws) → AreReadable classes.now (view_of frames.old t.0) raws ats.now
        → Adds (IsWeakAmong classes.now raws ats.now (length ats.now)) (addresses weak.old.items) (addresses weak.new.items)) }
    ensures same { frames.new ≡ frames.old }
{
    for at in ats {
        push_weak_of(frames, classes, t, *at, weak)?;
    }
    Ok(())
}

/// Pushes the weak references of an object. The elements of an array aren't weak.
fn push_weak_of(
    frames: &mut Frames,
    classes: &Classes,
    t: TableNo,
    at: Addr,
    weak: &mut Vec<Addr>,
) -> Result<(), AllocError>
    requires { (raws : Raws) × HoldsRaws classes.now (view_of frames.old t.0) raws × (raws.has at.0 ≡ true) × (region_base ≤ at.0) }
    ensures weak { OnOk result ((raws : Raws) → HoldsRaws classes.now (view_of frames.old t.0) raws → raws.has at.0 ≡ true
        → Adds (IsWeakIn classes.now (raws.raw at.0).shape at.0) (addresses weak.old.items) (addresses weak.new.items)) }
    ensures same { frames.new ≡ frames.old }
{
    match read_shape(frames, t, at) {
        Shape::Instance(class) => push_weak_fields(classes, class, at, weak),
        Shape::Array { .. } => Ok(()),
    }
}

/// Pushes the weak references among the fields of an object of a class.
fn push_weak_fields(
    classes: &Classes,
    class: u32,
    at: Addr,
    weak: &mut Vec<Addr>,
) -> Result<(), AllocError>
    requires known { class < length classes.now }
    requires fits { at.0 + size_in classes.now (Shape.Instance class) ≤ 2 ^ 32 }
    ensures { OnOk result (Adds (IsWeakIn classes.now (Shape.Instance class) at.0) (addresses weak.old.items) (addresses weak.new.items)) }
{
    for k in 0..usize::MAX {
        let Some((offset, is_weak)) = classes.ref_offset(class, k) else {
            return Ok(());
        };
        if is_weak {
            weak.push(Addr(at.0 + offset))?;
        }
    }
    Ok(())
}

/// Pushes the addresses of the slots that are weak.
fn push_weak_slots(slots: &[Slot], weak: &mut Vec<Addr>) -> Result<(), AllocError>
    requires { IsDistinct nat_eq (map (λ (slot : Slot). slot.at.0) slots.now) }
    ensures { OnOk result (Adds (IsWeakSlot slots.now) (addresses weak.old.items) (addresses weak.new.items)) }
{
    for slot in slots {
        if slot.weak {
            weak.push(slot.at)?;
        }
    }
    Ok(())
}
