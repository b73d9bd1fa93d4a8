//! The live objects, found by following references.
ghost use Rattle.std.specs.Prelude.{◌≡◌, ℕ, true, IfOk, OnOk, List};
ghost use Rattle.cow_pages.specs.View.{view_of};
ghost use Rattle.large_objects.specs.Rows.{AreRows};
ghost use Rattle.raw_objects.specs.Raws.{Raws};
ghost use Rattle.live_objects.specs.Live.{HasLarge, ListsYoung};
ghost use Rattle.live_objects.specs.Marks.{CanFollow, HeldBefore, Marking, Takes, marked};
ghost use Rattle.live_objects.specs.Reach.{CanMark, Holds, Reached, is_node, starts_of};
ghost use Rattle.std.specs.Prelude.{◌↔◌};

use crate::marks::Marks;
use bit_set::BitSet;
use class_layout::Classes;
use cow_pages::{Addr, Frames, TableNo};
use large_objects::Larges;
use object_view::{Slot, ref_slot};
use region_space::Regions;
use std::alloc::{AllocError, Global};

/// The objects that are reached and not immune.
#[derive(Drop)]
pub struct Live {
    /// Those of the regions: their addresses, each once, region by region in the order in which these were opened, and in
    /// each region rising.
    pub young: Vec<Addr>,
    /// The slots of the large ones. The set has room for 512 slots.
    pub large: BitSet,
}

/// Finds the objects that are reached and not immune: from the roots and the slots, by references that aren't weak, through
/// objects that aren't immune. Those are the objects of the regions, and the large ones that aren't promoted.
///
/// The objects of the regions lie in rows in use, each large object has a row, and what a root, a slot or a reference
/// holds in the regions or among the large objects is an object. Nothing is written, and no read is counted. It takes as
/// much memory as a bit for each 8 bytes of the regions in use, and an address for each live object.
pub fn find_live(
    alloc: Global,
    frames: &mut Frames,
    classes: &Classes,
    t: TableNo,
    roots: &[Addr],
    slots: &[Slot],
    regions: &Regions,
    larges: &Larges,
) -> Result<Live, AllocError>
    requires { (raws : Raws) × CanMark classes.now (view_of frames.old t.0) raws regions.now.in_use larges.now (starts_of roots.now slots.now) }
    ensures young { IfOk result (λ live. (raws : Raws) → CanMark classes.now (view_of frames.old t.0) raws regions.now.in_use larges.now (starts_of roots.now slots.now)
        → ListsYoung regions.now.in_use (Reached classes.now larges.now raws (starts_of roots.now slots.now)) live.young.items) }
    ensures large { IfOk result (λ live. (raws : Raws) → CanMark classes.now (view_of frames.old t.0) raws regions.now.in_use larges.now (starts_of roots.now slots.now)
        → HasLarge (Reached classes.now larges.now raws (starts_of roots.now slots.now)) live.large) }
    ensures same { frames.new ≡ frames.old }
{
    // these say that the regions and the rows are those of a space
    let _used = regions.used();
    let _rows = larges.rows();
    let mut marks = Marks::new(alloc, regions)?;
    marks.mark_roots(larges, roots)?;
    marks.mark_slots(larges, slots)?;
    follow(frames, classes, t, larges, &mut marks)?;
    let young = marks.list_young(alloc)?;
    let large = marks.into_large();
    Ok(Live { young, large })
}

/// Marks all that is reached from the objects that wait.
fn follow(
    frames: &mut Frames,
    classes: &Classes,
    t: TableNo,
    larges: &Larges,
    marks: &mut Marks,
) -> Result<(), AllocError>
    requires rows { AreRows larges.now }
    requires can { (raws : Raws) × (starts : List ℕ) × CanFollow classes.now (view_of frames.old t.0) raws larges.now marks.old.numbers × Marking classes.now larges.now raws starts marks.old }
    ensures marks { OnOk result ((raws : Raws) (starts : List ℕ) → CanFollow classes.now (view_of frames.old t.0) raws larges.now marks.old.numbers → Marking classes.now larges.now raws starts marks.old
        → (a : ℕ) → (marked marks.new a ≡ true) ↔ Reached classes.now larges.now raws starts a) }
    ensures numbers { OnOk result (marks.new.numbers ≡ marks.old.numbers) }
    ensures same { frames.new ≡ frames.old }
{
    while let Some(at) = marks.next() {
        scan(frames, classes, t, larges, marks, at)?;
    }
    Ok(())
}

/// Marks what an object's references hold.
fn scan(
    frames: &mut Frames,
    classes: &Classes,
    t: TableNo,
    larges: &Larges,
    marks: &mut Marks,
    at: Addr,
) -> Result<(), AllocError>
    requires rows { AreRows larges.now }
    requires can { (raws : Raws) × CanFollow classes.now (view_of frames.old t.0) raws larges.now marks.old.numbers × (is_node larges.now raws at.0 ≡ true) }
    ensures takes { OnOk result ((raws : Raws) → CanFollow classes.now (view_of frames.old t.0) raws larges.now marks.old.numbers → is_node larges.now raws at.0 ≡ true
        → Takes (Holds classes.now larges.now raws at.0) marks.old marks.new) }
    ensures same { frames.new ≡ frames.old }
{
    for k in 0..usize::MAX {
        let Some(slot) = ref_slot(frames, classes, t, at, k) else {
            return Ok(());
        };
        if !slot.weak {
            marks.consider(larges, slot.target)?;
        }
    }
    Ok(())
}
