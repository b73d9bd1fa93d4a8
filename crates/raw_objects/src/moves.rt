//! Objects that move, and the references to them.
ghost use Rattle.std.specs.Prelude.{◌≡◌, ◌⊎◌, ◌||◌, ℕ, ◌+◌, ◌/◌, ◌%◌, ◌<◌, ◌≤◌, Bool, true, false, nat_eq, IsTrue, IsOk, OnOk, OnErr, List};
ghost use Rattle.class_layout.specs.ClassList.{Class};
ghost use Rattle.model_numbers.specs.Numbers.{region_base};
ghost use Rattle.page_tables.specs.Address.{page_of};
ghost use Rattle.cow_pages.specs.Memory.{is_mapped, HasOneSharer, IsSound};
ghost use Rattle.cow_pages.specs.View.{view_of};
ghost use Rattle.object_view.specs.Changes.{pages_in, reads_after_all, steps_from, AreAlone};
ghost use Rattle.object_view.specs.Objects.{IsSpace};
ghost use Rattle.object_view.specs.Seen.{RoseBy};
ghost use Rattle.raw_objects.specs.Keeps.{Covers, Keeps};
ghost use Rattle.raw_objects.specs.Raws.{evacuated, raw_size, HoldsRaws, IsFreeSpace, Raws};
ghost use Rattle.raw_objects.specs.References.{goes, in_regions, is_first_reference, is_reference, turned_where, IsReadable, IsSlotIn, IsTurnable};

use class_layout::{Classes, Kind};
use cow_pages::{Addr, Frames, TableNo};
use model_numbers::{PAGE_BYTES, REGION_BASE, REGION_BYTES, REGION_COUNT};
use object_view::{Header, copy_object, read_header, ref_slot, set_forward, store};
use std::alloc::AllocError;

/// Copies an object to bytes that no object has, and notes in its header where it went. After `AllocError` it is where
/// it was, and these bytes alone may have changed.
pub fn evacuate(
    frames: &mut Frames,
    t: TableNo,
    from: Addr,
    to: Addr,
    size: u32,
) -> Result<(), AllocError>
    requires from_aligned { from.0 % 8 ≡ 0 }
    requires to_aligned { to.0 % 8 ≡ 0 }
    requires size_aligned { size % 8 ≡ 0 }
    requires some { 0 < size }
    requires from_space { IsSpace (view_of frames.old t.0) from.0 size }
    requires to_space { IsSpace (view_of frames.old t.0) to.0 size }
    requires apart { (from.0 + size ≤ to.0) ⊎ (to.0 + size ≤ from.0) }
    ensures held { OnOk result ((cs : List Class) (raws : Raws) → HoldsRaws cs (view_of frames.old t.0) raws → raws.has from.0 ≡ true → raw_size cs raws from.0 ≡ size
        → IsFreeSpace cs raws to.0 size → HoldsRaws cs (view_of frames.new t.0) (evacuated raws from.0 to.0)) }
    ensures err { OnErr result ((cs : List Class) (raws : Raws) → HoldsRaws cs (view_of frames.old t.0) raws → IsFreeSpace cs raws to.0 size → HoldsRaws cs (view_of frames.new t.0) raws) }
    ensures keeps { (may : ℕ → Bool) → Covers may to.0 size → may (page_of from.0) ≡ true → Keeps frames.old frames.new t.0 may }
    ensures reads { OnOk result (frames.new.reads ≡ reads_after_all frames.old.reads (steps_from from.0 (size / 8))) }
    ensures fewer_reads { OnErr result ((n : ℕ) × (n ≤ size / 8) × (frames.new.reads ≡ reads_after_all frames.old.reads (steps_from from.0 n))) }
    ensures succeeds { AreAlone frames.old t.0 (page_of to.0) (pages_in to.0 (to.0 + size)) → HasOneSharer frames.old t.0 (page_of from.0) → IsOk result }
    ensures sound { IsSound frames.new }
{
    copy_object(frames, t, from, to, size)?;
    set_forward(frames, t, from, to)
}

/// Where a reference's target is now. No read is counted.
pub fn goes_to(frames: &mut Frames, t: TableNo, target: Addr) -> Addr
    requires { IsReadable (view_of frames.old t.0) target.0 }
    ensures goes { (cs : List Class) (raws : Raws) → HoldsRaws cs (view_of frames.old t.0) raws → (in_regions target.0 ≡ true → raws.has target.0 ≡ true) → result.0 ≡ goes raws target.0 }
    ensures same { frames.new ≡ frames.old }
{
    if !in_regions(target) {
        return target;
    }
    match read_header(frames, t, target) {
        Header::Number(_) => Addr(0),
        Header::Forward(to) => to,
    }
}

/// Whether the address lies in the window of regions.
pub fn in_regions(at: Addr) -> bool
    ensures { result ≡ in_regions at.0 }
{
    let first = REGION_BASE / PAGE_BYTES;
    let count = REGION_COUNT * REGION_BYTES / PAGE_BYTES;
    (first..first + count).contains(&at.page().0)
}

/// Turns one reference, which holds `target`, to where its target is now.
pub fn turn_slot(frames: &mut Frames, t: TableNo, at: Addr, target: Addr) -> Result<(), AllocError>
    requires aligned { at.0 % 4 ≡ 0 }
    requires mapped { IsTrue (is_mapped frames.old t.0 (page_of at.0)) }
    requires readable { IsReadable (view_of frames.old t.0) target.0 }
    ensures held { OnOk result ((cs : List Class) (raws : Raws) (done : ℕ → Bool) → HoldsRaws cs (view_of frames.old t.0) (turned_where raws done) → IsSlotIn cs raws at.0 target.0
        → HoldsRaws cs (view_of frames.new t.0) (turned_where raws (λ b. nat_eq at.0 b || done b))) }
    ensures err { OnErr result (frames.new ≡ frames.old) }
    ensures keeps { (may : ℕ → Bool) → may (page_of at.0) ≡ true → Keeps frames.old frames.new t.0 may }
    ensures reads { frames.new.reads ≡ frames.old.reads }
    ensures succeeds { HasOneSharer frames.old t.0 (page_of at.0) → IsOk result }
    ensures sound { IsSound frames.old → IsSound frames.new }
{
    let to = goes_to(frames, t, target);
    if to != target {
        store(frames, t, at, Kind::Ref, 0, i64::from(to.0))?;
    }
    Ok(())
}

/// Turns all references of an object, none of which is turned yet. Where it stands in the regions or in the large window,
/// no read is counted, and else at most 4 for each 4 bytes of it, and 16 more. After `AllocError` some first ones are turned.
pub fn turn_object(
    frames: &mut Frames,
    classes: &Classes,
    t: TableNo,
    at: Addr,
) -> Result<(), AllocError>
    requires { (raws : Raws) × (done : ℕ → Bool) × IsTurnable classes.now (view_of frames.old t.0) raws done at.0 }
    ensures held { OnOk result ((raws : Raws) (done : ℕ → Bool) → IsTurnable classes.now (view_of frames.old t.0) raws done at.0
        → HoldsRaws classes.now (view_of frames.new t.0) (turned_where raws (λ b. is_reference classes.now (raws.raw at.0).shape at.0 b || done b))) }
    ensures err { OnErr result ((raws : Raws) (done : ℕ → Bool) → IsTurnable classes.now (view_of frames.old t.0) raws done at.0
        → (k : ℕ) × HoldsRaws classes.now (view_of frames.new t.0) (turned_where raws (λ b. is_first_reference classes.now (raws.raw at.0).shape at.0 k b || done b))) }
    ensures keeps { (raws : Raws) (done may : ℕ → Bool) → IsTurnable classes.now (view_of frames.old t.0) raws done at.0 → Covers may at.0 (raw_size classes.now raws at.0)
        → Keeps frames.old frames.new t.0 may }
    ensures reads { region_base ≤ at.0 → frames.new.reads ≡ frames.old.reads }
    ensures bounded { IsSound frames.old → (raws : Raws) (done : ℕ → Bool) → IsTurnable classes.now (view_of frames.old t.0) raws done at.0
        → RoseBy (raw_size classes.now raws at.0 + 16) frames.old.reads frames.new.reads }
    ensures succeeds { (raws : Raws) (done : ℕ → Bool) → IsTurnable classes.now (view_of frames.old t.0) raws done at.0
        → AreAlone frames.old t.0 (page_of at.0) (pages_in at.0 (at.0 + raw_size classes.now raws at.0)) → IsOk result }
    ensures sound { IsSound frames.old → IsSound frames.new }
{
    for k in 0..usize::MAX {
        let Some(slot) = ref_slot(frames, classes, t, at, k) else {
            return Ok(());
        };
        turn_slot(frames, t, slot.at, slot.target)?;
    }
    Ok(())
}
