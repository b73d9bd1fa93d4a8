//! References of several objects, and roots, turned to where their targets went.
ghost use Rattle.std.specs.Prelude.{◌≡◌, ◌||◌, ◌<◌, ◌≤◌, ℕ, Bool, true, List, length, map};
ghost use Rattle.model_numbers.specs.Numbers.{region_base};
ghost use Rattle.class_layout.specs.ClassList.{Class};
ghost use Rattle.page_tables.specs.Address.{page_of};
ghost use Rattle.cow_pages.specs.Memory.{IsSound};
ghost use Rattle.cow_pages.specs.View.{view_of};
ghost use Rattle.object_view.specs.Seen.{RoseBy};
ghost use Rattle.raw_objects.specs.Keeps.{Keeps};
ghost use Rattle.raw_objects.specs.Raws.{HoldsRaws, Raws};
ghost use Rattle.raw_objects.specs.References.{turned_where};
ghost use Rattle.object_moves.specs.Copies.{at_of};
ghost use Rattle.object_moves.specs.Turns.{gone_to, is_reference_of, is_slot_of, reads_to_turn, slot_of, AreSlotsIn, AreTargets, AreTurnable, ObjectsAlone, ObjectsWithin};

use class_layout::Classes;
use cow_pages::{Addr, Frames, TableNo};
use object_view::Slot;
use raw_objects::{goes_to, turn_object, turn_slot};

/// Turns all references of these objects, whose pages have their frames alone. No memory is taken. Where the objects stand
/// in the regions or in the large window, no read is counted, and else at most 4 for each 4 bytes of an object, and 16 more.
pub fn turn_all(frames: &mut Frames, classes: &Classes, t: TableNo, ats: &[Addr])
    requires { (raws : Raws) × (done : ℕ → Bool) × HoldsRaws classes.now (view_of frames.old t.0) (turned_where raws done) × AreTurnable classes.now raws done ats.now
        × ObjectsAlone classes.now frames.old t.0 raws ats.now }
    ensures held { (raws : Raws) (done : ℕ → Bool) → HoldsRaws classes.now (view_of frames.old t.0) (turned_where raws done) → AreTurnable classes.now raws done ats.now
        → HoldsRaws classes.now (view_of frames.new t.0) (turned_where raws (λ b. is_reference_of classes.now raws ats.now b || done b)) }
    ensures keeps { (raws : Raws) (done may : ℕ → Bool) → HoldsRaws classes.now (view_of frames.old t.0) (turned_where raws done) → AreTurnable classes.now raws done ats.now
        → ObjectsWithin classes.now may raws ats.now → Keeps frames.old frames.new t.0 may }
    ensures reads { ((i : ℕ) → i < length ats.now → region_base ≤ at_of ats.now i) → frames.new.reads ≡ frames.old.reads }
    ensures bounded { IsSound frames.old → (raws : Raws) (done : ℕ → Bool) → HoldsRaws classes.now (view_of frames.old t.0) (turned_where raws done) → AreTurnable classes.now raws done ats.now
        → RoseBy (reads_to_turn classes.now raws ats.now) frames.old.reads frames.new.reads }
    ensures sound { IsSound frames.old → IsSound frames.new }
{
    for at in ats {
        match turn_object(frames, classes, t, *at) {
            Ok(()) => {}
            Err(_) => unreachable!(),
        }
    }
}

/// Turns these references, whose pages have their frames alone. No memory is taken, and no read is counted.
pub fn turn_slots(frames: &mut Frames, t: TableNo, slots: &[Slot])
    requires { (cs : List Class) × (raws : Raws) × (done : ℕ → Bool) × HoldsRaws cs (view_of frames.old t.0) (turned_where raws done) × AreSlotsIn cs frames.old t.0 raws slots.now }
    ensures held { (cs : List Class) (raws : Raws) (done : ℕ → Bool) → HoldsRaws cs (view_of frames.old t.0) (turned_where raws done) → AreSlotsIn cs frames.old t.0 raws slots.now
        → HoldsRaws cs (view_of frames.new t.0) (turned_where raws (λ b. is_slot_of slots.now b || done b)) }
    ensures keeps { (may : ℕ → Bool) → ((i : ℕ) → i < length slots.now → may (page_of (slot_of slots.now i).at.0) ≡ true) → Keeps frames.old frames.new t.0 may }
    ensures reads { frames.new.reads ≡ frames.old.reads }
    ensures sound { IsSound frames.old → IsSound frames.new }
{
    for slot in slots {
        match turn_slot(frames, t, slot.at, slot.target) {
            Ok(()) => {}
            Err(_) => unreachable!(),
        }
    }
}

/// Puts in place of each address that of where its object is now. No read is counted.
pub fn turn_roots(frames: &mut Frames, t: TableNo, roots: &mut [Addr])
    requires { (cs : List Class) × (raws : Raws) × HoldsRaws cs (view_of frames.old t.0) raws × AreTargets raws roots.old }
    ensures goes { (cs : List Class) (raws : Raws) → HoldsRaws cs (view_of frames.old t.0) raws → AreTargets raws roots.old
        → roots.new ≡ map (gone_to raws) roots.old }
    ensures same { frames.new ≡ frames.old }
{
    for i in 0..roots.len() {
        roots[i] = goes_to(frames, t, roots[i]);
    }
}
