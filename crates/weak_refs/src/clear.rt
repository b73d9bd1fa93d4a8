//! Clears the references whose targets are not kept.
ghost use Rattle.std.specs.Prelude.{◌≡◌, ℕ, ◌+◌, ◌<◌, ◌%◌, Bool, true, List, [], ◌∷◌, length, take, IsTrue, IsOk, IfOk, OnOk, OnErr};
ghost use Rattle.page_tables.specs.Address.{page_of};
ghost use Rattle.cow_pages.specs.Memory.{is_live, is_mapped, HasOneSharer, IsShared, IsSound};
ghost use Rattle.cow_pages.specs.Change.{reads_after};
ghost use Rattle.cow_pages.specs.View.{view_of, OthersSeen};
ghost use Rattle.object_view.specs.Changes.{reads_after_all};
ghost use Rattle.weak_refs.specs.Weak.{addresses, is_dead, dead_in, is_page_of, AreSlots, ClearsSlots};

use cow_pages::{Addr, Frames, TableNo};
use std::alloc::AllocError;

/// Which objects are kept.
pub trait KeepTest {
    /// The address is that of a kept object.
    ghost keeps: { Self → ℕ → Bool };

    /// Whether the object at the address is kept.
    fn kept(&self, at: Addr) -> bool
        ensures { result ≡ keeps self.now at.0 };
}

/// Sets each of these references to null whose target isn't kept, and tells how many they were. A null is left, and not counted.
///
/// After `AllocError` those before some number in the list are set, and nothing else has changed. It comes only where
/// a page with a reference to be set shares its frame.
pub fn clear_dead<K: KeepTest>(
    frames: &mut Frames,
    t: TableNo,
    slots: &[Addr],
    kept: &K,
) -> Result<u32, AllocError>
    requires live { IsTrue (is_live frames.old t.0) }
    requires slots { AreSlots (view_of frames.old t.0) (addresses slots.now) }
    ensures cleared { OnOk result (ClearsSlots frames.old frames.new t.0 (dead_in (K.keeps kept.now) (view_of frames.old t.0) (addresses slots.now))) }
    ensures count { IfOk result (λ n. n ≡ length (dead_in (K.keeps kept.now) (view_of frames.old t.0) (addresses slots.now))) }
    ensures reads { OnOk result (frames.new.reads ≡ reads_after_all frames.old.reads (addresses slots.now)) }
    ensures partly { OnErr result ((k : ℕ) × (k < length slots.now)
        × ClearsSlots frames.old frames.new t.0 (dead_in (K.keeps kept.now) (view_of frames.old t.0) (take k (addresses slots.now)))
        × (frames.new.reads ≡ reads_after_all frames.old.reads (take (k + 1) (addresses slots.now)))) }
    ensures others_seen { OthersSeen frames.old frames.new t.0 }
    ensures succeeds { ((p : ℕ) → is_page_of (dead_in (K.keeps kept.now) (view_of frames.old t.0) (addresses slots.now)) p ≡ true → HasOneSharer frames.old t.0 p) → IsOk result }
    ensures sound { IsSound frames.old → IsSound frames.new }
    ensures sound_after_some { 0 < length slots.now → IsSound frames.new }
{
    let mut count: u32 = 0;
    for &at in slots {
        if clear_slot(frames, t, at, kept)? {
            count += 1;
        }
    }
    Ok(count)
}

// Clears one reference where it is dead, and tells whether it was.
fn clear_slot<K: KeepTest>(
    frames: &mut Frames,
    t: TableNo,
    at: Addr,
    kept: &K,
) -> Result<bool, AllocError>
    requires aligned { at.0 % 4 ≡ 0 }
    requires mapped { IsTrue (is_mapped frames.old t.0 (page_of at.0)) }
    ensures answer { IfOk result (λ dead. dead ≡ is_dead (K.keeps kept.now) (view_of frames.old t.0) at.0) }
    ensures cleared { OnOk result (ClearsSlots frames.old frames.new t.0 (dead_in (K.keeps kept.now) (view_of frames.old t.0) (at.0 ∷ []))) }
    ensures reads { frames.new.reads ≡ reads_after frames.old.reads at.0 }
    ensures was_dead { OnErr result (is_dead (K.keeps kept.now) (view_of frames.old t.0) at.0 ≡ true) }
    ensures only { OnErr result (IsShared frames.old t.0 (page_of at.0)) }
    ensures err { OnErr result (frames.new ≡ record frames.old { reads = reads_after frames.old.reads at.0 }) }
    ensures sound { IsSound frames.new }
{
    if !holds_dead(frames, t, at, kept) {
        return Ok(false);
    }
    frames.write_u32(t, at, 0)?;
    Ok(true)
}

// Whether the reference is dead.
fn holds_dead<K: KeepTest>(frames: &mut Frames, t: TableNo, at: Addr, kept: &K) -> bool
    requires aligned { at.0 % 4 ≡ 0 }
    requires mapped { IsTrue (is_mapped frames.old t.0 (page_of at.0)) }
    ensures answer { result ≡ is_dead (K.keeps kept.now) (view_of frames.old t.0) at.0 }
    ensures counts { frames.new ≡ record frames.old { reads = reads_after frames.old.reads at.0 } }
    ensures sound { IsSound frames.new }
{
    let target = Addr(frames.read_u32(t, at));
    target.0 != 0 && !kept.kept(target)
}
