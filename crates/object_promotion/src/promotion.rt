//! A promotion of the objects that memory holds.
ghost use Rattle.std.specs.Prelude.{◌≡◌, ◌⊎◌, IfErr, IfOk, OnOk, OnErr, Err, List, sum};
ghost use Rattle.page_tables.specs.declared.address.Addr.{Addr};
ghost use Rattle.cow_pages.specs.Memory.{IsSound, Memory};
ghost use Rattle.cow_pages.specs.Only.{OnlyTable};
ghost use Rattle.image_space.specs.Space.{pages_up_to, KeepsPages};
ghost use Rattle.object_view.specs.Seen.{RoseBy};
ghost use Rattle.raw_objects.specs.Raws.{Raws};
ghost use Rattle.object_view.specs.declared.names.Slot.{Slot};
ghost use Rattle.object_moves.specs.Copies.{sizes_at};
ghost use Rattle.object_moves.specs.Turns.{reads_to_turn};
ghost use Rattle.object_collection.specs.Collects.{state_of, AreYoung};
ghost use Rattle.zygote_space.specs.Space.{to_page, IsSpace, Space};
ghost use Rattle.object_promotion.specs.Phases.{listed_in, IsOpened};
ghost use Rattle.object_promotion.specs.declared.promotion.PromoteError.{PromoteError};
ghost use Rattle.object_promotion.specs.Promotes.{bytes_at, CanPromote, IsPromoted, IsTooMuch, LeavesPages};

use crate::copies::move_to_segment;
use crate::lists::young_bytes;
use crate::plan::{Plan, plan_promotion};
use class_layout::Classes;
use cow_pages::{Addr, Frames, TableNo};
use large_objects::Larges;
use model_numbers::{PAGE_BYTES, ZYGOTE_LENGTH};
use object_collection::turn_references;
use object_view::Slot;
use region_space::Regions;
use std::alloc::{AllocError, Global};
use zygote_space::ZygoteSpace;

/// Why objects can't be promoted.
#[derive(Clone, Copy, Debug, PartialEq, Eq)]
pub enum PromoteError {
    /// The bytes of the zygote space, rounded up to a whole page, and those of the objects of the regions pass 268,435,456
    /// together. `fill` is the rounded number.
    Full { fill: u32, total: u32 },
    /// There is no memory for the lists of what moves, or for the new segment's pages or starts.
    OutOfMemory,
}

impl From<AllocError> for PromoteError {
    ghost use Rattle.object_promotion.specs.declared.promotion.PromoteError.TheVariants.{OutOfMemory};

    ghost from_gives = { λ _ e. e ≡ OutOfMemory };

    fn from(_e: AllocError) -> PromoteError {
        PromoteError::OutOfMemory
    }
}

/// Promotes all objects of a process that aren't immune, reached or not. Those of the regions move to a new segment of the
/// zygote space, one directly behind the other from the next whole page on, in the order in which they stood. The large ones
/// stay. Each reference and root leads to where its object is, no region is in use, and the number of the moved objects is
/// the answer.
///
/// The slots are the references of immune objects that lead to objects which aren't immune. No segment of the zygote space is
/// open. All memory is taken before the first write. `Full` comes exactly where the bytes that stand, rounded up to a whole
/// page, and those that move pass 268,435,456. After an error nothing has changed but that frames may have become free. For
/// each object that moves, at most four reads for each 4 bytes and 16 more are counted, and none besides.
pub fn promote_objects(
    alloc: Global,
    frames: &mut Frames,
    t: TableNo,
    classes: &Classes,
    roots: &mut [Addr],
    slots: &[Slot],
    regions: &mut Regions,
    larges: &mut Larges,
    zygote: &mut ZygoteSpace,
) -> Result<u32, PromoteError>
    requires { (raws : Raws) × CanPromote (state_of classes.now regions.old larges.old roots.old slots.now) frames.old t.0 raws zygote.old }
    ensures promoted { OnOk result ((raws : Raws) → CanPromote (state_of classes.now regions.old larges.old roots.old slots.now) frames.old t.0 raws zygote.old
        → IsPromoted (state_of classes.now regions.old larges.old roots.old slots.now) frames.new t.0 raws zygote.old regions.new larges.new roots.new zygote.new) }
    ensures pages { OnOk result ((raws : Raws) (young : List Addr) → CanPromote (state_of classes.now regions.old larges.old roots.old slots.now) frames.old t.0 raws zygote.old
        → AreYoung (state_of classes.now regions.old larges.old roots.old slots.now) raws young
        → LeavesPages (state_of classes.now regions.old larges.old roots.old slots.now) frames.old frames.new t.0 zygote.old.fill
        (bytes_at (state_of classes.now regions.old larges.old roots.old slots.now) raws young)) }
    ensures only { OnlyTable frames.old frames.new t.0 }
    ensures count { IfOk result (λ n. n ≡ regions.old.objects) }
    ensures reads { OnOk result ((raws : Raws) (young : List Addr) → CanPromote (state_of classes.now regions.old larges.old roots.old slots.now) frames.old t.0 raws zygote.old
        → AreYoung (state_of classes.now regions.old larges.old roots.old slots.now) raws young
        → RoseBy (reads_to_turn classes.now raws young) frames.old.reads frames.new.reads) }
    ensures full { (raws : Raws) (young : List Addr) → CanPromote (state_of classes.now regions.old larges.old roots.old slots.now) frames.old t.0 raws zygote.old
        → AreYoung (state_of classes.now regions.old larges.old roots.old slots.now) raws young
        → IsTooMuch zygote.old.fill (bytes_at (state_of classes.now regions.old larges.old roots.old slots.now) raws young)
        → (result ≡ Err (PromoteError.Full (to_page zygote.old.fill) (bytes_at (state_of classes.now regions.old larges.old roots.old slots.now) raws young)))
        × (frames.new ≡ frames.old) }
    ensures err { (raws : Raws) (young : List Addr) → CanPromote (state_of classes.now regions.old larges.old roots.old slots.now) frames.old t.0 raws zygote.old
        → AreYoung (state_of classes.now regions.old larges.old roots.old slots.now) raws young
        → IfErr result (λ e. IsTooMuch zygote.old.fill (bytes_at (state_of classes.now regions.old larges.old roots.old slots.now) raws young) ⊎ (e ≡ PromoteError.OutOfMemory)) }
    ensures same { OnErr result ((zygote.new ≡ zygote.old) × (regions.new ≡ regions.old) × (larges.new ≡ larges.old) × (roots.new ≡ roots.old)) }
    ensures same_pages { OnErr result ((raws : Raws) (young : List Addr) → CanPromote (state_of classes.now regions.old larges.old roots.old slots.now) frames.old t.0 raws zygote.old
        → AreYoung (state_of classes.now regions.old larges.old roots.old slots.now) raws young
        → KeepsPages frames.old frames.new (pages_up_to (bytes_at (state_of classes.now regions.old larges.old roots.old slots.now) raws young))) }
    ensures sound { IsSound frames.new }
    ensures space { IsSpace zygote.new }
{
    let total = young_bytes(frames, classes, t, regions);
    let fill = zygote.fill().div_ceil(PAGE_BYTES) * PAGE_BYTES;
    if total > ZYGOTE_LENGTH - fill {
        return Err(PromoteError::Full { fill, total });
    }
    let plan = plan_promotion(alloc, frames, t, classes, roots, slots, regions, larges)?;
    match zygote.open_segment(frames, t, total) {
        Ok(()) => Ok(carry_out(frames, t, classes, roots, regions, larges, zygote, plan)),
        Err(_) => Err(PromoteError::OutOfMemory),
    }
}

/// Carries out what was planned, once a segment was opened for the objects that move. No memory is taken.
fn carry_out(
    frames: &mut Frames,
    t: TableNo,
    classes: &Classes,
    roots: &mut [Addr],
    regions: &mut Regions,
    larges: &mut Larges,
    zygote: &mut ZygoteSpace,
    plan: Plan,
) -> u32
    requires { (slots : List Slot) × (before : Memory) × (raws : Raws) × (z : Space)
        × IsOpened (state_of classes.now regions.old larges.old roots.old slots) before frames.old t.0 raws z zygote.old (listed_in plan) }
    ensures done { (slots : List Slot) (before : Memory) (raws : Raws) (z : Space)
        → IsOpened (state_of classes.now regions.old larges.old roots.old slots) before frames.old t.0 raws z zygote.old (listed_in plan)
        → IsPromoted (state_of classes.now regions.old larges.old roots.old slots) frames.new t.0 raws z regions.new larges.new roots.new zygote.new
        × LeavesPages (state_of classes.now regions.old larges.old roots.old slots) before frames.new t.0 z.fill (sum (sizes_at classes.now raws plan.young.items))
        × RoseBy (reads_to_turn classes.now raws plan.young.items) frames.old.reads frames.new.reads × OnlyTable frames.old frames.new t.0 }
    ensures count { result ≡ regions.old.objects }
    ensures space { IsSpace zygote.new }
    ensures sound { IsSound frames.new }
{
    let Plan {
        mut young,
        large,
        turned,
    } = plan;
    let (young, large) = (young.as_mut_slice(), large.as_slice());
    let count = regions.objects();
    move_to_segment(frames, classes, t, young, zygote);
    turn_references(frames, classes, t, young, large, turned.as_slice(), roots);
    regions.flip();
    regions.drop_from(frames, t);
    larges.promote_all();
    count
}
