//! A promotion of the graph that a process holds in its pages.
ghost use Rattle.std.specs.Prelude.{◌≡◌, ◌⊎◌, [], Err, IfErr, IfOk, OnErr, OnOk, List, false, length, map};
ghost use Rattle.cow_pages.specs.Memory.{IsSound};
ghost use Rattle.cow_pages.specs.Only.{OnlyTable};
ghost use Rattle.heap_graph.specs.Fork.{has_zygote_room, promoted, promotion_bytes, promotion_start};
ghost use Rattle.heap_graph.specs.Graph.{zygote_fill, Graph};
ghost use Rattle.heap_graph.specs.Packing.{young_objects};
ghost use Rattle.heap_world.specs.Acts.{promotion_allowance};
ghost use Rattle.image_space.specs.Space.{pages_up_to, KeepsPages};
ghost use Rattle.large_objects.specs.Rows.{promoted_row};
ghost use Rattle.object_view.specs.declared.names.Slot.{Slot};
ghost use Rattle.object_view.specs.Seen.{RoseBy};
ghost use Rattle.object_collection.specs.Collects.{state_of};
ghost use Rattle.object_promotion.specs.declared.promotion.PromoteError.{PromoteError};
ghost use Rattle.object_promotion.specs.Promotes.{LeavesPages};
ghost use Rattle.zygote_space.specs.Space.{IsSpace};
ghost use Rattle.evacuate.specs.Stands.{HoldsHeap, KeepsGraph};
ghost use Rattle.zygote_compact.specs.Spots.{HasSpots};

use class_layout::Classes;
use cow_pages::{Addr, Frames, TableNo};
use large_objects::Larges;
use object_promotion::{PromoteError, promote_objects};
use object_view::Slot;
use region_space::Regions;
use std::alloc::Global;
use zygote_space::ZygoteSpace;

/// Promotes the sealed graph that a process holds in its pages. `slots` are the references of immune objects that lead to
/// objects which aren't immune, each once, on pages that have their frames alone. The zygote space has no open segment, ends
/// where the graph's objects of the zygote window end, and has their spots as its starts.
///
/// Afterwards the pages hold the promoted graph: each young object stands at its spot of a new segment, the large ones are
/// promoted, and no slot leads out. It tells how many objects moved. All memory is taken before the first write. `Full` comes
/// exactly where the zygote window has no room for them. After an error the graph is held as before, and `Full` leaves even
/// what is free. It makes at most four reads for each 4 bytes of an object that moves, and 16 more, that are counted.
pub fn promote(
    alloc: Global,
    frames: &mut Frames,
    t: TableNo,
    classes: &Classes,
    roots: &mut [Addr],
    slots: &[Slot],
    regions: &mut Regions,
    larges: &mut Larges,
    zygote: &mut ZygoteSpace,
) -> Result<u32, PromoteError>
    requires { (g : Graph) × KeepsGraph (state_of classes.now regions.old larges.old roots.old slots.now) frames.old t.0 g × HasSpots zygote.old g }
    ensures held { OnOk result ((g : Graph) (further : List Slot) → KeepsGraph (state_of classes.now regions.old larges.old roots.old slots.now) frames.old t.0 g → HasSpots zygote.old g
        → HoldsHeap (state_of classes.now regions.new larges.new roots.new further) frames.new t.0 (promoted g)) }
    ensures kept { OnOk result ((g : Graph) → KeepsGraph (state_of classes.now regions.old larges.old roots.old slots.now) frames.old t.0 g → HasSpots zygote.old g → KeepsGraph (state_of classes.now regions.new larges.new roots.new []) frames.new t.0 (promoted g)) }
    ensures spots { OnOk result ((g : Graph) → KeepsGraph (state_of classes.now regions.old larges.old roots.old slots.now) frames.old t.0 g → HasSpots zygote.old g → HasSpots zygote.new (promoted g)) }
    ensures rows { OnOk result (larges.new ≡ map promoted_row larges.old) }
    ensures count { IfOk result (λ n. (g : Graph) → KeepsGraph (state_of classes.now regions.old larges.old roots.old slots.now) frames.old t.0 g → HasSpots zygote.old g → n ≡ length (young_objects g)) }
    ensures pages { OnOk result ((g : Graph) → KeepsGraph (state_of classes.now regions.old larges.old roots.old slots.now) frames.old t.0 g → HasSpots zygote.old g
        → LeavesPages (state_of classes.now regions.old larges.old roots.old slots.now) frames.old frames.new t.0 (zygote_fill g) (promotion_bytes g)) }
    ensures reads { OnOk result ((g : Graph) → KeepsGraph (state_of classes.now regions.old larges.old roots.old slots.now) frames.old t.0 g → HasSpots zygote.old g → RoseBy (promotion_allowance g) frames.old.reads frames.new.reads) }
    ensures only { OnlyTable frames.old frames.new t.0 }
    ensures full { (g : Graph) → KeepsGraph (state_of classes.now regions.old larges.old roots.old slots.now) frames.old t.0 g → HasSpots zygote.old g → has_zygote_room g ≡ false
        → (result ≡ Err (PromoteError.Full (promotion_start g) (promotion_bytes g))) × (frames.new ≡ frames.old) }
    ensures err { (g : Graph) → KeepsGraph (state_of classes.now regions.old larges.old roots.old slots.now) frames.old t.0 g → HasSpots zygote.old g → IfErr result (λ e. (has_zygote_room g ≡ false) ⊎ (e ≡ PromoteError.OutOfMemory)) }
    ensures same { OnErr result ((zygote.new ≡ zygote.old) × (regions.new ≡ regions.old) × (larges.new ≡ larges.old) × (roots.new ≡ roots.old)) }
    ensures same_pages { OnErr result ((g : Graph) → KeepsGraph (state_of classes.now regions.old larges.old roots.old slots.now) frames.old t.0 g → HasSpots zygote.old g → KeepsPages frames.old frames.new (pages_up_to (promotion_bytes g))) }
    ensures sound { IsSound frames.new }
    ensures space { IsSpace zygote.new }
{
    promote_objects(
        alloc, frames, t, classes, roots, slots, regions, larges, zygote,
    )
}
