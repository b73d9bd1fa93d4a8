//! A collection of the graph that a process holds in its pages.
ghost use Rattle.std.specs.Prelude.{◌≡◌, ℕ, ◌+◌, ◌*◌, IfOk, OnOk, OnErr, List, filter, length};
ghost use Rattle.std.specs.List.{Contains};
ghost use Rattle.cow_pages.specs.Memory.{IsSound};
ghost use Rattle.cow_pages.specs.Only.{OnlyTable};
ghost use Rattle.heap_graph.specs.Collection.{collect, freed_count, loose_count};
ghost use Rattle.heap_graph.specs.Graph.{Graph};
ghost use Rattle.large_objects.specs.declared.rows.LargeRow.{LargeRow};
ghost use Rattle.object_view.specs.declared.names.Slot.{Slot};
ghost use Rattle.object_view.specs.Seen.{RoseBy};
ghost use Rattle.object_collection.specs.Collects.{state_of, LeadsOut, LeavesPages};
ghost use Rattle.evacuate.specs.Stands.{homes_in, raws_of, HasSlotsOut, HoldsHeap, KeepsGraph, StoodBefore};

use class_layout::Classes;
use cow_pages::{Addr, Frames, TableNo};
use large_objects::Larges;
use object_collection::{Kept, collect_objects};
use object_view::Slot;
use region_space::Regions;
use std::alloc::{AllocError, Global};

/// Collects the sealed graph that a process holds in its pages. `slots` are the references of immune objects that lead to
/// objects which aren't immune, each once; their pages, those of the regions, and those of large objects that no fork
/// promoted have their frames alone.
///
/// Afterwards the pages hold the collected graph, the regions its young objects, packed by rising number, and the roots the
/// addresses of their objects. A slot that leads out then was one of the given ones, and a row that is there then was there
/// before, in its slot. It tells how many objects that aren't immune it kept, and how many it freed. All memory is taken before
/// the first write, so after `AllocError` nothing has changed. It makes at most four reads for each slot that are counted.
pub fn collect(
    alloc: Global,
    frames: &mut Frames,
    t: TableNo,
    classes: &Classes,
    roots: &mut [Addr],
    slots: &[Slot],
    regions: &mut Regions,
    larges: &mut Larges,
) -> Result<Kept, AllocError>
    requires { (g : Graph) × KeepsGraph (state_of classes.now regions.old larges.old roots.old slots.now) frames.old t.0 g }
    ensures held { OnOk result ((g : Graph) (further : List Slot) → KeepsGraph (state_of classes.now regions.old larges.old roots.old slots.now) frames.old t.0 g
        → HoldsHeap (state_of classes.now regions.new larges.new roots.new further) frames.new t.0 (collect g)) }
    ensures slots { OnOk result ((g : Graph) (further : List Slot) → KeepsGraph (state_of classes.now regions.old larges.old roots.old slots.now) frames.old t.0 g
        → (slot : Slot) → LeadsOut (state_of classes.now regions.new larges.new roots.new further) (raws_of (homes_in regions.new.in_use larges.new) (collect g)) slot → StoodBefore slots.now frames.new t.0 slot) }
    ensures kept { OnOk result ((g : Graph) (further : List Slot) → KeepsGraph (state_of classes.now regions.old larges.old roots.old slots.now) frames.old t.0 g
        → HasSlotsOut (state_of classes.now regions.new larges.new roots.new further) (raws_of (homes_in regions.new.in_use larges.new) (collect g))
        → KeepsGraph (state_of classes.now regions.new larges.new roots.new further) frames.new t.0 (collect g)) }
    ensures rows { OnOk result ((row : LargeRow) → Contains larges.new row → Contains larges.old row) }
    ensures counts { IfOk result (λ it. (g : Graph) → KeepsGraph (state_of classes.now regions.old larges.old roots.old slots.now) frames.old t.0 g
        → (it.kept ≡ loose_count (collect g)) × (it.freed ≡ freed_count g (collect g))) }
    ensures pages { OnOk result (LeavesPages (state_of classes.now regions.old larges.old roots.old slots.now) frames.old frames.new t.0) }
    ensures only { OnlyTable frames.old frames.new t.0 }
    ensures reads { OnOk result (RoseBy (4 * length slots.now) frames.old.reads frames.new.reads) }
    ensures err { OnErr result ((frames.new ≡ frames.old) × (roots.new ≡ roots.old) × (regions.new ≡ regions.old) × (larges.new ≡ larges.old)) }
    ensures sound { IsSound frames.new }
{
    collect_objects(alloc, frames, t, classes, roots, slots, regions, larges)
}
