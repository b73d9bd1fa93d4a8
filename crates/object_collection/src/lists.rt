//! What a collection lists and counts before it writes.
ghost use Rattle.std.specs.Prelude.{◌≡◌, ℕ, ◌<◌, ◌≤◌, IfOk, filter, length};
ghost use Rattle.cow_pages.specs.View.{view_of};
ghost use Rattle.heap_graph.specs.Packing.{end_from};
ghost use Rattle.heap_graph.specs.Sizes.{parts_for};
ghost use Rattle.image_space.specs.Space.{pages_up_to};
ghost use Rattle.model_numbers.specs.Numbers.{large_slot_count, region_bytes, region_count};
ghost use Rattle.bit_set.specs.Bits.{room};
ghost use Rattle.raw_objects.specs.Raws.{Raws};
ghost use Rattle.region_space.specs.Packed.{packed_pages};
ghost use Rattle.object_moves.specs.Copies.{at_of, sizes_at, IsYoungAt};
ghost use Rattle.object_collection.specs.Listed.{leads_young, AreSlotsOf};

use bit_set::BitSet;
use class_layout::Classes;
use cow_pages::{Addr, Frames, TableNo};
use model_numbers::{LARGE_BASE, LARGE_SLOT_BYTES, LARGE_SLOT_COUNT, PAGE_BYTES, REGION_BYTES};
use object_moves::young_size;
use object_view::Slot;
use raw_objects::in_regions;
use std::alloc::{AllocError, Global};

/// The slots that lead into the regions.
pub fn young_slots(alloc: Global, slots: &[Slot]) -> Result<Vec<Slot>, AllocError>
    ensures { IfOk result (λ young. young.items ≡ filter leads_young slots.now) }
{
    slots
        .iter()
        .filter(|slot| in_regions(slot.target))
        .copied()
        .collect(alloc)
}

/// The addresses of the slots in the set.
pub fn slot_addresses(alloc: Global, large: &BitSet) -> Result<Vec<Addr>, AllocError>
    requires { room large.now ≡ large_slot_count }
    ensures { IfOk result (λ ats. AreSlotsOf large.now ats.items) }
{
    let mut ats = Vec::new(alloc);
    for slot in 0..LARGE_SLOT_COUNT {
        if large.contains(slot as usize) {
            ats.push(Addr(LARGE_BASE + slot * LARGE_SLOT_BYTES))?;
        }
    }
    Ok(ats)
}

/// How many pages these objects of the regions have, packed one behind the other. They fill no more regions than the window
/// has. No read is counted.
pub fn pages_for(frames: &mut Frames, classes: &Classes, t: TableNo, young: &[Addr]) -> u32
    requires { (raws : Raws) × ((i : ℕ) → i < length young.now → IsYoungAt classes.now (view_of frames.old t.0) raws (at_of young.now i))
        × (parts_for region_bytes (end_from 0 (sizes_at classes.now raws young.now)) ≤ region_count) }
    ensures pages { (raws : Raws) → ((i : ℕ) → i < length young.now → IsYoungAt classes.now (view_of frames.old t.0) raws (at_of young.now i))
        → result ≡ packed_pages (sizes_at classes.now raws young.now) }
    ensures same { frames.new ≡ frames.old }
{
    let mut pages = 0;
    // as if behind a region that is full
    let mut fill = REGION_BYTES;
    for at in young {
        let size = young_size(frames, classes, t, *at);
        let before = if fill + size <= REGION_BYTES { fill } else { 0 };
        fill = before + size;
        pages += pages_up_to(fill) - pages_up_to(before);
    }
    pages
}

/// How many pages hold so many bytes of a region.
fn pages_up_to(fill: u32) -> u32
    requires { fill ≤ region_bytes }
    ensures { result ≡ pages_up_to fill }
{
    fill.div_ceil(PAGE_BYTES)
}
