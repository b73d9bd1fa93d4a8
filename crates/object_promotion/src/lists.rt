//! What a promotion lists and sums up before it writes.
ghost use Rattle.std.specs.Prelude.{◌≡◌, ℕ, ◌+◌, ◌<◌, IfOk, List, length, option_map, sum};
ghost use Rattle.page_tables.specs.declared.address.Addr.{Addr};
ghost use Rattle.cow_pages.specs.View.{view_of};
ghost use Rattle.raw_objects.specs.Raws.{raw_size, Raws};
ghost use Rattle.live_objects.specs.Live.{addresses};
ghost use Rattle.object_moves.specs.Copies.{at_of, sizes_at};
ghost use Rattle.object_promotion.specs.Listed.{found_at, waiting_at, ArePacked};

use class_layout::Classes;
use cow_pages::{Addr, Frames, TableNo};
use large_objects::Larges;
use model_numbers::{LARGE_BASE, LARGE_SLOT_BYTES};
use object_moves::young_size;
use region_space::Regions;
use std::alloc::{AllocError, Global};

/// An object of the regions: the bytes that it takes, and where the next one stands.
#[derive(Clone, Copy)]
struct Young {
    size: u32,
    next: Option<Addr>,
}

/// The size of an object of the regions, and the address of the one that stands behind it. No read is counted.
fn young_at(
    frames: &mut Frames,
    classes: &Classes,
    t: TableNo,
    regions: &Regions,
    at: Addr,
) -> Young
    requires { (raws : Raws) × (young : List Addr) × (i : ℕ) × ArePacked classes.now (view_of frames.old t.0) regions.now raws young × (i < length young) × (at.0 ≡ at_of young i) }
    ensures size { (raws : Raws) (young : List Addr) (i : ℕ) → ArePacked classes.now (view_of frames.old t.0) regions.now raws young → i < length young → at.0 ≡ at_of young i
        → result.size ≡ raw_size classes.now raws (at_of young i) }
    ensures next { (raws : Raws) (young : List Addr) (i : ℕ) → ArePacked classes.now (view_of frames.old t.0) regions.now raws young → i < length young → at.0 ≡ at_of young i
        → option_map (λ at. at.0) result.next ≡ found_at young (i + 1) }
    ensures same { frames.new ≡ frames.old }
{
    let size = young_size(frames, classes, t, at);
    Young {
        size,
        next: regions.next(at, size),
    }
}

/// The objects of the regions, in the order in which they stand. No read is counted.
pub fn list_young(
    alloc: Global,
    frames: &mut Frames,
    classes: &Classes,
    t: TableNo,
    regions: &Regions,
) -> Result<Vec<Addr>, AllocError>
    requires { (raws : Raws) × (young : List Addr) × ArePacked classes.now (view_of frames.old t.0) regions.now raws young }
    ensures listed { IfOk result (λ list. (raws : Raws) (young : List Addr) → ArePacked classes.now (view_of frames.old t.0) regions.now raws young → list.items ≡ young) }
    ensures same { frames.new ≡ frames.old }
{
    let mut list = Vec::new(alloc);
    let mut next = regions.first();
    for _ in 0..regions.objects() {
        let Some(at) = next else { unreachable!() };
        list.push(at)?;
        next = young_at(frames, classes, t, regions, at).next;
    }
    Ok(list)
}

/// How many bytes the objects of the regions take together: at most 134,217,728. No read is counted.
pub fn young_bytes(frames: &mut Frames, classes: &Classes, t: TableNo, regions: &Regions) -> u32
    requires { (raws : Raws) × (young : List Addr) × ArePacked classes.now (view_of frames.old t.0) regions.now raws young }
    ensures total { (raws : Raws) (young : List Addr) → ArePacked classes.now (view_of frames.old t.0) regions.now raws young → result ≡ sum (sizes_at classes.now raws young) }
    ensures same { frames.new ≡ frames.old }
{
    let mut total = 0;
    let mut next = regions.first();
    for _ in 0..regions.objects() {
        let Some(at) = next else { unreachable!() };
        let young = young_at(frames, classes, t, regions, at);
        total += young.size;
        next = young.next;
    }
    total
}

/// The addresses of the large objects that aren't promoted.
pub fn waiting_slots(alloc: Global, larges: &Larges) -> Result<Vec<Addr>, AllocError>
    ensures { IfOk result (λ ats. addresses ats.items ≡ waiting_at larges.now) }
{
    let mut ats = Vec::new(alloc);
    for row in larges.rows() {
        if !row.promoted {
            ats.push(Addr(LARGE_BASE + row.slot * LARGE_SLOT_BYTES))?;
        }
    }
    Ok(ats)
}
