//! What a promotion lists before it writes.
ghost use Rattle.std.specs.Prelude.{◌≡◌, IfOk, List};
ghost use Rattle.raw_objects.specs.Raws.{Raws};
ghost use Rattle.object_collection.specs.Collects.{state_of, AreYoung};
ghost use Rattle.page_tables.specs.declared.address.Addr.{Addr};
ghost use Rattle.object_promotion.specs.Phases.{listed_in, IsPlan};
ghost use Rattle.object_promotion.specs.Promotes.{CanPromote};
ghost use Rattle.zygote_space.specs.Space.{Space};

use crate::lists::{list_young, waiting_slots};
use class_layout::Classes;
use cow_pages::{Addr, Frames, TableNo};
use large_objects::Larges;
use object_collection::young_slots;
use object_view::Slot;
use region_space::Regions;
use std::alloc::{AllocError, Global};

/// What a promotion has listed: the objects of the regions, the large ones that aren't promoted, and the slots that lead
/// into the regions.
#[derive(Drop)]
pub struct Plan {
    pub young: Vec<Addr>,
    pub large: Vec<Addr>,
    pub turned: Vec<Slot>,
}

/// Lists the objects and the slots. Nothing is written.
pub fn plan_promotion(
    alloc: Global,
    frames: &mut Frames,
    t: TableNo,
    classes: &Classes,
    roots: &[Addr],
    slots: &[Slot],
    regions: &Regions,
    larges: &Larges,
) -> Result<Plan, AllocError>
    requires { (raws : Raws) × (z : Space) × CanPromote (state_of classes.now regions.now larges.now roots.now slots.now) frames.old t.0 raws z }
    ensures plan { IfOk result (λ plan. (raws : Raws) (z : Space) (young : List Addr) → CanPromote (state_of classes.now regions.now larges.now roots.now slots.now) frames.old t.0 raws z
        → AreYoung (state_of classes.now regions.now larges.now roots.now slots.now) raws young
        → IsPlan (state_of classes.now regions.now larges.now roots.now slots.now) raws (listed_in plan) × (plan.young.items ≡ young)) }
    ensures same { frames.new ≡ frames.old }
{
    let young = list_young(alloc, frames, classes, t, regions)?;
    let large = waiting_slots(alloc, larges)?;
    let turned = young_slots(alloc, slots)?;
    Ok(Plan {
        young,
        large,
        turned,
    })
}
