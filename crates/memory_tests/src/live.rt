//! Live objects: of a heap without any.
use class_layout::Classes;
use cow_pages::{Addr, Frames};
use large_objects::Larges;
use live_objects::find_live;
use object_view::Slot;
use region_space::Regions;
use std::test::Fail;

// A slot that isn't weak and a root hold null: nothing is live.
#[test]
fn null_is_no_object(rt: HostRuntime) -> Result<(), Fail> {
    let classes = Classes::new(rt.alloc())?;
    let mut frames = Frames::new(rt.alloc());
    let t = frames.new_table()?;
    let regions = Regions::new(rt.alloc(), 1)?;
    let larges = Larges::new(rt.alloc())?;
    let roots = [Addr(0)];
    let slots = [Slot {
        at: Addr(0x2000_0008),
        target: Addr(0),
        weak: false,
    }];
    let live = find_live(
        rt.alloc(),
        &mut frames,
        &classes,
        t,
        &roots,
        &slots,
        &regions,
        &larges,
    )?;
    assert_eq!(rt; live.young.len(), 0);
    assert_eq!(rt; live.large.next_from(0), None);
    Ok(())
}
