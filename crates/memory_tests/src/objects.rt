//! Objects in pages: the words of an array and of its copy, and a weak slot.
use class_layout::{Classes, Kind};
use cow_pages::{Addr, Frames, PageNo};
use heap_graph::Shape;
use object_view::{Slot, copy_object, load, ref_slot, set_forward, store, write_new};
use std::test::Fail;

const PAGE: PageNo = PageNo(0x40000);

const AT: Addr = Addr(0x4000_0000);

const TO: Addr = Addr(0x4000_0040);

// The words and bytes of an array, of its copy, and of the array when it went there.
#[test]
fn array_in_memory(rt: HostRuntime) -> Result<(), Fail> {
    let classes = Classes::new(rt.alloc())?;
    let mut frames = Frames::new(rt.alloc());
    let t = frames.new_table()?;
    frames.map_zero(t, PAGE)?;
    let shape = Shape::Array {
        kind: Kind::Short,
        count: 3,
    };
    write_new(&mut frames, &classes, t, AT, shape, 5)?;
    store(&mut frames, t, AT, Kind::Short, 14, -2)?;
    assert_eq!(rt; frames.read_u32(t, AT), 0x1000_0030);
    assert_eq!(rt; frames.read_u32(t, Addr(0x4000_0004)), 0x8000_0005);
    assert_eq!(rt; frames.read_u32(t, Addr(0x4000_0008)), 3);
    assert_eq!(rt; frames.read_u32(t, Addr(0x4000_000c)), 0xfffe_0000);
    copy_object(&mut frames, t, AT, TO, 24)?;
    set_forward(&mut frames, t, AT, TO)?;
    assert_eq!(rt; frames.read_u32(t, Addr(0x4000_0004)), 0xc800_0008);
    assert_eq!(rt; frames.read_u32(t, Addr(0x4000_0044)), 0x8000_0005);
    assert_eq!(rt; load(&mut frames, t, TO, Kind::Short, 14), -2);
    Ok(())
}

// The one field of a weak reference is its weak slot.
#[test]
fn weak_slot(rt: HostRuntime) -> Result<(), Fail> {
    let classes = Classes::new(rt.alloc())?;
    let mut frames = Frames::new(rt.alloc());
    let t = frames.new_table()?;
    frames.map_zero(t, PAGE)?;
    write_new(&mut frames, &classes, t, AT, Shape::Instance(1), 7)?;
    let slot = ref_slot(&mut frames, &classes, t, AT, 0);
    let expected = Slot {
        at: Addr(0x4000_0008),
        target: Addr(0),
        weak: true,
    };
    assert_eq!(rt; slot, Some(expected));
    Ok(())
}
