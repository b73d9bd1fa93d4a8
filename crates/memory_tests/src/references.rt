//! Weak references whose targets are not kept.
use cow_pages::{Addr, Frames, PageNo};
use std::test::Fail;
use weak_refs::{KeepTest, clear_dead};

// Objects from an address on are kept.
struct From(u32);

impl KeepTest for From {
    ghost use Rattle.std.specs.Prelude.{nat_le};

    ghost keeps = { λ it at. nat_le it.0 at };

    fn kept(&self, at: Addr) -> bool {
        self.0 <= at.0
    }
}

// A dead reference between two that stay, a null, and a dead one in another page.
#[test]
fn dead_references(rt: HostRuntime) -> Result<(), Fail> {
    let mut frames = Frames::new(rt.alloc());
    let t = frames.new_table()?;
    frames.map_zero(t, PageNo(0x40000))?;
    frames.map_zero(t, PageNo(0x20000))?;
    frames.write_u32(t, Addr(0x4000_0000), 0x4000_1000)?;
    frames.write_u32(t, Addr(0x4000_0004), 0x4000_0ff8)?;
    frames.write_u32(t, Addr(0x4000_0008), 0x4000_1008)?;
    frames.write_u32(t, Addr(0x2000_0ffc), 0x4000_0010)?;
    let slots = [
        Addr(0x4000_0000),
        Addr(0x4000_0004),
        Addr(0x4000_0010),
        Addr(0x2000_0ffc),
    ];
    assert_eq!(rt; clear_dead(&mut frames, t, &slots, &From(0x4000_1000))?, 2);
    assert_eq!(rt; frames.immune_reads(), 1);
    assert_eq!(rt; frames.read_u32(t, Addr(0x4000_0000)), 0x4000_1000);
    assert_eq!(rt; frames.read_u32(t, Addr(0x4000_0004)), 0);
    assert_eq!(rt; frames.read_u32(t, Addr(0x4000_0008)), 0x4000_1008);
    assert_eq!(rt; frames.read_u32(t, Addr(0x4000_0010)), 0);
    assert_eq!(rt; frames.read_u32(t, Addr(0x2000_0ffc)), 0);
    Ok(())
}
