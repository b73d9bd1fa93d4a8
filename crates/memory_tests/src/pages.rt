//! Pages that tables share, and writes into them.
use cow_pages::{Addr, Frames, PageNo};
use page_runs::{map_run, release_run};
use std::test::Fail;

const PAGE: PageNo = PageNo(0x20000);

const AT: Addr = Addr(0x20000000);

// What a table and its fork have before and after a write, and what stays once the first is dropped.
#[test]
fn forks(rt: HostRuntime) -> Result<(), Fail> {
    let mut frames = Frames::new(rt.alloc());
    let before = frames.immune_reads();
    let t = frames.new_table()?;
    frames.map_zero(t, PAGE)?;
    frames.write_u32(t, AT, 7)?;
    frames.settle(t);
    let u = frames.fork_table(t)?;
    assert_eq!(rt; frames.used(), 1);
    frames.write_u32(u, AT, 9)?;
    assert_eq!(rt; frames.used(), 2);
    assert_eq!(rt; frames.read_u32(t, AT), 7);
    assert_eq!(rt; frames.read_u32(u, AT), 9);
    assert!(rt; !frames.written(t, PAGE));
    assert!(rt; frames.written(u, PAGE));
    frames.drop_table(t);
    assert_eq!(rt; frames.used(), 1);
    assert_eq!(rt; frames.immune_reads(), before + 2);
    Ok(())
}

// Frames that are reserved, and writes of three sizes over one another, the lowest byte first.
#[test]
fn reserves_and_writes(rt: HostRuntime) -> Result<(), Fail> {
    let mut frames = Frames::new(rt.alloc());
    frames.reserve(3)?;
    assert_eq!(rt; frames.spare(), 3);
    let t = frames.new_table()?;
    frames.map_zero(t, PageNo(0x40000))?;
    frames.write_u64(t, Addr(0x40000ff8), 0x0102030405060708)?;
    frames.write_u16(t, Addr(0x40000ffa), 0x1234)?;
    frames.write_u8(t, Addr(0x40000fff), 0xa5)?;
    assert_eq!(rt; frames.read_u64(t, Addr(0x40000ff8)), 0xa502030412340708);
    assert_eq!(rt; frames.read_u8(t, Addr(0x40000ffa)), 0x34);
    assert_eq!(rt; frames.spare(), 2);
    assert_eq!(rt; frames.immune_reads(), 0);
    Ok(())
}

// A fork has the leaves of its table until one of both writes; the leaf goes with its last page.
#[test]
fn shares_leaves(rt: HostRuntime) -> Result<(), Fail> {
    let mut frames = Frames::new(rt.alloc());
    let t = frames.new_table()?;
    frames.map_zero(t, PAGE)?;
    frames.map_zero(t, PageNo(0x203ff))?;
    frames.map_zero(t, PageNo(0x20400))?;
    assert_eq!(rt; frames.leaves_used(), 2);
    assert_eq!(rt; frames.leaf_of(t, PAGE), frames.leaf_of(t, PageNo(0x203ff)));
    assert_eq!(rt; frames.leaf_of(t, PageNo(0x20001)), None);
    frames.write_u32(t, AT, 7)?;
    frames.settle(t);
    let u = frames.fork_table(t)?;
    assert_eq!(rt; frames.leaves_used(), 2);
    assert_eq!(rt; frames.leaf_of(u, PAGE), frames.leaf_of(t, PAGE));
    frames.write_u32(u, AT, 9)?;
    assert_eq!(rt; frames.leaves_used(), 3);
    assert_eq!(rt; frames.used(), 4);
    assert_ne!(rt; frames.leaf_of(u, PAGE), frames.leaf_of(t, PAGE));
    assert_eq!(rt; frames.read_u32(t, AT), 7);
    assert_eq!(rt; frames.read_u32(u, AT), 9);
    frames.release(u, PAGE);
    assert_eq!(rt; frames.used(), 3);
    frames.drop_table(t);
    assert_eq!(rt; frames.leaves_used(), 2);
    assert_eq!(rt; frames.used(), 2);
    frames.write_u8(u, Addr(0x2040_0000), 1)?;
    frames.release(u, PageNo(0x20400));
    assert_eq!(rt; frames.leaves_used(), 1);
    frames.map_zero(u, PageNo(0x9ffff))?;
    assert_eq!(rt; frames.leaves_used(), 2);
    frames.drop_table(u);
    assert_eq!(rt; frames.leaves_used(), 0);
    assert_eq!(rt; frames.used(), 0);
    Ok(())
}

// Many forks of a table share its leaves and frames, and a write into one of them takes one of each.
#[test]
fn forks_many_times(rt: HostRuntime) -> Result<(), Fail> {
    let mut frames = Frames::new(rt.alloc());
    let t = frames.new_table()?;
    map_run(&mut frames, t, PAGE, 16384)?;
    frames.settle(t);
    for _ in 0..999 {
        frames.fork_table(t)?;
    }
    let last = frames.fork_table(t)?;
    frames.write_u8(last, AT, 1)?;
    assert_eq!(rt; frames.read_u8(last, AT), 1);
    assert_eq!(rt; frames.read_u8(t, AT), 0);
    assert_eq!(rt; frames.used(), 16385);
    assert_eq!(rt; frames.leaves_used(), 17);
    Ok(())
}

// A run of pages over the end of a leaf, and what stays of it.
#[test]
fn maps_runs(rt: HostRuntime) -> Result<(), Fail> {
    let mut frames = Frames::new(rt.alloc());
    let t = frames.new_table()?;
    map_run(&mut frames, t, PageNo(0x203fe), 4)?;
    assert_eq!(rt; frames.used(), 4);
    assert_eq!(rt; frames.leaves_used(), 2);
    release_run(&mut frames, t, PageNo(0x203fe), 2);
    assert_eq!(rt; frames.used(), 2);
    assert_eq!(rt; frames.leaves_used(), 1);
    Ok(())
}
