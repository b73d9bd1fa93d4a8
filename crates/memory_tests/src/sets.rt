//! Sets of small numbers: what they hold, what comes next, and copies.
use bit_set::BitSet;
use std::test::Fail;

#[test]
fn finds_members(rt: HostRuntime) -> Result<(), Fail> {
    let mut set = BitSet::new(rt.alloc());
    set.grow(200)?;
    set.insert(3);
    set.insert(64);
    set.insert(191);
    assert!(rt; set.contains(64));
    assert!(rt; !set.contains(65));
    for (n, next, last) in [
        (0, Some(3), None),
        (3, Some(3), None),
        (4, Some(64), Some(3)),
        (64, Some(64), Some(3)),
        (65, Some(191), Some(64)),
        (191, Some(191), Some(64)),
        (192, None, Some(191)),
        (1 << 40, None, Some(191)),
    ] {
        assert_eq!(rt; set.next_from(n), next, "from {n}");
        assert_eq!(rt; set.last_before(n), last, "before {n}");
    }
    Ok(())
}

#[test]
fn grows_and_clears(rt: HostRuntime) -> Result<(), Fail> {
    let mut set = BitSet::new(rt.alloc());
    set.grow(1)?;
    set.insert(0);
    set.grow(1000)?;
    set.insert(999);
    let copy = set.copied()?;
    set.clear();
    assert_eq!(rt; set.next_from(0), None);
    assert_eq!(rt; copy.next_from(0), Some(0));
    assert_eq!(rt; copy.next_from(1), Some(999));
    Ok(())
}
