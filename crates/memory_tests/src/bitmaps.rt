//! Marks of addresses: what comes next and before, and copies.
use cow_pages::Addr;
use mark_bitmap::Bitmap;
use std::test::Fail;

#[test]
fn finds_marks(rt: HostRuntime) -> Result<(), Fail> {
    let mut marks = Bitmap::new(rt.alloc(), Addr(0x2000_0000), 4096)?;
    marks.set(Addr(0x2000_0008));
    marks.set(Addr(0x2000_0ff8));
    assert!(rt; marks.test(Addr(0x2000_0008)));
    assert!(rt; !marks.test(Addr(0x2000_0010)));
    for (at, next, last) in [
        (0, Some(0x2000_0008), None),
        (0x2000_0008, Some(0x2000_0008), None),
        (0x2000_0009, Some(0x2000_0ff8), Some(0x2000_0008)),
        (0x2000_0ff8, Some(0x2000_0ff8), Some(0x2000_0008)),
        (0x2000_0ff9, None, Some(0x2000_0ff8)),
        (0xffff_ffff, None, Some(0x2000_0ff8)),
    ] {
        assert_eq!(rt; marks.next_from(Addr(at)), next.map(Addr), "from {at:x}");
        assert_eq!(rt;
            marks.last_before(Addr(at)),
            last.map(Addr),
            "before {at:x}"
        );
    }
    Ok(())
}

#[test]
fn grows_and_clears(rt: HostRuntime) -> Result<(), Fail> {
    let mut marks = Bitmap::new(rt.alloc(), Addr(0xffff_f000), 8)?;
    marks.set(Addr(0xffff_f000));
    marks.grow(4096)?;
    marks.set(Addr(0xffff_fff8));
    let copy = marks.copied()?;
    marks.clear_all();
    assert_eq!(rt; marks.next_from(Addr(0)), None);
    assert_eq!(rt; copy.next_from(Addr(0)), Some(Addr(0xffff_f000)));
    assert_eq!(rt;
        copy.last_before(Addr(0xffff_ffff)),
        Some(Addr(0xffff_fff8))
    );
    Ok(())
}
