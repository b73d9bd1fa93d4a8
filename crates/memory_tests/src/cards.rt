//! Dirty cards: which are found, and copies.
use card_table::Cards;
use cow_pages::Addr;
use std::test::Fail;

#[test]
fn finds_dirty_cards(rt: HostRuntime) -> Result<(), Fail> {
    let mut cards = Cards::new(rt.alloc(), Addr(0x3000_0000));
    cards.grow(0x10_0000)?;
    cards.dirty(Addr(0x3000_07ff));
    cards.dirty(Addr(0x300f_fc00));
    assert!(rt; cards.is_dirty(Addr(0x3000_0400)));
    assert!(rt; !cards.is_dirty(Addr(0x3000_0800)));
    for (from, next) in [
        (0, Some(0x3000_0400)),
        (0x3000_0400, Some(0x3000_0400)),
        (0x3000_0401, Some(0x300f_fc00)),
        (0x300f_fc00, Some(0x300f_fc00)),
        (0x300f_fc01, None),
    ] {
        assert_eq!(rt;
            cards.next_dirty(Addr(from)),
            next.map(Addr),
            "from {from:x}"
        );
    }
    Ok(())
}

#[test]
fn grows_and_cleans(rt: HostRuntime) -> Result<(), Fail> {
    let mut cards = Cards::new(rt.alloc(), Addr(0));
    cards.grow(1)?;
    cards.dirty(Addr(0));
    cards.grow(2048)?;
    let copy = cards.copied()?;
    cards.clean_all();
    assert_eq!(rt; cards.next_dirty(Addr(0)), None);
    assert_eq!(rt; copy.next_dirty(Addr(0)), Some(Addr(0)));
    assert_eq!(rt; copy.next_dirty(Addr(1)), None);
    Ok(())
}
