//! Places in the image.
use cow_pages::{Addr, Frames, Window};
use image_space::{ImageError, ImageSpace, new_tables_fit};
use std::test::Fail;

// Objects stand at the sums of the sizes before them, until the image is full.
#[test]
fn places_by_sums(rt: HostRuntime) -> Result<(), Fail> {
    let mut frames = Frames::new(rt.alloc());
    let t = frames.new_table()?;
    let mut space = ImageSpace::new(rt.alloc())?;
    new_tables_fit();
    assert_eq!(rt; space.place(&mut frames, t, 8), Ok(Addr(0x2000_0000)));
    assert_eq!(rt; space.place(&mut frames, t, 4088), Ok(Addr(0x2000_0008)));
    assert_eq!(rt; frames.count_mapped(t, Window::Image), 1);
    assert_eq!(rt; space.place(&mut frames, t, 8), Ok(Addr(0x2000_1000)));
    assert_eq!(rt; frames.count_mapped(t, Window::Image), 2);
    let copy = space.copied()?;
    assert_eq!(rt;
        space.place(&mut frames, t, 1_044_472),
        Ok(Addr(0x2000_1008))
    );
    assert_eq!(rt; frames.count_mapped(t, Window::Image), 256);
    for _ in 0..63 {
        assert!(rt; space.place(&mut frames, t, 1_048_576).is_ok());
    }
    assert_eq!(rt; frames.count_mapped(t, Window::Image), 16384);
    let full = ImageError::Full {
        fill: 67_108_864,
        size: 8,
    };
    assert_eq!(rt; space.place(&mut frames, t, 8), Err(full));
    assert_eq!(rt;
        space.starts().next_from(Addr(0x2000_1001)),
        Some(Addr(0x2000_1008))
    );
    assert_eq!(rt; copy.starts().next_from(Addr(0x2000_1001)), None);
    assert_eq!(rt; copy.fill(), 4104);
    Ok(())
}
