use crate::bytes::{BUILT_IN, EACH, EACH_LISTING, SMALL, SMALL_LISTING};
use ah_outside::{MemorySink, Sink};
use hprof_list::write_listing;
use hprof_read::{Dump, ReadError, read_dump};
use hprof_records::{SubRecord, TopRecord};
use std::alloc::AllocError;
use std::test::Fail;

/// The lengths at which the front of the built-in dump is a dump.
const WHOLE: [usize; 14] = [
    31, 60, 100, 121, 152, 168, 186, 205, 230, 255, 280, 301, 444, 453,
];

fn fault_of(read: Result<Dump, ReadError>) -> Option<ReadError> {
    match read {
        Ok(_) => None,
        Err(fault) => Some(fault),
    }
}

/// What the front of so many bytes answers.
fn fault_at(len: usize) -> Option<ReadError> {
    if len < 19 {
        return Some(ReadError::Magic { offset: 0 });
    }
    if len < 23 {
        return Some(ReadError::CutShort { offset: 19 });
    }
    if len < 31 {
        return Some(ReadError::CutShort { offset: 23 });
    }
    let mut offset = 0;
    for whole in WHOLE {
        if whole == len {
            return None;
        }
        if whole < len {
            offset = whole as u64;
        }
    }
    Some(ReadError::CutShort { offset })
}

#[test]
fn fronts_of_a_dump(rt: HostRuntime) {
    for len in 0..=BUILT_IN.len() {
        if let Some(front) = BUILT_IN.get(..len) {
            assert_eq!(rt;
                fault_of(read_dump(rt.alloc(), front)),
                fault_at(len),
                "{len} bytes"
            );
        }
    }
}

#[test]
fn bytes_that_are_no_dump(rt: HostRuntime) -> Result<(), Fail> {
    for (at, byte, fault) in [
        (22, 8, ReadError::IdSize { offset: 19 }),
        (55, 0xc4, ReadError::UnknownTag { offset: 55 }),
        (68, 3, ReadError::BadType { offset: 68 }),
        (55, 0x23, ReadError::PastEnd { offset: 55 }),
        (55, 0x21, ReadError::PastEnd { offset: 55 }),
    ] {
        let mut bytes = SMALL;
        bytes[at] = byte;
        assert_eq!(rt;
            fault_of(read_dump(rt.alloc(), &bytes)),
            Some(fault),
            "{at} {byte}"
        );
    }
    let mut bytes = SMALL;
    bytes[55] = 0x23;
    bytes[64..68].copy_from_slice(&[0xff; 4]);
    bytes[68] = 0x0b;
    assert_eq!(rt;
        fault_of(read_dump(rt.alloc(), &bytes)),
        Some(ReadError::PastEnd { offset: 55 })
    );
    for (record, fault) in [
        (
            [0x01, 0, 0, 0, 0, 0, 0, 0, 3, 0, 0, 0].as_slice(),
            ReadError::PastEnd { offset: 31 },
        ),
        (
            [0x01, 0, 0, 0, 0, 0xff, 0xff, 0xff, 0xff].as_slice(),
            ReadError::CutShort { offset: 31 },
        ),
    ] {
        let mut text = Vec::from_slice(rt.alloc(), &SMALL[..31])?;
        text.extend_from_slice(record)?;
        assert_eq!(rt; fault_of(read_dump(rt.alloc(), &text)), Some(fault));
    }
    Ok(())
}

#[test]
fn records_of_a_dump(rt: HostRuntime) -> Result<(), Fail> {
    let dump = read_dump(rt.alloc(), &SMALL).map_err(|_| AllocError)?;
    assert_eq!(rt; dump.time, 0);
    let records = dump.top.as_slice();
    assert_eq!(rt; records.len(), 2);
    assert!(rt; matches!(&records[0], TopRecord::Other { tag: 0x0e, .. }));
    match &records[1] {
        TopRecord::Segment {
            tag,
            length,
            parts,
            ..
        } => {
            assert_eq!(rt; *tag, 0x1c);
            assert_eq!(rt; *length, 14);
            let parts = parts.as_slice();
            assert_eq!(rt; parts.len(), 1);
            assert!(rt;
                matches!(
                    &parts[0],
                    SubRecord::NoData {
                        id: 0x8000_0000,
                        stack: 0,
                        count: 12_288,
                        code: 8
                    }
                )
            );
        }
        _ => assert!(rt; false),
    }
    Ok(())
}

#[test]
fn listings(rt: HostRuntime) -> Result<(), Fail> {
    for (bytes, listing) in [
        (SMALL.as_slice(), SMALL_LISTING),
        (EACH.as_slice(), EACH_LISTING),
    ] {
        let dump = read_dump(rt.alloc(), bytes).map_err(|_| AllocError)?;
        let mut sink = MemorySink::new(rt.alloc(), 4_096, &[])?;
        assert!(rt; write_listing(&dump, &mut sink).is_ok());
        assert_eq!(rt; sink.bytes(), listing.as_bytes());
    }
    Ok(())
}

#[test]
fn each_put_failing(rt: HostRuntime) -> Result<(), Fail> {
    let listing = EACH_LISTING.as_bytes();
    let dump = read_dump(rt.alloc(), &EACH).map_err(|_| AllocError)?;
    for put in 1..=100 {
        let mut sink = MemorySink::new(rt.alloc(), 4_096, &[put])?;
        assert!(rt; write_listing(&dump, &mut sink).is_err(), "{put}");
        assert_eq!(rt; sink.faults(), 1, "{put}");
        assert!(rt; listing.starts_with(sink.bytes()), "{put}");
        assert!(rt; sink.bytes().len() < listing.len(), "{put}");
    }
    Ok(())
}
