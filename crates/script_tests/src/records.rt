//! Fields and parts of the records of dumps.
use crate::wanted::{counts, has, holds};
use hprof_records::{
    Bytes, Constants, FieldNames, Ids, Statics, SubList, SubRecord, TypeCode, put_u8, put_u16,
    put_u32, put_u64, u8_at, u16_at, u32_at, u64_at,
};
use std::alloc::{AllocError, Global};
use std::test::Fail;

const EIGHT: [u8; 8] = [0x01, 0x02, 0x03, 0x04, 0x05, 0x06, 0x07, 0x08];

/// A place, and the numbers of 1, 2, 4 and 8 bytes that stand there.
type Read = (usize, Option<u8>, Option<u16>, Option<u32>, Option<u64>);

const READS: [Read; 8] = [
    (
        0,
        Some(0x01),
        Some(0x0102),
        Some(0x0102_0304),
        Some(0x0102_0304_0506_0708),
    ),
    (1, Some(0x02), Some(0x0203), Some(0x0203_0405), None),
    (4, Some(0x05), Some(0x0506), Some(0x0506_0708), None),
    (5, Some(0x06), Some(0x0607), None, None),
    (6, Some(0x07), Some(0x0708), None, None),
    (7, Some(0x08), None, None, None),
    (8, None, None, None, None),
    (usize::MAX, None, None, None, None),
];

#[test]
fn reads_up_to_the_end(rt: HostRuntime) {
    for (at, one, two, four, eight) in READS {
        holds(&rt, u8_at(&EIGHT, at) == one);
        holds(&rt, u16_at(&EIGHT, at) == two);
        holds(&rt, u32_at(&EIGHT, at) == four);
        holds(&rt, u64_at(&EIGHT, at) == eight);
    }
}

/// The types by their codes, each with the bytes of a value, and other codes.
const CODES: [(u8, Option<TypeCode>, u32); 13] = [
    (0, None, 0),
    (1, None, 0),
    (2, Some(TypeCode::Ref), 4),
    (3, None, 0),
    (4, Some(TypeCode::Boolean), 1),
    (5, Some(TypeCode::Char), 2),
    (6, Some(TypeCode::Float), 4),
    (7, Some(TypeCode::Double), 8),
    (8, Some(TypeCode::Byte), 1),
    (9, Some(TypeCode::Short), 2),
    (10, Some(TypeCode::Int), 4),
    (11, Some(TypeCode::Long), 8),
    (12, None, 0),
];

#[test]
fn tells_types_by_their_codes(rt: HostRuntime) {
    for (code, kind, bytes) in CODES {
        holds(&rt, TypeCode::of(code) == kind);
        if let Some(kind) = kind {
            holds(&rt, kind.code() == code);
            holds(&rt, kind.bytes() == bytes);
        }
    }
}

#[test]
fn appends_the_highest_byte_first(rt: HostRuntime) -> Result<(), Fail> {
    let mut out = Vec::new(rt.alloc());
    put_u8(&mut out, 0x01)?;
    put_u16(&mut out, 0x0203)?;
    put_u32(&mut out, 0x0405_0607)?;
    put_u64(&mut out, 0x0809_0a0b_0c0d_0e0f)?;
    let want: [u8; 15] = [1, 2, 3, 4, 5, 6, 7, 8, 9, 10, 11, 12, 13, 14, 15];
    has(&rt, &out, &want);
    Ok(())
}

/// One constant, of one byte.
fn one_constant(alloc: Global) -> Result<Constants, AllocError> {
    let mut constants = Constants::new(alloc);
    constants.push((7, 8, Bytes::of(alloc, &[0xff])?))?;
    Ok(constants)
}

/// One array of one object.
fn one_part(alloc: Global) -> Result<SubList, AllocError> {
    let mut items = Ids::new(alloc);
    items.push(1)?;
    let mut parts = SubList::new(alloc);
    parts.push(SubRecord::ObjectArray {
        id: 5,
        stack: 0,
        class: 1,
        items,
    })?;
    Ok(parts)
}

#[test]
fn keeps_constants(rt: HostRuntime) -> Result<(), Fail> {
    let constants = one_constant(rt.alloc())?;
    match constants.as_slice() {
        [constant] => has(&rt, constant.2.as_slice(), &[0xff]),
        _ => holds(&rt, false),
    }
    Ok(())
}

#[test]
fn keeps_fields(rt: HostRuntime) -> Result<(), Fail> {
    let mut statics = Statics::new(rt.alloc());
    statics.push((9, 5, Bytes::new(rt.alloc())))?;
    counts(&rt, statics.as_slice().len(), 1);
    let mut fields = FieldNames::new(rt.alloc());
    fields.push((10, 2))?;
    holds(&rt, fields.as_slice() == [(10, 2)].as_slice());
    Ok(())
}

#[test]
fn keeps_parts(rt: HostRuntime) -> Result<(), Fail> {
    counts(&rt, one_part(rt.alloc())?.as_slice().len(), 1);
    Ok(())
}
