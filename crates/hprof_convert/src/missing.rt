//! The first instance without a layout.
ghost use Rattle.std.specs.Prelude.{◌≡◌, ◌+◌, ◌*◌, length, IfOk, IfSome};
ghost use Rattle.std.specs.List.{flat_map};
ghost use Rattle.hprof_records.specs.Fields.{field};
ghost use Rattle.hprof_records.specs.Parts.{constant_bytes};
ghost use Rattle.hprof_wide.specs.Parts.{further_fields, wide_part_bytes, wide_static_bytes, wide_field_name_bytes};
ghost use Rattle.hprof_wide.specs.Records.{wide_record_bytes};
ghost use Rattle.hprof_wide.specs.Dump.{IsWideRecord, AreWideRecords};
ghost use Rattle.hprof_convert.specs.Missing.{lacks_layout, missing_in_parts, missing_from};

use crate::classes::{WideClasses, parts_of};
use crate::identifiers::JNI_GLOBAL;
use crate::sizes::{constants_size, more, times};
use hprof_records::Bytes;
use hprof_wide::{WideSub, WideTop};
use std::alloc::{AllocError, Global};

/// Whether a part is an instance without a layout.
fn lacks_layout(
    alloc: Global,
    width: u32,
    classes: &WideClasses,
    part: &WideSub,
) -> Result<bool, AllocError>
    ensures { IfOk result (λ b. b ≡ lacks_layout width classes.now part.now) }
{
    match part {
        WideSub::Instance { class, bytes, .. } => {
            let layout = classes.layout(alloc, width, *class, bytes.as_slice().len())?;
            Ok(layout.is_none())
        }
        _ => Ok(false),
    }
}

/// The bytes of a static field more than so many.
fn with_static(width: u32, size: u32, one: &(u64, u8, Bytes)) -> Option<u32>
    ensures { IfSome result (λ n. n ≡ size + length (wide_static_bytes width one.now)) }
{
    let head = more(size, width, 1)?;
    more(head, 0, one.2.as_slice().len())
}

fn wide_statics_size(width: u32, list: &[(u64, u8, Bytes)]) -> Option<u32>
    ensures { IfSome result (λ n. n ≡ length (flat_map (wide_static_bytes width) list.now)) }
{
    let mut size = 0;
    for one in list {
        size = with_static(width, size, one)?;
    }
    Some(size)
}

fn wide_fields_size(width: u32, list: &[(u64, u8)]) -> Option<u32>
    ensures { IfSome result (λ n. n ≡ length (flat_map (wide_field_name_bytes width) list.now)) }
{
    let each = more(width, 1, 0)?;
    times(list.len(), each)
}

/// The bytes of a wide class: 15 and 7 identifiers, and those of its lists.
fn wide_class_size(
    width: u32,
    constants: &[(u16, u8, Bytes)],
    statics: &[(u64, u8, Bytes)],
    fields: &[(u64, u8)],
) -> Option<u32>
    ensures { IfSome result (λ n. n ≡ 15 + 7 * width + length (flat_map constant_bytes constants.now) + length (flat_map (wide_static_bytes width) statics.now) + length (flat_map (wide_field_name_bytes width) fields.now)) }
{
    let constants = constants_size(constants)?;
    let statics = wide_statics_size(width, statics)?;
    let fields = wide_fields_size(width, fields)?;
    let ids = times(7, width)?;
    more(more(15, ids, constants as usize)?, statics, fields as usize)
}

/// The bytes of a root's further fields.
fn wide_further_size(width: u32, tag: u8, first: Option<u64>, second: Option<u64>) -> u32
    ensures { result ≡ length (further_fields width tag first second) }
{
    match (first, second) {
        (None, None) => 0,
        (Some(_), None) => { if tag == JNI_GLOBAL { width } else { 4 } }
        (None, Some(_)) => 4,
        (Some(_), Some(_)) => 8,
    }
}

/// So many bytes, two identifiers, and some more bytes.
fn with_two_ids(width: u32, head: u32, rest: usize) -> Option<u32>
    ensures { IfSome result (λ n. n ≡ head + 2 * width + rest) }
{
    more(head, times(2, width)?, rest)
}

/// The bytes of a wide array of objects.
fn wide_array_size(width: u32, items: &[u64]) -> Option<u32>
    ensures { IfSome result (λ n. n ≡ 9 + 2 * width + length (flat_map (field width) items.now)) }
{
    let bytes = times(items.len(), width)?;
    with_two_ids(width, 9, bytes as usize)
}

fn wide_part_size(width: u32, part: &WideSub) -> Option<u32>
    ensures { IfSome result (λ n. n ≡ length (wide_part_bytes width part.now)) }
{
    match part {
        WideSub::Root {
            tag,
            first,
            second,
            ..
        } => more(
            1,
            width,
            wide_further_size(width, *tag, *first, *second) as usize,
        ),
        WideSub::HeapInfo { .. } => more(5, width, 0),
        WideSub::ClassDump {
            constants,
            statics,
            fields,
            ..
        } => wide_class_size(
            width,
            constants.as_slice(),
            statics.as_slice(),
            fields.as_slice(),
        ),
        WideSub::Instance { bytes, .. } => with_two_ids(width, 9, bytes.as_slice().len()),
        WideSub::ObjectArray { items, .. } => wide_array_size(width, items.as_slice()),
        WideSub::PrimitiveArray { bytes, .. } => more(10, width, bytes.as_slice().len()),
        WideSub::NoData { .. } => more(10, width, 0),
    }
}

/// The bytes of a record: 9, and those of its body.
fn wide_record_size(width: u32, one: &WideTop) -> Option<u32>
    requires { IsWideRecord width one.now }
    ensures { IfSome result (λ n. n ≡ length (wide_record_bytes width one.now)) }
{
    match one {
        WideTop::Text { bytes, .. } => more(9, width, bytes.as_slice().len()),
        WideTop::LoadClass { rest, .. } => with_two_ids(width, 17, rest.as_slice().len()),
        WideTop::Trace { frames, rest, .. } => {
            let ids = times(frames.as_slice().len(), width)?;
            more(21, ids, rest.as_slice().len())
        }
        WideTop::Segment { length, .. } => more(9, *length, 0),
        WideTop::Other { body, .. } => more(9, 0, body.as_slice().len()),
    }
}

/// The place behind a part. Where no number tells it, that is want of memory.
fn behind_part(width: u32, at: u64, part: &WideSub) -> Result<u64, AllocError>
    ensures { IfOk result (λ n. n ≡ at + length (wide_part_bytes width part.now)) }
{
    let Some(size) = wide_part_size(width, part) else {
        return Err(AllocError);
    };
    match at.checked_add(size as u64) {
        Some(next) => Ok(next),
        None => Err(AllocError),
    }
}

/// The place behind a record. Where no number tells it, that is want of memory.
fn behind_record(width: u32, at: u64, one: &WideTop) -> Result<u64, AllocError>
    requires { IsWideRecord width one.now }
    ensures { IfOk result (λ n. n ≡ at + length (wide_record_bytes width one.now)) }
{
    let Some(size) = wide_record_size(width, one) else {
        return Err(AllocError);
    };
    match at.checked_add(size as u64) {
        Some(next) => Ok(next),
        None => Err(AllocError),
    }
}

/// The place of a record's parts.
fn body_place(at: u64) -> Result<u64, AllocError>
    ensures { IfOk result (λ n. n ≡ at + 9) }
{
    match at.checked_add(9) {
        Some(next) => Ok(next),
        None => Err(AllocError),
    }
}

/// The place of the first part without a layout. The first part stands at a place.
fn missing_in_parts(
    alloc: Global,
    width: u32,
    classes: &WideClasses,
    at: u64,
    parts: &[WideSub],
) -> Result<Option<u64>, AllocError>
    ensures { IfOk result (λ o. o ≡ missing_in_parts width classes.now at parts.now) }
{
    let mut place = at;
    for part in parts {
        if lacks_layout(alloc, width, classes, part)? {
            return Ok(Some(place));
        }
        place = behind_part(width, place, part)?;
    }
    Ok(None)
}

/// The place of the first instance without a layout in a dump of these records.
pub(crate) fn missing_layout(
    alloc: Global,
    width: u32,
    classes: &WideClasses,
    records: &[WideTop],
) -> Result<Option<u64>, AllocError>
    requires { AreWideRecords width records.now }
    ensures { IfOk result (λ o. o ≡ missing_from width classes.now 31 records.now) }
{
    let mut place = 31;
    for one in records {
        let found = missing_in_parts(alloc, width, classes, body_place(place)?, parts_of(one))?;
        if found.is_some() {
            return Ok(found);
        }
        place = behind_record(width, place, one)?;
    }
    Ok(None)
}
