//! How many bytes the parts of a segment have. More than 4 bytes count are want of memory.
ghost use Rattle.std.specs.Prelude.{◌≡◌, ◌+◌, ◌*◌, length, IfOk, IfSome};
ghost use Rattle.std.specs.List.{flat_map};
ghost use Rattle.hprof_records.specs.Parts.{word, further_bytes, constant_bytes, static_bytes, field_name_bytes, bytes_of_part, bytes_of_parts};

use hprof_records::{Bytes, SubRecord};
use std::alloc::AllocError;

/// Some bytes more than so many.
pub(crate) fn more(size: u32, head: u32, rest: usize) -> Option<u32>
    ensures { IfSome result (λ n. n ≡ size + head + rest) }
{
    size.checked_add(head)?
        .checked_add(u32::try_from(rest).ok()?)
}

pub(crate) fn constants_size(list: &[(u16, u8, Bytes)]) -> Option<u32>
    ensures { IfSome result (λ n. n ≡ length (flat_map constant_bytes list.now)) }
{
    let mut size = 0;
    for one in list {
        size = more(size, 3, one.2.as_slice().len())?;
    }
    Some(size)
}

fn statics_size(list: &[(u32, u8, Bytes)]) -> Option<u32>
    ensures { IfSome result (λ n. n ≡ length (flat_map static_bytes list.now)) }
{
    let mut size = 0;
    for one in list {
        size = more(size, 5, one.2.as_slice().len())?;
    }
    Some(size)
}

/// So many bytes for each of a number of elements.
pub(crate) fn times(count: usize, each: u32) -> Option<u32>
    ensures { IfSome result (λ n. n ≡ count * each) }
{
    u32::try_from(count).ok()?.checked_mul(each)
}

fn fields_size(list: &[(u32, u8)]) -> Option<u32>
    ensures { IfSome result (λ n. n ≡ length (flat_map field_name_bytes list.now)) }
{
    times(list.len(), 5)
}

/// The bytes of an array of objects: those before its elements, and these.
fn array_size(items: &[u32]) -> Option<u32>
    ensures { IfSome result (λ n. n ≡ 17 + length (flat_map word items.now)) }
{
    let bytes = times(items.len(), 4)?;
    more(17, bytes, 0)
}

/// The bytes of a class: those of its head and of the counts of its lists, and those of the lists.
fn class_size(
    constants: &[(u16, u8, Bytes)],
    statics: &[(u32, u8, Bytes)],
    fields: &[(u32, u8)],
) -> Option<u32>
    ensures { IfSome result (λ n. n ≡ 43 + length (flat_map constant_bytes constants.now) + length (flat_map static_bytes statics.now) + length (flat_map field_name_bytes fields.now)) }
{
    let constants = constants_size(constants)?;
    let statics = statics_size(statics)?;
    let fields = fields_size(fields)?;
    more(more(43, constants, 0)?, statics, fields as usize)
}

/// The bytes of a root's further field.
fn further_size(field: Option<u32>) -> u32
    ensures { result ≡ length (further_bytes field) }
{
    match field {
        None => 0,
        Some(_) => 4,
    }
}

fn part_size(part: &SubRecord) -> Option<u32>
    ensures { IfSome result (λ n. n ≡ length (bytes_of_part part.now)) }
{
    match part {
        SubRecord::Root { first, second, .. } => {
            more(5, further_size(*first), further_size(*second) as usize)
        }
        SubRecord::HeapInfo { .. } => Some(9),
        SubRecord::ClassDump {
            constants,
            statics,
            fields,
            ..
        } => class_size(constants.as_slice(), statics.as_slice(), fields.as_slice()),
        SubRecord::Instance { bytes, .. } => more(17, 0, bytes.as_slice().len()),
        SubRecord::ObjectArray { items, .. } => array_size(items.as_slice()),
        SubRecord::PrimitiveArray { bytes, .. } => more(14, 0, bytes.as_slice().len()),
        SubRecord::NoData { .. } => Some(14),
    }
}

/// The bytes of a part more than so many.
fn with_part(size: u32, part: &SubRecord) -> Option<u32>
    ensures { IfSome result (λ n. n ≡ size + length (bytes_of_part part.now)) }
{
    more(size, part_size(part)?, 0)
}

/// The bytes of parts, one after another.
pub(crate) fn parts_size(parts: &[SubRecord]) -> Result<u32, AllocError>
    ensures { IfOk result (λ n. n ≡ length (bytes_of_parts parts.now)) }
{
    let mut size = 0;
    for part in parts {
        let Some(next) = with_part(size, part) else {
            return Err(AllocError);
        };
        size = next;
    }
    Ok(size)
}
