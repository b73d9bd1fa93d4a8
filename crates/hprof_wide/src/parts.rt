//! The parts of a wide segment.
ghost use Rattle.std.specs.Prelude.{◌≡◌};
ghost use Rattle.hprof_read.specs.Reading.{Gives};
ghost use Rattle.hprof_wide.specs.Reading.{part_at, part_of_kind, bare_root, root_with_one, root_with_two, heap_info, class_dump, instance, object_array, primitive_array, no_data};

use crate::WideSub;
use crate::class_parts::{class_constants, class_fields, class_statics};
use crate::ids::{
    IdSize, read_array_head, read_class_size, read_further, read_id, read_ids, read_object_head,
    read_three_ids,
};
use hprof_read::{Halt, Kind, SHORT, Stop, bytes_of, counted, kind_of_tag, primitive_type, word};
use hprof_records::Bytes;
use std::alloc::Global;

#[tactic(auto, unfolding(crate::specs::Reading::bare_root))]
fn read_bare_root(size: IdSize, tag: u8, bytes: &[u8]) -> Result<(WideSub, &[u8]), Halt>
    ensures { Gives (λ x. (x.0, x.1.now)) result (bare_root size tag bytes.now) }
{
    let (id, rest) = read_id(size, bytes)?;
    Ok((
        WideSub::Root {
            tag,
            id,
            first: None,
            second: None,
        },
        rest,
    ))
}

#[tactic(auto, unfolding(crate::specs::Reading::root_with_one))]
fn read_root_with_one(size: IdSize, tag: u8, bytes: &[u8]) -> Result<(WideSub, &[u8]), Halt>
    ensures { Gives (λ x. (x.0, x.1.now)) result (root_with_one size tag bytes.now) }
{
    let (id, rest) = read_id(size, bytes)?;
    let (first, rest) = read_further(size, tag, rest)?;
    Ok((
        WideSub::Root {
            tag,
            id,
            first: Some(first),
            second: None,
        },
        rest,
    ))
}

#[tactic(auto, unfolding(crate::specs::Reading::root_with_two))]
fn read_root_with_two(size: IdSize, tag: u8, bytes: &[u8]) -> Result<(WideSub, &[u8]), Halt>
    ensures { Gives (λ x. (x.0, x.1.now)) result (root_with_two size tag bytes.now) }
{
    let ((id, (first, second)), rest) = read_array_head(size, bytes)?;
    Ok((
        WideSub::Root {
            tag,
            id,
            first: Some(first as u64),
            second: Some(second as u64),
        },
        rest,
    ))
}

#[tactic(auto, unfolding(crate::specs::Reading::heap_info))]
fn read_heap_info(size: IdSize, bytes: &[u8]) -> Result<(WideSub, &[u8]), Halt>
    ensures { Gives (λ x. (x.0, x.1.now)) result (heap_info size bytes.now) }
{
    let (heap, rest) = word(bytes)?;
    let (name, rest) = read_id(size, rest)?;
    Ok((WideSub::HeapInfo { heap, name }, rest))
}

#[tactic(auto, unfolding(crate::specs::Reading::class_dump))]
fn read_class_dump(alloc: Global, size: IdSize, bytes: &[u8]) -> Result<(WideSub, &[u8]), Halt>
    ensures { Gives (λ x. (x.0, x.1.now)) result (class_dump size bytes.now) }
{
    let ((id, (stack, parent)), rest) = read_object_head(size, bytes)?;
    let ((loader, (signers, domain)), rest) = read_three_ids(size, rest)?;
    let ((spare_a, (spare_b, instance_size)), rest) = read_class_size(size, rest)?;
    let (constants, rest) = class_constants(alloc, size, rest)?;
    let (statics, rest) = class_statics(alloc, size, rest)?;
    let (fields, rest) = class_fields(alloc, size, rest)?;
    Ok((
        WideSub::ClassDump {
            id,
            stack,
            parent,
            loader,
            signers,
            domain,
            spare_a,
            spare_b,
            size: instance_size,
            constants,
            statics,
            fields,
        },
        rest,
    ))
}

#[tactic(auto, unfolding(crate::specs::Reading::instance))]
fn read_instance(alloc: Global, size: IdSize, bytes: &[u8]) -> Result<(WideSub, &[u8]), Halt>
    ensures { Gives (λ x. (x.0, x.1.now)) result (instance size bytes.now) }
{
    let ((id, (stack, class)), rest) = read_object_head(size, bytes)?;
    let (values, rest) = counted(rest)?;
    let bytes = Bytes::of(alloc, values)?;
    Ok((
        WideSub::Instance {
            id,
            stack,
            class,
            bytes,
        },
        rest,
    ))
}

#[tactic(auto, unfolding(crate::specs::Reading::object_array))]
fn read_object_array(alloc: Global, size: IdSize, bytes: &[u8]) -> Result<(WideSub, &[u8]), Halt>
    ensures { Gives (λ x. (x.0, x.1.now)) result (object_array size bytes.now) }
{
    let ((id, (stack, count)), rest) = read_array_head(size, bytes)?;
    let (class, rest) = read_id(size, rest)?;
    let (items, rest) = read_ids(alloc, size, count, rest)?;
    Ok((
        WideSub::ObjectArray {
            id,
            stack,
            class,
            items,
        },
        rest,
    ))
}

#[tactic(auto, unfolding(crate::specs::Reading::primitive_array))]
fn read_primitive_array(alloc: Global, size: IdSize, bytes: &[u8]) -> Result<(WideSub, &[u8]), Halt>
    ensures { Gives (λ x. (x.0, x.1.now)) result (primitive_array size bytes.now) }
{
    let ((id, (stack, count)), rest) = read_array_head(size, bytes)?;
    let (kind, rest) = primitive_type(rest)?;
    let (values, rest) = bytes_of(rest, count as usize * kind.bytes() as usize)?;
    let bytes = Bytes::of(alloc, values)?;
    Ok((
        WideSub::PrimitiveArray {
            id,
            stack,
            code: kind.code(),
            count,
            bytes,
        },
        rest,
    ))
}

#[tactic(auto, unfolding(crate::specs::Reading::no_data))]
fn read_no_data(size: IdSize, bytes: &[u8]) -> Result<(WideSub, &[u8]), Halt>
    ensures { Gives (λ x. (x.0, x.1.now)) result (no_data size bytes.now) }
{
    let ((id, (stack, count)), rest) = read_array_head(size, bytes)?;
    let (kind, rest) = primitive_type(rest)?;
    Ok((
        WideSub::NoData {
            id,
            stack,
            count,
            code: kind.code(),
        },
        rest,
    ))
}

fn read_part_of(
    alloc: Global,
    size: IdSize,
    kind: Kind,
    tag: u8,
    bytes: &[u8],
) -> Result<(WideSub, &[u8]), Halt>
    ensures { Gives (λ x. (x.0, x.1.now)) result (part_of_kind kind size tag bytes.now) }
{
    match kind {
        Kind::Bare => read_bare_root(size, tag, bytes),
        Kind::WithOne => read_root_with_one(size, tag, bytes),
        Kind::WithTwo => read_root_with_two(size, tag, bytes),
        Kind::Heap => read_heap_info(size, bytes),
        Kind::Class => read_class_dump(alloc, size, bytes),
        Kind::Object => read_instance(alloc, size, bytes),
        Kind::Array => read_object_array(alloc, size, bytes),
        Kind::Numbers => read_primitive_array(alloc, size, bytes),
        Kind::NoNumbers => read_no_data(size, bytes),
    }
}

/// The part of a segment that stands at the front.
#[tactic(auto, unfolding(crate::specs::Reading::part_at))]
pub fn read_part(alloc: Global, size: IdSize, bytes: &[u8]) -> Result<(WideSub, &[u8]), Halt>
    ensures { Gives (λ x. (x.0, x.1.now)) result (part_at size bytes.now) }
{
    match bytes {
        [] => Err(SHORT),
        [tag, rest @ ..] => match kind_of_tag(*tag) {
            Some(kind) => read_part_of(alloc, size, kind, *tag, rest),
            None => Err(Halt::Stopped(Stop::Refused(bytes.len()))),
        },
    }
}
