//! The parts of a segment.
ghost use Rattle.std.specs.Prelude.{◌≡◌};
ghost use Rattle.hprof_read.specs.Reading.{Gives, kind_of, part_at, part_of_kind, bare_root, root_with_one, root_with_two, heap_info, class_dump, instance, object_array, primitive_array, no_data};

use crate::class_parts::{class_constants, class_fields, class_statics};
use crate::fields::{
    Halt, SHORT, Stop, bytes_of, counted, primitive_type, three_words, word, words,
};
use hprof_records::{Bytes, SubRecord};
use std::alloc::Global;

/// What the tag of a part tells.
#[derive(Clone, Copy, Debug, PartialEq, Eq)]
pub enum Kind {
    /// A root, or an unreachable object, with an identifier alone.
    Bare,
    /// A root with one further field.
    WithOne,
    /// A root with two further fields.
    WithTwo,
    Heap,
    Class,
    Object,
    Array,
    Numbers,
    NoNumbers,
}

/// What a tag tells. `None` where no part has it.
pub fn kind_of_tag(tag: u8) -> Option<Kind>
    ensures { result ≡ kind_of tag }
{
    match tag {
        0x05 | 0x07 | 0x89 | 0x8a | 0x8b | 0x8c | 0x8d | 0x90 | 0xff => Some(Kind::Bare),
        0x01 | 0x04 | 0x06 => Some(Kind::WithOne),
        0x02 | 0x03 | 0x08 | 0x8e => Some(Kind::WithTwo),
        0xfe => Some(Kind::Heap),
        0x20 => Some(Kind::Class),
        0x21 => Some(Kind::Object),
        0x22 => Some(Kind::Array),
        0x23 => Some(Kind::Numbers),
        0xc3 => Some(Kind::NoNumbers),
        _ => None,
    }
}

#[tactic(auto, unfolding(crate::specs::Reading::bare_root))]
fn read_bare_root(tag: u8, bytes: &[u8]) -> Result<(SubRecord, &[u8]), Halt>
    ensures { Gives (λ x. (x.0, x.1.now)) result (bare_root tag bytes.now) }
{
    let (id, rest) = word(bytes)?;
    Ok((
        SubRecord::Root {
            tag,
            id,
            first: None,
            second: None,
        },
        rest,
    ))
}

#[tactic(auto, unfolding(crate::specs::Reading::root_with_one))]
fn read_root_with_one(tag: u8, bytes: &[u8]) -> Result<(SubRecord, &[u8]), Halt>
    ensures { Gives (λ x. (x.0, x.1.now)) result (root_with_one tag bytes.now) }
{
    let (id, rest) = word(bytes)?;
    let (first, rest) = word(rest)?;
    Ok((
        SubRecord::Root {
            tag,
            id,
            first: Some(first),
            second: None,
        },
        rest,
    ))
}

#[tactic(auto, unfolding(crate::specs::Reading::root_with_two))]
fn read_root_with_two(tag: u8, bytes: &[u8]) -> Result<(SubRecord, &[u8]), Halt>
    ensures { Gives (λ x. (x.0, x.1.now)) result (root_with_two tag bytes.now) }
{
    let ((id, (first, second)), rest) = three_words(bytes)?;
    Ok((
        SubRecord::Root {
            tag,
            id,
            first: Some(first),
            second: Some(second),
        },
        rest,
    ))
}

#[tactic(auto, unfolding(crate::specs::Reading::heap_info))]
fn read_heap_info(bytes: &[u8]) -> Result<(SubRecord, &[u8]), Halt>
    ensures { Gives (λ x. (x.0, x.1.now)) result (heap_info bytes.now) }
{
    let (heap, rest) = word(bytes)?;
    let (name, rest) = word(rest)?;
    Ok((SubRecord::HeapInfo { heap, name }, rest))
}

#[tactic(auto, unfolding(crate::specs::Reading::class_dump))]
fn read_class_dump(alloc: Global, bytes: &[u8]) -> Result<(SubRecord, &[u8]), Halt>
    ensures { Gives (λ x. (x.0, x.1.now)) result (class_dump bytes.now) }
{
    let ((id, (stack, parent)), rest) = three_words(bytes)?;
    let ((loader, (signers, domain)), rest) = three_words(rest)?;
    let ((spare_a, (spare_b, size)), rest) = three_words(rest)?;
    let (constants, rest) = class_constants(alloc, rest)?;
    let (statics, rest) = class_statics(alloc, rest)?;
    let (fields, rest) = class_fields(alloc, rest)?;
    Ok((
        SubRecord::ClassDump {
            id,
            stack,
            parent,
            loader,
            signers,
            domain,
            spare_a,
            spare_b,
            size,
            constants,
            statics,
            fields,
        },
        rest,
    ))
}

#[tactic(auto, unfolding(crate::specs::Reading::instance))]
fn read_instance(alloc: Global, bytes: &[u8]) -> Result<(SubRecord, &[u8]), Halt>
    ensures { Gives (λ x. (x.0, x.1.now)) result (instance bytes.now) }
{
    let ((id, (stack, class)), rest) = three_words(bytes)?;
    let (values, rest) = counted(rest)?;
    let bytes = Bytes::of(alloc, values)?;
    Ok((
        SubRecord::Instance {
            id,
            stack,
            class,
            bytes,
        },
        rest,
    ))
}

#[tactic(auto, unfolding(crate::specs::Reading::object_array))]
fn read_object_array(alloc: Global, bytes: &[u8]) -> Result<(SubRecord, &[u8]), Halt>
    ensures { Gives (λ x. (x.0, x.1.now)) result (object_array bytes.now) }
{
    let ((id, (stack, count)), rest) = three_words(bytes)?;
    let (class, rest) = word(rest)?;
    let (items, rest) = words(alloc, count, rest)?;
    Ok((
        SubRecord::ObjectArray {
            id,
            stack,
            class,
            items,
        },
        rest,
    ))
}

#[tactic(auto, unfolding(crate::specs::Reading::primitive_array))]
fn read_primitive_array(alloc: Global, bytes: &[u8]) -> Result<(SubRecord, &[u8]), Halt>
    ensures { Gives (λ x. (x.0, x.1.now)) result (primitive_array bytes.now) }
{
    let ((id, (stack, count)), rest) = three_words(bytes)?;
    let (kind, rest) = primitive_type(rest)?;
    let (values, rest) = bytes_of(rest, count as usize * kind.bytes() as usize)?;
    let bytes = Bytes::of(alloc, values)?;
    Ok((
        SubRecord::PrimitiveArray {
            id,
            stack,
            code: kind.code(),
            count,
            bytes,
        },
        rest,
    ))
}

#[tactic(auto, unfolding(crate::specs::Reading::no_data))]
fn read_no_data(bytes: &[u8]) -> Result<(SubRecord, &[u8]), Halt>
    ensures { Gives (λ x. (x.0, x.1.now)) result (no_data bytes.now) }
{
    let ((id, (stack, count)), rest) = three_words(bytes)?;
    let (kind, rest) = primitive_type(rest)?;
    Ok((
        SubRecord::NoData {
            id,
            stack,
            count,
            code: kind.code(),
        },
        rest,
    ))
}

fn read_part_of(
    alloc: Global,
    kind: Kind,
    tag: u8,
    bytes: &[u8],
) -> Result<(SubRecord, &[u8]), Halt>
    ensures { Gives (λ x. (x.0, x.1.now)) result (part_of_kind kind tag bytes.now) }
{
    match kind {
        Kind::Bare => read_bare_root(tag, bytes),
        Kind::WithOne => read_root_with_one(tag, bytes),
        Kind::WithTwo => read_root_with_two(tag, bytes),
        Kind::Heap => read_heap_info(bytes),
        Kind::Class => read_class_dump(alloc, bytes),
        Kind::Object => read_instance(alloc, bytes),
        Kind::Array => read_object_array(alloc, bytes),
        Kind::Numbers => read_primitive_array(alloc, bytes),
        Kind::NoNumbers => read_no_data(bytes),
    }
}

/// The part of a segment that stands at the front.
#[tactic(auto, unfolding(crate::specs::Reading::part_at))]
pub fn read_part(alloc: Global, bytes: &[u8]) -> Result<(SubRecord, &[u8]), Halt>
    ensures { Gives (λ x. (x.0, x.1.now)) result (part_at bytes.now) }
{
    match bytes {
        [] => Err(SHORT),
        [tag, rest @ ..] => match kind_of_tag(*tag) {
            Some(kind) => read_part_of(alloc, kind, *tag, rest),
            None => Err(Halt::Stopped(Stop::Refused(bytes.len()))),
        },
    }
}
