//! The parts of segments.
ghost use Rattle.std.specs.Prelude.{◌≡◌, [], ◌∷◌, ◌++◌, length};
ghost use Rattle.std.specs.List.{All, concat, flat_map};
ghost use Rattle.hprof_records.specs.declared.sub_record.SubRecord.TheVariants.{Root, HeapInfo, ClassDump, Instance, ObjectArray, PrimitiveArray, NoData};
ghost use Rattle.hprof_records.specs.Fields.{field};
ghost use Rattle.hprof_records.specs.Formed.{IsHalf, IsWord, IsPart};
ghost use Rattle.hprof_records.specs.Parts.{word, constant_bytes, static_bytes, field_name_bytes, bytes_of_part, bytes_of_parts};
ghost use Rattle.hprof_list.specs.Putting.{Puts};
ghost use Rattle.hprof_bytes.specs.Head.{class_head};

use crate::fields::{byte, half, word};
use ah_outside::{Failed, Sink};
use hprof_list::{put_piece, put_pieces};
use hprof_records::{Bytes, Ids, SubRecord};

fn put_constant<W: Sink>(sink: &mut W, one: &(u16, u8, Bytes)) -> Result<(), Failed>
    ensures { Puts W.gained W.fault_count sink.old (constant_bytes one.now) sink.new result }
{
    put_pieces(sink, &[&half(one.0), &byte(one.1), one.2.as_slice()])
}

fn put_static<W: Sink>(sink: &mut W, one: &(u32, u8, Bytes)) -> Result<(), Failed>
    ensures { Puts W.gained W.fault_count sink.old (static_bytes one.now) sink.new result }
{
    put_pieces(sink, &[&word(one.0), &byte(one.1), one.2.as_slice()])
}

fn put_field<W: Sink>(sink: &mut W, one: &(u32, u8)) -> Result<(), Failed>
    ensures { Puts W.gained W.fault_count sink.old (field_name_bytes one.now) sink.new result }
{
    put_pieces(sink, &[&word(one.0), &byte(one.1)])
}

fn put_constants<W: Sink>(sink: &mut W, list: &[(u16, u8, Bytes)]) -> Result<(), Failed>
    ensures { Puts W.gained W.fault_count sink.old (flat_map constant_bytes list.now) sink.new result }
{
    for one in list {
        put_constant(sink, one)?;
    }
    Ok(())
}

fn put_statics<W: Sink>(sink: &mut W, list: &[(u32, u8, Bytes)]) -> Result<(), Failed>
    ensures { Puts W.gained W.fault_count sink.old (flat_map static_bytes list.now) sink.new result }
{
    for one in list {
        put_static(sink, one)?;
    }
    Ok(())
}

fn put_fields<W: Sink>(sink: &mut W, list: &[(u32, u8)]) -> Result<(), Failed>
    ensures { Puts W.gained W.fault_count sink.old (flat_map field_name_bytes list.now) sink.new result }
{
    for one in list {
        put_field(sink, one)?;
    }
    Ok(())
}

/// Identifiers, one after another.
pub(crate) fn put_words<W: Sink>(sink: &mut W, ids: &[u32]) -> Result<(), Failed>
    ensures { Puts W.gained W.fault_count sink.old (flat_map word ids.now) sink.new result }
{
    for id in ids {
        put_piece(sink, &word(*id))?;
    }
    Ok(())
}

/// How many constants there are, and these.
fn put_counted_constants<W: Sink>(sink: &mut W, list: &[(u16, u8, Bytes)]) -> Result<(), Failed>
    requires { IsHalf (length list.now) }
    ensures { Puts W.gained W.fault_count sink.old (field 2 (length list.now) ++ flat_map constant_bytes list.now) sink.new result }
{
    put_piece(sink, &half(list.len() as u16))?;
    put_constants(sink, list)
}

/// How many static fields there are, and these.
fn put_counted_statics<W: Sink>(sink: &mut W, list: &[(u32, u8, Bytes)]) -> Result<(), Failed>
    requires { IsHalf (length list.now) }
    ensures { Puts W.gained W.fault_count sink.old (field 2 (length list.now) ++ flat_map static_bytes list.now) sink.new result }
{
    put_piece(sink, &half(list.len() as u16))?;
    put_statics(sink, list)
}

/// How many fields there are, and these.
fn put_counted_fields<W: Sink>(sink: &mut W, list: &[(u32, u8)]) -> Result<(), Failed>
    requires { IsHalf (length list.now) }
    ensures { Puts W.gained W.fault_count sink.old (field 2 (length list.now) ++ flat_map field_name_bytes list.now) sink.new result }
{
    put_piece(sink, &half(list.len() as u16))?;
    put_fields(sink, list)
}

/// What stands in a class dump before its lists.
#[derive(Drop)]
struct ClassHead {
    id: u32,
    stack: u32,
    parent: u32,
    loader: u32,
    signers: u32,
    domain: u32,
    spare_a: u32,
    spare_b: u32,
    size: u32,
}

fn put_class_head<W: Sink>(sink: &mut W, head: &ClassHead) -> Result<(), Failed>
    ensures { let h = head.now in Puts W.gained W.fault_count sink.old (class_head h.id h.stack h.parent h.loader h.signers h.domain h.spare_a h.spare_b h.size) sink.new result }
{
    let tag = byte(0x20);
    let id = word(head.id);
    let stack = word(head.stack);
    let parent = word(head.parent);
    let loader = word(head.loader);
    let signers = word(head.signers);
    let domain = word(head.domain);
    let spare_a = word(head.spare_a);
    let spare_b = word(head.spare_b);
    let size = word(head.size);
    put_pieces(
        sink,
        &[
            &tag, &id, &stack, &parent, &loader, &signers, &domain, &spare_a, &spare_b, &size,
        ],
    )
}

/// The lists of a class, each behind its count.
fn put_class_lists<W: Sink>(
    sink: &mut W,
    constants: &[(u16, u8, Bytes)],
    statics: &[(u32, u8, Bytes)],
    fields: &[(u32, u8)],
) -> Result<(), Failed>
    requires constants { IsHalf (length constants.now) }
    requires statics { IsHalf (length statics.now) }
    requires fields { IsHalf (length fields.now) }
    ensures { Puts W.gained W.fault_count sink.old ((field 2 (length constants.now) ++ flat_map constant_bytes constants.now) ++ ((field 2 (length statics.now) ++ flat_map static_bytes statics.now) ++ (field 2 (length fields.now) ++ flat_map field_name_bytes fields.now))) sink.new result }
{
    put_counted_constants(sink, constants)?;
    put_counted_statics(sink, statics)?;
    put_counted_fields(sink, fields)
}

fn put_class<W: Sink>(
    sink: &mut W,
    head: &ClassHead,
    constants: &[(u16, u8, Bytes)],
    statics: &[(u32, u8, Bytes)],
    fields: &[(u32, u8)],
) -> Result<(), Failed>
    requires constants { IsHalf (length constants.now) }
    requires statics { IsHalf (length statics.now) }
    requires fields { IsHalf (length fields.now) }
    ensures { let h = head.now in Puts W.gained W.fault_count sink.old (bytes_of_part (ClassDump h.id h.stack h.parent h.loader h.signers h.domain h.spare_a h.spare_b h.size constants.now statics.now fields.now)) sink.new result }
{
    put_class_head(sink, head)?;
    put_class_lists(sink, constants, statics, fields)
}

fn put_root<W: Sink>(
    sink: &mut W,
    tag: u8,
    id: u32,
    first: Option<u32>,
    second: Option<u32>,
) -> Result<(), Failed>
    ensures { Puts W.gained W.fault_count sink.old (bytes_of_part (Root tag id first second)) sink.new result }
{
    let tag = byte(tag);
    let id = word(id);
    match (first, second) {
        (None, None) => put_pieces(sink, &[&tag, &id]),
        (Some(one), None) => put_pieces(sink, &[&tag, &id, &word(one)]),
        (None, Some(two)) => put_pieces(sink, &[&tag, &id, &word(two)]),
        (Some(one), Some(two)) => put_pieces(sink, &[&tag, &id, &word(one), &word(two)]),
    }
}

fn put_heap<W: Sink>(sink: &mut W, heap: u32, name: u32) -> Result<(), Failed>
    ensures { Puts W.gained W.fault_count sink.old (bytes_of_part (HeapInfo heap name)) sink.new result }
{
    put_pieces(sink, &[&byte(0xfe), &word(heap), &word(name)])
}

fn put_instance<W: Sink>(
    sink: &mut W,
    id: u32,
    stack: u32,
    class: u32,
    bytes: &[u8],
) -> Result<(), Failed>
    requires { IsWord (length bytes.now) }
    ensures { Puts W.gained W.fault_count sink.old (bytes_of_part (Instance id stack class bytes.now)) sink.new result }
{
    let id = word(id);
    let stack = word(stack);
    let class = word(class);
    let count = word(bytes.len() as u32);
    put_pieces(sink, &[&byte(0x21), &id, &stack, &class, &count, bytes])
}

fn put_array<W: Sink>(
    sink: &mut W,
    id: u32,
    stack: u32,
    class: u32,
    items: &[u32],
) -> Result<(), Failed>
    requires { IsWord (length items.now) }
    ensures { Puts W.gained W.fault_count sink.old (bytes_of_part (ObjectArray id stack class items.now)) sink.new result }
{
    let id = word(id);
    let stack = word(stack);
    let count = word(items.len() as u32);
    let class = word(class);
    put_pieces(sink, &[&byte(0x22), &id, &stack, &count, &class])?;
    put_words(sink, items)
}

fn put_numbers<W: Sink>(
    sink: &mut W,
    id: u32,
    stack: u32,
    code: u8,
    count: u32,
    bytes: &[u8],
) -> Result<(), Failed>
    ensures { Puts W.gained W.fault_count sink.old (bytes_of_part (PrimitiveArray id stack code count bytes.now)) sink.new result }
{
    let tag = byte(0x23);
    let id = word(id);
    let stack = word(stack);
    let count = word(count);
    let code = byte(code);
    put_pieces(sink, &[&tag, &id, &stack, &count, &code, bytes])
}

fn put_no_data<W: Sink>(
    sink: &mut W,
    id: u32,
    stack: u32,
    count: u32,
    code: u8,
) -> Result<(), Failed>
    ensures { Puts W.gained W.fault_count sink.old (bytes_of_part (NoData id stack count code)) sink.new result }
{
    let tag = byte(0xc3);
    let id = word(id);
    let stack = word(stack);
    let count = word(count);
    let code = byte(code);
    put_pieces(sink, &[&tag, &id, &stack, &count, &code])
}

fn put_part<W: Sink>(sink: &mut W, part: &SubRecord) -> Result<(), Failed>
    requires { IsPart part.now }
    ensures { Puts W.gained W.fault_count sink.old (bytes_of_part part.now) sink.new result }
{
    match part {
        SubRecord::Root {
            tag,
            id,
            first,
            second,
        } => put_root(sink, *tag, *id, *first, *second),
        SubRecord::HeapInfo { heap, name } => put_heap(sink, *heap, *name),
        SubRecord::ClassDump {
            id,
            stack,
            parent,
            loader,
            signers,
            domain,
            spare_a,
            spare_b,
            size,
            constants,
            statics,
            fields,
        } => {
            let head = ClassHead {
                id: *id,
                stack: *stack,
                parent: *parent,
                loader: *loader,
                signers: *signers,
                domain: *domain,
                spare_a: *spare_a,
                spare_b: *spare_b,
                size: *size,
            };
            put_class(
                sink,
                &head,
                constants.as_slice(),
                statics.as_slice(),
                fields.as_slice(),
            )
        }
        SubRecord::Instance {
            id,
            stack,
            class,
            bytes,
        } => put_instance(sink, *id, *stack, *class, bytes.as_slice()),
        SubRecord::ObjectArray {
            id,
            stack,
            class,
            items,
        } => put_array(sink, *id, *stack, *class, items.as_slice()),
        SubRecord::PrimitiveArray {
            id,
            stack,
            code,
            count,
            bytes,
        } => put_numbers(sink, *id, *stack, *code, *count, bytes.as_slice()),
        SubRecord::NoData {
            id,
            stack,
            count,
            code,
        } => put_no_data(sink, *id, *stack, *count, *code),
    }
}

/// The parts, one after another.
pub(crate) fn put_parts<W: Sink>(sink: &mut W, parts: &[SubRecord]) -> Result<(), Failed>
    requires { All IsPart parts.now }
    ensures { Puts W.gained W.fault_count sink.old (bytes_of_parts parts.now) sink.new result }
{
    for part in parts {
        put_part(sink, part)?;
    }
    Ok(())
}
