//! The lines of a dump's parts and records.
ghost use Rattle.std.specs.Prelude.{◌≡◌, ◌≤◌, ◌++◌, [], length, OnOk, OnErr};
ghost use Rattle.std.specs.List.{flat_map};
ghost use Rattle.hprof_records.specs.declared.sub_record.SubRecord.TheVariants.{Root, HeapInfo, Instance, ObjectArray, PrimitiveArray, NoData};
ghost use Rattle.hprof_records.specs.declared.top_record.TopRecord.TheVariants.{Text, LoadClass, Trace, Segment, Other};
ghost use Rattle.ah_outside.specs.Outside.{FaultRose, Gained, GainedPrefix};
ghost use Rattle.hprof_list.specs.Listing.{constant_line, static_line, field_line, class_line, part_lines, record_lines, header_line, last_line, listing};
ghost use Rattle.hprof_list.specs.Putting.{Puts};

use crate::counts::{Sort, count_sort};
use crate::put::{id_of, put_ids_line, put_pieces, put_text_line, put_value_line, tag_of};
use ah_outside::{Failed, Sink};
use hprof_read::Dump;
use hprof_records::{Bytes, Ids, SubList, SubRecord, TopRecord};
use itoa::Buffer;

fn put_constant<W: Sink>(sink: &mut W, one: &(u16, u8, Bytes)) -> Result<(), Failed>
    ensures { Puts W.gained W.fault_count sink.old (constant_line one.now) sink.new result }
{
    let mut index = Buffer::new();
    let mut code = Buffer::new();
    put_value_line(
        sink,
        &[
            b"constant ",
            index.format(one.0).as_bytes(),
            b" type ",
            code.format(one.1).as_bytes(),
            b" ",
        ],
        one.2.as_slice(),
    )
}

fn put_static<W: Sink>(sink: &mut W, one: &(u32, u8, Bytes)) -> Result<(), Failed>
    ensures { Puts W.gained W.fault_count sink.old (static_line one.now) sink.new result }
{
    let mut name = Buffer::new();
    let mut code = Buffer::new();
    put_value_line(
        sink,
        &[
            b"static ",
            name.format(one.0).as_bytes(),
            b" type ",
            code.format(one.1).as_bytes(),
            b" ",
        ],
        one.2.as_slice(),
    )
}

fn put_field<W: Sink>(sink: &mut W, one: &(u32, u8)) -> Result<(), Failed>
    ensures { Puts W.gained W.fault_count sink.old (field_line one.now) sink.new result }
{
    let mut name = Buffer::new();
    let mut code = Buffer::new();
    put_pieces(
        sink,
        &[
            b"field ",
            name.format(one.0).as_bytes(),
            b" type ",
            code.format(one.1).as_bytes(),
            b"\n",
        ],
    )
}

fn put_constants<W: Sink>(sink: &mut W, list: &[(u16, u8, Bytes)]) -> Result<(), Failed>
    ensures { Puts W.gained W.fault_count sink.old (flat_map constant_line list.now) sink.new result }
{
    for one in list {
        put_constant(sink, one)?;
    }
    Ok(())
}

fn put_statics<W: Sink>(sink: &mut W, list: &[(u32, u8, Bytes)]) -> Result<(), Failed>
    ensures { Puts W.gained W.fault_count sink.old (flat_map static_line list.now) sink.new result }
{
    for one in list {
        put_static(sink, one)?;
    }
    Ok(())
}

fn put_fields<W: Sink>(sink: &mut W, list: &[(u32, u8)]) -> Result<(), Failed>
    ensures { Puts W.gained W.fault_count sink.old (flat_map field_line list.now) sink.new result }
{
    for one in list {
        put_field(sink, one)?;
    }
    Ok(())
}

/// What the first line of a class tells of the class itself.
#[derive(Drop)]
struct ClassHead {
    id: u32,
    stack: u32,
    parent: u32,
    loader: u32,
    signers: u32,
    domain: u32,
    size: u32,
}

/// The first line of a class, with the lengths of its lists.
fn put_class_line<W: Sink>(
    sink: &mut W,
    head: &ClassHead,
    constants: usize,
    statics: usize,
    fields: usize,
) -> Result<(), Failed>
    ensures { let h = head.now in Puts W.gained W.fault_count sink.old (class_line h.id h.stack h.parent h.loader h.signers h.domain h.size constants statics fields) sink.new result }
{
    let id = id_of(head.id);
    let parent = id_of(head.parent);
    let loader = id_of(head.loader);
    let signers = id_of(head.signers);
    let domain = id_of(head.domain);
    let mut stack_text = Buffer::new();
    let mut size_text = Buffer::new();
    let mut constants_text = Buffer::new();
    let mut statics_text = Buffer::new();
    let mut fields_text = Buffer::new();
    put_pieces(
        sink,
        &[
            b"class ",
            &id,
            b" stack ",
            stack_text.format(head.stack).as_bytes(),
            b" super ",
            &parent,
            b" loader ",
            &loader,
            b" signers ",
            &signers,
            b" domain ",
            &domain,
            b" size ",
            size_text.format(head.size).as_bytes(),
            b" constants ",
            constants_text.format(constants).as_bytes(),
            b" statics ",
            statics_text.format(statics).as_bytes(),
            b" fields ",
            fields_text.format(fields).as_bytes(),
            b"\n",
        ],
    )
}

/// The lines of a class's lists.
fn put_class_lists<W: Sink>(
    sink: &mut W,
    constants: &[(u16, u8, Bytes)],
    statics: &[(u32, u8, Bytes)],
    fields: &[(u32, u8)],
) -> Result<(), Failed>
    ensures { Puts W.gained W.fault_count sink.old (flat_map constant_line constants.now ++ (flat_map static_line statics.now ++ flat_map field_line fields.now)) sink.new result }
{
    put_constants(sink, constants)?;
    put_statics(sink, statics)?;
    put_fields(sink, fields)
}

/// The lines of a class.
fn put_class<W: Sink>(
    sink: &mut W,
    head: &ClassHead,
    constants: &[(u16, u8, Bytes)],
    statics: &[(u32, u8, Bytes)],
    fields: &[(u32, u8)],
) -> Result<(), Failed>
    ensures { let h = head.now in Puts W.gained W.fault_count sink.old (class_line h.id h.stack h.parent h.loader h.signers h.domain h.size (length constants.now) (length statics.now) (length fields.now) ++ (flat_map constant_line constants.now ++ (flat_map static_line statics.now ++ flat_map field_line fields.now))) sink.new result }
{
    put_class_line(sink, head, constants.len(), statics.len(), fields.len())?;
    put_class_lists(sink, constants, statics, fields)
}

fn put_root<W: Sink>(
    sink: &mut W,
    tag: u8,
    id: u32,
    first: Option<u32>,
    second: Option<u32>,
) -> Result<(), Failed>
    ensures { Puts W.gained W.fault_count sink.old (part_lines (Root tag id first second)) sink.new result }
{
    let mut first_text = Buffer::new();
    let mut second_text = Buffer::new();
    let tag = tag_of(tag);
    let id = id_of(id);
    match (first, second) {
        (None, None) => put_pieces(sink, &[b"root ", &tag, b" ", &id, b"\n"]),
        (Some(one), None) => {
            let one = first_text.format(one).as_bytes();
            put_pieces(sink, &[b"root ", &tag, b" ", &id, b" ", one, b"\n"])
        }
        (None, Some(two)) => {
            let two = second_text.format(two).as_bytes();
            put_pieces(sink, &[b"root ", &tag, b" ", &id, b" ", two, b"\n"])
        }
        (Some(one), Some(two)) => {
            let one = first_text.format(one).as_bytes();
            let two = second_text.format(two).as_bytes();
            put_pieces(
                sink,
                &[b"root ", &tag, b" ", &id, b" ", one, b" ", two, b"\n"],
            )
        }
    }
}

fn put_heap<W: Sink>(sink: &mut W, heap: u32, name: u32) -> Result<(), Failed>
    ensures { Puts W.gained W.fault_count sink.old (part_lines (HeapInfo heap name)) sink.new result }
{
    let mut heap_text = Buffer::new();
    let mut name_text = Buffer::new();
    put_pieces(
        sink,
        &[
            b"heap ",
            heap_text.format(heap).as_bytes(),
            b" name ",
            name_text.format(name).as_bytes(),
            b"\n",
        ],
    )
}

fn put_instance<W: Sink>(
    sink: &mut W,
    id: u32,
    stack: u32,
    class: u32,
    bytes: &Bytes,
) -> Result<(), Failed>
    ensures { Puts W.gained W.fault_count sink.old (part_lines (Instance id stack class bytes.now)) sink.new result }
{
    let id = id_of(id);
    let class = id_of(class);
    let mut stack_text = Buffer::new();
    put_value_line(
        sink,
        &[
            b"instance ",
            &id,
            b" stack ",
            stack_text.format(stack).as_bytes(),
            b" class ",
            &class,
            b" ",
        ],
        bytes.as_slice(),
    )
}

fn put_array<W: Sink>(
    sink: &mut W,
    id: u32,
    stack: u32,
    class: u32,
    items: &Ids,
) -> Result<(), Failed>
    ensures { Puts W.gained W.fault_count sink.old (part_lines (ObjectArray id stack class items.now)) sink.new result }
{
    let id = id_of(id);
    let class = id_of(class);
    let mut stack_text = Buffer::new();
    let mut count_text = Buffer::new();
    put_ids_line(
        sink,
        &[
            b"array ",
            &id,
            b" stack ",
            stack_text.format(stack).as_bytes(),
            b" class ",
            &class,
            b" count ",
            count_text.format(items.as_slice().len()).as_bytes(),
        ],
        items.as_slice(),
    )
}

fn put_numbers<W: Sink>(
    sink: &mut W,
    id: u32,
    stack: u32,
    code: u8,
    count: u32,
    bytes: &Bytes,
) -> Result<(), Failed>
    ensures { Puts W.gained W.fault_count sink.old (part_lines (PrimitiveArray id stack code count bytes.now)) sink.new result }
{
    let id = id_of(id);
    let mut stack_text = Buffer::new();
    let mut code_text = Buffer::new();
    let mut count_text = Buffer::new();
    put_value_line(
        sink,
        &[
            b"primitive ",
            &id,
            b" stack ",
            stack_text.format(stack).as_bytes(),
            b" type ",
            code_text.format(code).as_bytes(),
            b" count ",
            count_text.format(count).as_bytes(),
            b" ",
        ],
        bytes.as_slice(),
    )
}

fn put_no_data<W: Sink>(
    sink: &mut W,
    id: u32,
    stack: u32,
    count: u32,
    code: u8,
) -> Result<(), Failed>
    ensures { Puts W.gained W.fault_count sink.old (part_lines (NoData id stack count code)) sink.new result }
{
    let id = id_of(id);
    let mut stack_text = Buffer::new();
    let mut count_text = Buffer::new();
    let mut code_text = Buffer::new();
    put_pieces(
        sink,
        &[
            b"nodata ",
            &id,
            b" stack ",
            stack_text.format(stack).as_bytes(),
            b" count ",
            count_text.format(count).as_bytes(),
            b" type ",
            code_text.format(code).as_bytes(),
            b"\n",
        ],
    )
}

fn put_part<W: Sink>(sink: &mut W, part: &SubRecord) -> Result<(), Failed>
    ensures { Puts W.gained W.fault_count sink.old (part_lines part.now) sink.new result }
{
    match part {
        SubRecord::Root {
            tag,
            id,
            first,
            second,
        } => put_root(sink, *tag, *id, *first, *second),
        SubRecord::HeapInfo { heap, name } => put_heap(sink, *heap, *name),
        SubRecord::ClassDump {
            id,
            stack,
            parent,
            loader,
            signers,
            domain,
            size,
            constants,
            statics,
            fields,
            ..
        } => {
            let head = ClassHead {
                id: *id,
                stack: *stack,
                parent: *parent,
                loader: *loader,
                signers: *signers,
                domain: *domain,
                size: *size,
            };
            put_class(
                sink,
                &head,
                constants.as_slice(),
                statics.as_slice(),
                fields.as_slice(),
            )
        }
        SubRecord::Instance {
            id,
            stack,
            class,
            bytes,
        } => put_instance(sink, *id, *stack, *class, bytes),
        SubRecord::ObjectArray {
            id,
            stack,
            class,
            items,
        } => put_array(sink, *id, *stack, *class, items),
        SubRecord::PrimitiveArray {
            id,
            stack,
            code,
            count,
            bytes,
        } => put_numbers(sink, *id, *stack, *code, *count, bytes),
        SubRecord::NoData {
            id,
            stack,
            count,
            code,
        } => put_no_data(sink, *id, *stack, *count, *code),
    }
}

fn put_parts<W: Sink>(sink: &mut W, parts: &[SubRecord]) -> Result<(), Failed>
    ensures { Puts W.gained W.fault_count sink.old (flat_map part_lines parts.now) sink.new result }
{
    for part in parts {
        put_part(sink, part)?;
    }
    Ok(())
}

fn put_string<W: Sink>(sink: &mut W, id: u32, bytes: &Bytes) -> Result<(), Failed>
    ensures { Puts W.gained W.fault_count sink.old (record_lines (Text 0 id bytes.now)) sink.new result }
{
    let mut id_text = Buffer::new();
    put_text_line(
        sink,
        &[b"string ", id_text.format(id).as_bytes(), b" "],
        bytes.as_slice(),
    )
}

fn put_load<W: Sink>(
    sink: &mut W,
    serial: u32,
    class: u32,
    stack: u32,
    name: u32,
) -> Result<(), Failed>
    ensures { Puts W.gained W.fault_count sink.old (record_lines (LoadClass 0 serial class stack name [])) sink.new result }
{
    let class = id_of(class);
    let mut serial_text = Buffer::new();
    let mut stack_text = Buffer::new();
    let mut name_text = Buffer::new();
    put_pieces(
        sink,
        &[
            b"load ",
            serial_text.format(serial).as_bytes(),
            b" class ",
            &class,
            b" stack ",
            stack_text.format(stack).as_bytes(),
            b" name ",
            name_text.format(name).as_bytes(),
            b"\n",
        ],
    )
}

fn put_trace<W: Sink>(sink: &mut W, serial: u32, thread: u32, frames: &Ids) -> Result<(), Failed>
    ensures { Puts W.gained W.fault_count sink.old (record_lines (Trace 0 serial thread frames.now [])) sink.new result }
{
    let mut serial_text = Buffer::new();
    let mut thread_text = Buffer::new();
    let mut count_text = Buffer::new();
    put_ids_line(
        sink,
        &[
            b"trace ",
            serial_text.format(serial).as_bytes(),
            b" thread ",
            thread_text.format(thread).as_bytes(),
            b" frames ",
            count_text.format(frames.as_slice().len()).as_bytes(),
        ],
        frames.as_slice(),
    )
}

fn put_other<W: Sink>(sink: &mut W, tag: u8, body: &Bytes) -> Result<(), Failed>
    ensures { Puts W.gained W.fault_count sink.old (record_lines (Other 0 tag body.now)) sink.new result }
{
    let tag = tag_of(tag);
    let mut length_text = Buffer::new();
    put_pieces(
        sink,
        &[
            b"other ",
            &tag,
            b" length ",
            length_text.format(body.as_slice().len()).as_bytes(),
            b"\n",
        ],
    )
}

fn put_segment<W: Sink>(sink: &mut W, tag: u8, length: u32, parts: &SubList) -> Result<(), Failed>
    ensures { Puts W.gained W.fault_count sink.old (record_lines (Segment 0 tag length parts.now)) sink.new result }
{
    let tag = tag_of(tag);
    let mut length_text = Buffer::new();
    put_pieces(
        sink,
        &[
            b"segment ",
            &tag,
            b" length ",
            length_text.format(length).as_bytes(),
            b"\n",
        ],
    )?;
    put_parts(sink, parts.as_slice())
}

fn put_record<W: Sink>(sink: &mut W, one: &TopRecord) -> Result<(), Failed>
    ensures { Puts W.gained W.fault_count sink.old (record_lines one.now) sink.new result }
{
    match one {
        TopRecord::Text { id, bytes, .. } => put_string(sink, *id, bytes),
        TopRecord::LoadClass {
            serial,
            class,
            stack,
            name,
            ..
        } => put_load(sink, *serial, *class, *stack, *name),
        TopRecord::Trace {
            serial,
            thread,
            frames,
            ..
        } => put_trace(sink, *serial, *thread, frames),
        TopRecord::Segment {
            tag,
            length,
            parts,
            ..
        } => put_segment(sink, *tag, *length, parts),
        TopRecord::Other { tag, body, .. } => put_other(sink, *tag, body),
    }
}

fn put_records<W: Sink>(sink: &mut W, records: &[TopRecord]) -> Result<(), Failed>
    ensures { Puts W.gained W.fault_count sink.old (flat_map record_lines records.now) sink.new result }
{
    for one in records {
        put_record(sink, one)?;
    }
    Ok(())
}

fn put_header<W: Sink>(sink: &mut W, time: u64) -> Result<(), Failed>
    ensures { Puts W.gained W.fault_count sink.old (header_line time) sink.new result }
{
    let mut time_text = Buffer::new();
    put_pieces(
        sink,
        &[
            b"JAVA PROFILE 1.0.3 id 4 time ",
            time_text.format(time).as_bytes(),
            b"\n",
        ],
    )
}

fn put_last<W: Sink>(sink: &mut W, records: &[TopRecord]) -> Result<(), Failed>
    ensures { Puts W.gained W.fault_count sink.old (last_line records.now) sink.new result }
{
    let mut count_text = Buffer::new();
    let mut classes_text = Buffer::new();
    let mut objects_text = Buffer::new();
    let mut roots_text = Buffer::new();
    put_pieces(
        sink,
        &[
            b"records ",
            count_text.format(records.len()).as_bytes(),
            b" classes ",
            classes_text
                .format(count_sort(Sort::Classes, records))
                .as_bytes(),
            b" objects ",
            objects_text
                .format(count_sort(Sort::Objects, records))
                .as_bytes(),
            b" roots ",
            roots_text
                .format(count_sort(Sort::Roots, records))
                .as_bytes(),
            b"\n",
        ],
    )
}

/// The listing, line by line.
fn put_listing<W: Sink>(sink: &mut W, time: u64, records: &[TopRecord]) -> Result<(), Failed>
    ensures { Puts W.gained W.fault_count sink.old (listing time records.now) sink.new result }
{
    put_header(sink, time)?;
    put_records(sink, records)?;
    put_last(sink, records)
}

/// Puts the listing of a dump. After `Failed` some first bytes of it may have been taken.
pub fn write_listing<W: Sink>(dump: &Dump, sink: &mut W) -> Result<(), Failed>
    ensures ok { OnOk result (Gained (W.gained sink.old) (listing dump.now.time dump.now.top) (W.gained sink.new)) }
    ensures failed { OnErr result (GainedPrefix (W.gained sink.old) (listing dump.now.time dump.now.top) (W.gained sink.new)) }
    ensures cause { OnErr result (FaultRose (W.fault_count sink.old) (W.fault_count sink.new)) }
    ensures never_falls { W.fault_count sink.old ≤ W.fault_count sink.new }
{
    put_listing(sink, dump.time, dump.top.as_slice())
}
