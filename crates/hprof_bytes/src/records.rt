//! The records, and a whole dump.
ghost use Rattle.std.specs.Prelude.{◌≡◌, ◌+◌, ◌*◌, ◌<◌, ◌^◌, ◌≤◌, ◌++◌, length, OnOk, OnErr};
ghost use Rattle.std.specs.List.{All, flat_map};
ghost use Rattle.hprof_records.specs.declared.top_record.TopRecord.TheVariants.{Text, LoadClass, Trace, Segment, Other};
ghost use Rattle.hprof_records.specs.Formed.{IsPart, IsWord};
ghost use Rattle.hprof_records.specs.Parts.{word, bytes_of_parts};
ghost use Rattle.hprof_records.specs.Records.{body_of, bytes_of_record, bytes_of_records, header_bytes, dump_bytes};
ghost use Rattle.hprof_records.specs.Dump.{IsRecord, AreRecords};
ghost use Rattle.ah_outside.specs.Outside.{FaultRose, Gained, GainedPrefix};
ghost use Rattle.hprof_list.specs.Putting.{Puts};

use crate::fields::{byte, double, word};
use crate::parts::{put_parts, put_words};
use ah_outside::{Failed, Sink};
use hprof_list::{put_piece, put_pieces};
use hprof_read::Dump;
use hprof_records::{SubRecord, TopRecord};

fn put_text<W: Sink>(sink: &mut W, time: u32, id: u32, bytes: &[u8]) -> Result<(), Failed>
    requires { 4 + length bytes.now < 2 ^ 32 }
    ensures { Puts W.gained W.fault_count sink.old (bytes_of_record (Text time id bytes.now)) sink.new result }
{
    let tag = byte(0x01);
    let time = word(time);
    let length = word((4 + bytes.len()) as u32);
    let id = word(id);
    put_pieces(sink, &[&tag, &time, &length, &id, bytes])
}

fn put_load<W: Sink>(
    sink: &mut W,
    time: u32,
    serial: u32,
    class: u32,
    stack: u32,
    name: u32,
    rest: &[u8],
) -> Result<(), Failed>
    requires { 16 + length rest.now < 2 ^ 32 }
    ensures { Puts W.gained W.fault_count sink.old (bytes_of_record (LoadClass time serial class stack name rest.now)) sink.new result }
{
    let tag = byte(0x02);
    let time = word(time);
    let length = word((16 + rest.len()) as u32);
    let serial = word(serial);
    let class = word(class);
    let stack = word(stack);
    let name = word(name);
    put_pieces(
        sink,
        &[&tag, &time, &length, &serial, &class, &stack, &name, rest],
    )
}

fn put_trace<W: Sink>(
    sink: &mut W,
    time: u32,
    serial: u32,
    thread: u32,
    frames: &[u32],
    rest: &[u8],
) -> Result<(), Failed>
    requires { 12 + 4 * length frames.now + length rest.now < 2 ^ 32 }
    ensures { Puts W.gained W.fault_count sink.old (bytes_of_record (Trace time serial thread frames.now rest.now)) sink.new result }
{
    let tag = byte(0x05);
    let time = word(time);
    let length = word((12 + 4 * frames.len() + rest.len()) as u32);
    let serial = word(serial);
    let thread = word(thread);
    let count = word(frames.len() as u32);
    put_pieces(sink, &[&tag, &time, &length, &serial, &thread, &count])?;
    put_words(sink, frames)?;
    put_piece(sink, rest)
}

fn put_segment<W: Sink>(
    sink: &mut W,
    time: u32,
    tag: u8,
    size: u32,
    parts: &[SubRecord],
) -> Result<(), Failed>
    requires formed { All IsPart parts.now }
    requires counted { size ≡ length (bytes_of_parts parts.now) }
    ensures { Puts W.gained W.fault_count sink.old (bytes_of_record (Segment time tag size parts.now)) sink.new result }
{
    put_pieces(sink, &[&byte(tag), &word(time), &word(size)])?;
    put_parts(sink, parts)
}

fn put_other<W: Sink>(sink: &mut W, time: u32, tag: u8, body: &[u8]) -> Result<(), Failed>
    requires { IsWord (length body.now) }
    ensures { Puts W.gained W.fault_count sink.old (bytes_of_record (Other time tag body.now)) sink.new result }
{
    let tag = byte(tag);
    let time = word(time);
    let length = word(body.len() as u32);
    put_pieces(sink, &[&tag, &time, &length, body])
}

fn put_record<W: Sink>(sink: &mut W, one: &TopRecord) -> Result<(), Failed>
    requires { IsRecord one.now }
    ensures { Puts W.gained W.fault_count sink.old (bytes_of_record one.now) sink.new result }
{
    match one {
        TopRecord::Text { time, id, bytes } => put_text(sink, *time, *id, bytes.as_slice()),
        TopRecord::LoadClass {
            time,
            serial,
            class,
            stack,
            name,
            rest,
        } => put_load(sink, *time, *serial, *class, *stack, *name, rest.as_slice()),
        TopRecord::Trace {
            time,
            serial,
            thread,
            frames,
            rest,
        } => put_trace(
            sink,
            *time,
            *serial,
            *thread,
            frames.as_slice(),
            rest.as_slice(),
        ),
        TopRecord::Segment {
            time,
            tag,
            length,
            parts,
        } => put_segment(sink, *time, *tag, *length, parts.as_slice()),
        TopRecord::Other { time, tag, body } => put_other(sink, *time, *tag, body.as_slice()),
    }
}

fn put_records<W: Sink>(sink: &mut W, records: &[TopRecord]) -> Result<(), Failed>
    requires { AreRecords records.now }
    ensures { Puts W.gained W.fault_count sink.old (bytes_of_records records.now) sink.new result }
{
    for one in records {
        put_record(sink, one)?;
    }
    Ok(())
}

fn put_header<W: Sink>(sink: &mut W, time: u64) -> Result<(), Failed>
    ensures { Puts W.gained W.fault_count sink.old (header_bytes time) sink.new result }
{
    put_pieces(
        sink,
        &[b"JAVA PROFILE 1.0.3", b"\0", &word(4), &double(time)],
    )
}

/// The dump, from the header on.
fn put_dump<W: Sink>(sink: &mut W, time: u64, records: &[TopRecord]) -> Result<(), Failed>
    requires { AreRecords records.now }
    ensures { Puts W.gained W.fault_count sink.old (dump_bytes time records.now) sink.new result }
{
    put_header(sink, time)?;
    put_records(sink, records)
}

/// Puts the bytes of a dump whose records are well formed. It takes no memory. After `Failed` some first bytes of them
/// may have been taken.
pub fn write_bytes<W: Sink>(dump: &Dump, sink: &mut W) -> Result<(), Failed>
    requires { AreRecords dump.now.top }
    ensures ok { OnOk result (Gained (W.gained sink.old) (dump_bytes dump.now.time dump.now.top) (W.gained sink.new)) }
    ensures failed { OnErr result (GainedPrefix (W.gained sink.old) (dump_bytes dump.now.time dump.now.top) (W.gained sink.new)) }
    ensures cause { OnErr result (FaultRose (W.fault_count sink.old) (W.fault_count sink.new)) }
    ensures never_falls { W.fault_count sink.old ≤ W.fault_count sink.new }
{
    put_dump(sink, dump.time, dump.top.as_slice())
}
