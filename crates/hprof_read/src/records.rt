//! The records of a dump.
ghost use Rattle.std.specs.Prelude.{◌≡◌, ◌≢◌, ◌+◌, ◌<◌, ◌^◌, ◌≤◌, ◌++◌, length, IsTrue, IfOk, IfErr};
ghost use Rattle.std.specs.List.{All};
ghost use Rattle.hprof_records.specs.Parts.{bytes_of_parts};
ghost use Rattle.hprof_records.specs.Records.{tag_of, time_of, body_of, bytes_of_record};
ghost use Rattle.hprof_records.specs.Formed.{IsPart, is_one_of};
ghost use Rattle.hprof_records.specs.Dump.{segment_tags, HasFields, IsRecord};
ghost use Rattle.hprof_read.specs.Reading.{Gives, frame, text_of, load_of, trace_of, past_of, part_fault, with_place, IsWithin};
ghost use Rattle.hprof_read.specs.Fault.{BodyFault, ContentFault, NoRecord, RecordFault};

use crate::ReadError;
use crate::fields::{Halt, Stop, byte, counted, three_words, word, words};
use crate::parts::read_part;
use hprof_records::{Bytes, SubList, TopRecord};
use std::alloc::Global;

/// A record's tag, its time and its body, where they stand.
#[tactic(auto, unfolding(crate::specs::Reading::frame))]
pub fn read_frame(bytes: &[u8]) -> Result<((u8, (u32, &[u8])), &[u8]), Halt>
    ensures { Gives (λ x. ((x.0.0, (x.0.1.0, x.0.1.1.now)), x.1.now)) result (frame bytes.now) }
{
    let (tag, rest) = byte(bytes)?;
    let (time, rest) = word(rest)?;
    let (body, rest) = counted(rest)?;
    Ok(((tag, (time, body)), rest))
}

#[tactic(auto, unfolding(crate::specs::Reading::text_of, crate::specs::Reading::text_head))]
fn read_text(alloc: Global, time: u32, body: &[u8]) -> Result<TopRecord, Halt>
    ensures { Gives (λ r. r) result (text_of time body.now) }
{
    let (id, rest) = word(body)?;
    let bytes = Bytes::of(alloc, rest)?;
    Ok(TopRecord::Text { time, id, bytes })
}

#[tactic(auto, unfolding(crate::specs::Reading::load_of, crate::specs::Reading::load_head))]
fn read_load(alloc: Global, time: u32, body: &[u8]) -> Result<TopRecord, Halt>
    ensures { Gives (λ r. r) result (load_of time body.now) }
{
    let ((serial, (class, stack)), rest) = three_words(body)?;
    let (name, rest) = word(rest)?;
    let rest = Bytes::of(alloc, rest)?;
    Ok(TopRecord::LoadClass {
        time,
        serial,
        class,
        stack,
        name,
        rest,
    })
}

#[tactic(auto, unfolding(crate::specs::Reading::trace_of, crate::specs::Reading::trace_head))]
fn read_trace(alloc: Global, time: u32, body: &[u8]) -> Result<TopRecord, Halt>
    ensures { Gives (λ r. r) result (trace_of time body.now) }
{
    let (serial, rest) = word(body)?;
    let (thread, rest) = word(rest)?;
    let (count, rest) = word(rest)?;
    let (frames, rest) = words(alloc, count, rest)?;
    let rest = Bytes::of(alloc, rest)?;
    Ok(TopRecord::Trace {
        time,
        serial,
        thread,
        frames,
        rest,
    })
}

/// A record's fields. Where they pass its body, the fault is at the record's place.
fn fields_of(read: Result<TopRecord, Halt>, at: u64) -> Result<TopRecord, ReadError>
    ensures { result ≡ with_place read at }
{
    match read {
        Ok(record) => Ok(record),
        Err(Halt::OutOfMemory) => Err(ReadError::OutOfMemory),
        Err(Halt::Stopped(_)) => Err(ReadError::PastEnd { offset: at }),
    }
}

/// What is wrong with a part, where so many bytes are left from it to the end of its segment.
fn fault_of(halt: Halt, left: usize, end: u64) -> ReadError
    requires within { IsWithin halt left }
    requires fits { left ≤ end }
    ensures { result ≡ part_fault halt left end }
{
    match halt {
        Halt::OutOfMemory => ReadError::OutOfMemory,
        Halt::Stopped(Stop::Short) => ReadError::PastEnd {
            offset: end - left as u64,
        },
        Halt::Stopped(Stop::Refused(n)) => {
            if n == left {
                ReadError::UnknownTag {
                    offset: end - left as u64,
                }
            } else {
                ReadError::BadType {
                    offset: end - n as u64,
                }
            }
        }
    }
}

/// The parts of a segment, whose body stands at a place.
fn read_parts(alloc: Global, body: &[u8], at: u64) -> Result<SubList, ReadError>
    requires { at + length body.now < 2 ^ 64 }
    ensures found { IfOk result (λ parts. All IsPart parts × (body.now ≡ bytes_of_parts parts)) }
    ensures fault { IfErr result (λ e. e ≢ ReadError.OutOfMemory → BodyFault e body.now at) }
{
    let end = at + body.len() as u64;
    let mut parts = SubList::new(alloc);
    let mut rest = body;
    while !rest.is_empty() {
        match read_part(alloc, rest) {
            Ok((part, after)) => {
                parts.push(part)?;
                rest = after;
            }
            Err(halt) => return Err(fault_of(halt, rest.len(), end)),
        }
    }
    Ok(parts)
}

/// The segment with this tag, time and body, which stands at a place.
fn read_segment(
    alloc: Global,
    tag: u8,
    time: u32,
    body: &[u8],
    at: u64,
) -> Result<TopRecord, ReadError>
    requires known { IsTrue (is_one_of segment_tags tag) }
    requires place { at + length body.now < 2 ^ 64 }
    requires short { length body.now < 2 ^ 32 }
    ensures found { IfOk result (λ r. HasFields r × (tag_of r ≡ tag) × (time_of r ≡ time) × (body_of r ≡ body.now)) }
    ensures fault { IfErr result (λ e. e ≢ ReadError.OutOfMemory → BodyFault e body.now at) }
{
    let parts = read_parts(alloc, body, at)?;
    let length = body.len() as u32;
    Ok(TopRecord::Segment {
        time,
        tag,
        length,
        parts,
    })
}

/// The record with this tag, time and body. The record stands at a place, and its body 9 bytes behind.
fn read_body(
    alloc: Global,
    tag: u8,
    time: u32,
    body: &[u8],
    at: u64,
) -> Result<TopRecord, ReadError>
    requires place { at + 9 + length body.now < 2 ^ 64 }
    requires short { length body.now < 2 ^ 32 }
    ensures found { IfOk result (λ r. HasFields r × (tag_of r ≡ tag) × (time_of r ≡ time) × (body_of r ≡ body.now)) }
    ensures fault { IfErr result (λ e. e ≢ ReadError.OutOfMemory → ContentFault e tag body.now at) }
{
    match tag {
        0x01 => fields_of(read_text(alloc, time, body), at),
        0x02 => fields_of(read_load(alloc, time, body), at),
        0x05 => fields_of(read_trace(alloc, time, body), at),
        0x0c => read_segment(alloc, tag, time, body, at + 9),
        0x1c => read_segment(alloc, tag, time, body, at + 9),
        _ => {
            let body = Bytes::of(alloc, body)?;
            Ok(TopRecord::Other { time, tag, body })
        }
    }
}

/// The record at the front, which stands at a place, and the bytes after it.
pub fn read_record(alloc: Global, bytes: &[u8], at: u64) -> Result<(TopRecord, &[u8]), ReadError>
    requires { at + length bytes.now < 2 ^ 64 }
    ensures found { IfOk result (λ x. IsRecord x.0 × (bytes.now ≡ bytes_of_record x.0 ++ x.1.now)) }
    ensures fault { IfErr result (λ e. e ≢ ReadError.OutOfMemory → NoRecord bytes.now × RecordFault e bytes.now at) }
{
    match read_frame(bytes) {
        Ok(((tag, (time, body)), rest)) => {
            let record = read_body(alloc, tag, time, body, at)?;
            Ok((record, rest))
        }
        Err(Halt::OutOfMemory) => Err(ReadError::OutOfMemory),
        Err(Halt::Stopped(_)) => Err(ReadError::CutShort { offset: at }),
    }
}
