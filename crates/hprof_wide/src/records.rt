//! The records of a wide dump.
ghost use Rattle.std.specs.Prelude.{◌≡◌, ◌≢◌, ◌+◌, ◌<◌, ◌^◌, ◌≤◌, ◌++◌, length, IsTrue, IfOk, IfErr};
ghost use Rattle.std.specs.List.{All};
ghost use Rattle.hprof_records.specs.Formed.{is_one_of};
ghost use Rattle.hprof_records.specs.Dump.{segment_tags};
ghost use Rattle.hprof_read.specs.Reading.{Gives, IsWithin};
ghost use Rattle.hprof_wide.specs.Parts.{wide_parts_bytes};
ghost use Rattle.hprof_wide.specs.Records.{wide_tag_of, wide_time_of, wide_body_of, wide_record_bytes};
ghost use Rattle.hprof_wide.specs.Formed.{IsWidePart};
ghost use Rattle.hprof_wide.specs.Dump.{HasWideFields, IsWideRecord};
ghost use Rattle.hprof_wide.specs.Reading.{width_of, text_of, load_of, trace_of, part_fault, with_place};
ghost use Rattle.hprof_wide.specs.Fault.{WideBodyFault, WideContentFault, NoWideRecord, WideRecordFault};

use crate::ids::{IdSize, read_id, read_ids};
use crate::parts::read_part;
use crate::{WideError, WideSubList, WideTop};
use hprof_read::{Halt, Stop, read_frame, word};
use hprof_records::Bytes;
use std::alloc::Global;

#[tactic(auto, unfolding(crate::specs::Reading::text_of, crate::specs::Reading::text_head))]
fn read_text(alloc: Global, size: IdSize, time: u32, body: &[u8]) -> Result<WideTop, Halt>
    ensures { Gives (λ r. r) result (text_of size time body.now) }
{
    let (id, rest) = read_id(size, body)?;
    let bytes = Bytes::of(alloc, rest)?;
    Ok(WideTop::Text { time, id, bytes })
}

#[tactic(auto, unfolding(crate::specs::Reading::load_of, crate::specs::Reading::load_head))]
fn read_load(alloc: Global, size: IdSize, time: u32, body: &[u8]) -> Result<WideTop, Halt>
    ensures { Gives (λ r. r) result (load_of size time body.now) }
{
    let (serial, rest) = word(body)?;
    let (class, rest) = read_id(size, rest)?;
    let (stack, rest) = word(rest)?;
    let (name, rest) = read_id(size, rest)?;
    let rest = Bytes::of(alloc, rest)?;
    Ok(WideTop::LoadClass {
        time,
        serial,
        class,
        stack,
        name,
        rest,
    })
}

#[tactic(auto, unfolding(crate::specs::Reading::trace_of, crate::specs::Reading::trace_head))]
fn read_trace(alloc: Global, size: IdSize, time: u32, body: &[u8]) -> Result<WideTop, Halt>
    ensures { Gives (λ r. r) result (trace_of size time body.now) }
{
    let (serial, rest) = word(body)?;
    let (thread, rest) = word(rest)?;
    let (count, rest) = word(rest)?;
    let (frames, rest) = read_ids(alloc, size, count, rest)?;
    let rest = Bytes::of(alloc, rest)?;
    Ok(WideTop::Trace {
        time,
        serial,
        thread,
        frames,
        rest,
    })
}

/// A record's fields. Where they pass its body, the fault is at the record's place.
fn fields_of(read: Result<WideTop, Halt>, at: u64) -> Result<WideTop, WideError>
    ensures { result ≡ with_place read at }
{
    match read {
        Ok(record) => Ok(record),
        Err(Halt::OutOfMemory) => Err(WideError::OutOfMemory),
        Err(Halt::Stopped(_)) => Err(WideError::PastEnd { offset: at }),
    }
}

/// What is wrong with a part, where so many bytes are left from it to the end of its segment.
fn fault_of(halt: Halt, left: usize, end: u64) -> WideError
    requires within { IsWithin halt left }
    requires fits { left ≤ end }
    ensures { result ≡ part_fault halt left end }
{
    match halt {
        Halt::OutOfMemory => WideError::OutOfMemory,
        Halt::Stopped(Stop::Short) => WideError::PastEnd {
            offset: end - left as u64,
        },
        Halt::Stopped(Stop::Refused(n)) => {
            if n == left {
                WideError::UnknownTag {
                    offset: end - left as u64,
                }
            } else {
                WideError::BadType {
                    offset: end - n as u64,
                }
            }
        }
    }
}

/// The parts of a segment, whose body stands at a place.
fn read_parts(alloc: Global, size: IdSize, body: &[u8], at: u64) -> Result<WideSubList, WideError>
    requires { at + length body.now < 2 ^ 64 }
    ensures found { IfOk result (λ parts. All (IsWidePart (width_of size)) parts × (body.now ≡ wide_parts_bytes (width_of size) parts)) }
    ensures fault { IfErr result (λ e. e ≢ WideError.OutOfMemory → WideBodyFault (width_of size) e body.now at) }
{
    let end = at + body.len() as u64;
    let mut parts = WideSubList::new(alloc);
    let mut rest = body;
    while !rest.is_empty() {
        match read_part(alloc, size, rest) {
            Ok((part, after)) => {
                parts.push(part)?;
                rest = after;
            }
            Err(halt) => return Err(fault_of(halt, rest.len(), end)),
        }
    }
    Ok(parts)
}

/// The segment with this tag, time and body, which stands at a place.
fn read_segment(
    alloc: Global,
    size: IdSize,
    tag: u8,
    time: u32,
    body: &[u8],
    at: u64,
) -> Result<WideTop, WideError>
    requires known { IsTrue (is_one_of segment_tags tag) }
    requires place { at + length body.now < 2 ^ 64 }
    requires short { length body.now < 2 ^ 32 }
    ensures found { IfOk result (λ r. HasWideFields (width_of size) r × (wide_tag_of r ≡ tag) × (wide_time_of r ≡ time) × (wide_body_of (width_of size) r ≡ body.now)) }
    ensures fault { IfErr result (λ e. e ≢ WideError.OutOfMemory → WideBodyFault (width_of size) e body.now at) }
{
    let parts = read_parts(alloc, size, body, at)?;
    let length = body.len() as u32;
    Ok(WideTop::Segment {
        time,
        tag,
        length,
        parts,
    })
}

/// The record with this tag, time and body. The record stands at a place, and its body 9 bytes behind.
fn read_body(
    alloc: Global,
    size: IdSize,
    tag: u8,
    time: u32,
    body: &[u8],
    at: u64,
) -> Result<WideTop, WideError>
    requires place { at + 9 + length body.now < 2 ^ 64 }
    requires short { length body.now < 2 ^ 32 }
    ensures found { IfOk result (λ r. HasWideFields (width_of size) r × (wide_tag_of r ≡ tag) × (wide_time_of r ≡ time) × (wide_body_of (width_of size) r ≡ body.now)) }
    ensures fault { IfErr result (λ e. e ≢ WideError.OutOfMemory → WideContentFault (width_of size) e tag body.now at) }
{
    match tag {
        0x01 => fields_of(read_text(alloc, size, time, body), at),
        0x02 => fields_of(read_load(alloc, size, time, body), at),
        0x05 => fields_of(read_trace(alloc, size, time, body), at),
        0x0c => read_segment(alloc, size, tag, time, body, at + 9),
        0x1c => read_segment(alloc, size, tag, time, body, at + 9),
        _ => {
            let body = Bytes::of(alloc, body)?;
            Ok(WideTop::Other { time, tag, body })
        }
    }
}

/// The record at the front, which stands at a place, and the bytes after it.
pub fn read_record(
    alloc: Global,
    size: IdSize,
    bytes: &[u8],
    at: u64,
) -> Result<(WideTop, &[u8]), WideError>
    requires { at + length bytes.now < 2 ^ 64 }
    ensures found { IfOk result (λ x. IsWideRecord (width_of size) x.0 × (bytes.now ≡ wide_record_bytes (width_of size) x.0 ++ x.1.now)) }
    ensures fault { IfErr result (λ e. e ≢ WideError.OutOfMemory → NoWideRecord (width_of size) bytes.now × WideRecordFault (width_of size) e bytes.now at) }
{
    match read_frame(bytes) {
        Ok(((tag, (time, body)), rest)) => {
            let record = read_body(alloc, size, tag, time, body, at)?;
            Ok((record, rest))
        }
        Err(Halt::OutOfMemory) => Err(WideError::OutOfMemory),
        Err(Halt::Stopped(_)) => Err(WideError::CutShort { offset: at }),
    }
}
