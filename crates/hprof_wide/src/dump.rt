ghost use Rattle.std.specs.Prelude.{◌≡◌, ◌≢◌, ℕ, List, ◌+◌, ◌<◌, ◌^◌, ◌++◌, length, IfOk, IfErr, IfSome, IfNone};
ghost use Rattle.hprof_wide.specs.Records.{wide_records_bytes, wide_header_bytes};
ghost use Rattle.hprof_wide.specs.Dump.{AreWideRecords, IsHeader, IsWideDumpOf};
ghost use Rattle.hprof_wide.specs.Reading.{width_of};
ghost use Rattle.hprof_wide.specs.Fault.{BeginsFormat, WideHeaderFault, WideRecordsFault, IsFirstWideFault};

use crate::ids::IdSize;
use crate::records::read_record;
use crate::{WideError, WideList};
use hprof_records::{u32_at, u64_at};
use std::alloc::Global;

/// A wide dump: the bytes of its identifiers, the time of its header in milliseconds, and its records.
#[derive(Drop)]
pub struct WideDump {
    /// 4 or 8.
    pub width: u32,
    pub time: u64,
    pub top: WideList,
}

const MAGIC_2: [u8; 19] = *b"JAVA PROFILE 1.0.2\0";

const MAGIC_3: [u8; 19] = *b"JAVA PROFILE 1.0.3\0";

/// The bytes behind the text of one of the two formats. `None` exactly where neither stands at the front.
fn behind_text(bytes: &[u8]) -> Option<&[u8]>
    ensures found { IfSome result (λ rest. BeginsFormat bytes.now rest.now) }
    ensures none { IfNone result ((rest : List ℕ) → BeginsFormat bytes.now rest → ⊥) }
{
    if let Some(rest) = bytes.strip_prefix(&MAGIC_3) {
        return Some(rest);
    }
    if let Some(rest) = bytes.strip_prefix(&MAGIC_2) {
        return Some(rest);
    }
    None
}

/// The size of identifiers that a number of bytes tells. `None` exactly where it is neither 4 nor 8.
fn id_size(bytes: u32) -> Option<IdSize>
    ensures found { IfSome result (λ size. width_of size ≡ bytes) }
    ensures none { IfNone result ((bytes ≢ 4) × (bytes ≢ 8)) }
{
    match bytes {
        4 => Some(IdSize::Four),
        8 => Some(IdSize::Eight),
        _ => None,
    }
}

/// The size of identifiers, the header's time, and the bytes behind the header.
fn read_header(bytes: &[u8]) -> Result<((IdSize, u64), &[u8]), WideError>
    ensures found { IfOk result (λ x. (text : List ℕ) × (IsHeader text (width_of x.0.0) x.0.1 × (bytes.now ≡ wide_header_bytes text (width_of x.0.0) x.0.1 ++ x.1.now))) }
    ensures fault { IfErr result (λ e. WideHeaderFault e bytes.now) }
{
    let Some(rest) = behind_text(bytes) else {
        return Err(WideError::Magic { offset: 0 });
    };
    let Some(number) = u32_at(rest, 0) else {
        return Err(WideError::CutShort { offset: 19 });
    };
    let Some(size) = id_size(number) else {
        return Err(WideError::IdSize { offset: 19 });
    };
    let rest = &rest[4..];
    let Some(time) = u64_at(rest, 0) else {
        return Err(WideError::CutShort { offset: 23 });
    };
    Ok(((size, time), &rest[8..]))
}

/// The records up to the end. The first stands at a place.
fn read_records(alloc: Global, size: IdSize, bytes: &[u8], at: u64) -> Result<WideList, WideError>
    requires { at + length bytes.now < 2 ^ 64 }
    ensures found { IfOk result (λ top. AreWideRecords (width_of size) top × (bytes.now ≡ wide_records_bytes (width_of size) top)) }
    ensures fault { IfErr result (λ e. e ≢ WideError.OutOfMemory → WideRecordsFault (width_of size) e bytes.now at) }
{
    let end = at + bytes.len() as u64;
    let mut top = WideList::new(alloc);
    let mut rest = bytes;
    while !rest.is_empty() {
        let (record, after) = read_record(alloc, size, rest, end - rest.len() as u64)?;
        top.push(record)?;
        rest = after;
    }
    Ok(top)
}

/// The wide dump whose bytes these are. If they are none, the error is their first fault, unless memory runs out before
/// it is found.
pub fn read_wide(alloc: Global, bytes: &[u8]) -> Result<WideDump, WideError>
    ensures dump { IfOk result (λ d. IsWideDumpOf d.width d.time d.top bytes.now) }
    ensures fault { IfErr result (λ e. e ≢ WideError.OutOfMemory → IsFirstWideFault e bytes.now) }
{
    let ((size, time), rest) = read_header(bytes)?;
    let top = read_records(alloc, size, rest, 31)?;
    Ok(WideDump {
        width: size.bytes(),
        time,
        top,
    })
}
