ghost use Rattle.std.specs.Prelude.{◌≡◌, ◌≢◌, ◌+◌, ◌<◌, ◌^◌, ◌++◌, length, IfOk, IfErr};
ghost use Rattle.hprof_records.specs.Records.{bytes_of_records, header_bytes, dump_bytes};
ghost use Rattle.hprof_records.specs.Dump.{AreRecords};
ghost use Rattle.hprof_read.specs.Fault.{HeaderFault, RecordsFault, IsFirstFault};

use crate::ReadError;
use crate::records::read_record;
use hprof_records::{TopRecord, u32_at, u64_at};
use std::alloc::{AllocError, Global};
use std::marker::Model;

/// The records of a dump, in order.
#[derive(Drop)]
pub struct TopList {
    records: Vec<TopRecord>,
}

impl Model for TopList {
    ghost use Rattle.std.specs.Prelude.{List};
    ghost use Rattle.hprof_records.specs.declared.top_record.TopRecord.{TopRecord};

    ghost Value = { List TopRecord };

    ghost view = { λ l. l.records.items };
}

impl TopList {
    ghost use Rattle.std.specs.Prelude.{[], ◌∷◌, OnOk, OnErr};

    /// No records. It takes no memory.
    pub fn new(alloc: Global) -> TopList
        ensures { result ≡ [] }
    {
        TopList {
            records: Vec::new(alloc),
        }
    }

    /// Puts a record behind the others. After an error the list is as before.
    pub fn push(&mut self, one: TopRecord) -> Result<(), AllocError>
        ensures pushed { OnOk result (self.new ≡ self.old ++ one ∷ []) }
        ensures unchanged { OnErr result (self.new ≡ self.old) }
    {
        self.records.push(one)?;
        Ok(())
    }

    /// The records, in order.
    pub fn as_slice(&self) -> &[TopRecord]
        ensures { result.now ≡ self.now }
    {
        &self.records
    }
}

/// A dump: the time of its header in milliseconds, and its records.
#[derive(Drop)]
pub struct Dump {
    pub time: u64,
    pub top: TopList,
}

const MAGIC: [u8; 19] = *b"JAVA PROFILE 1.0.3\0";

/// The header's time, and the bytes behind the header.
fn read_header(bytes: &[u8]) -> Result<(u64, &[u8]), ReadError>
    ensures found { IfOk result (λ x. (x.0 < 2 ^ 64) × (bytes.now ≡ header_bytes x.0 ++ x.1.now)) }
    ensures fault { IfErr result (λ e. HeaderFault e bytes.now) }
{
    let Some(rest) = bytes.strip_prefix(&MAGIC) else {
        return Err(ReadError::Magic { offset: 0 });
    };
    let Some(size) = u32_at(rest, 0) else {
        return Err(ReadError::CutShort { offset: 19 });
    };
    if size != 4 {
        return Err(ReadError::IdSize { offset: 19 });
    }
    let rest = &rest[4..];
    let Some(time) = u64_at(rest, 0) else {
        return Err(ReadError::CutShort { offset: 23 });
    };
    Ok((time, &rest[8..]))
}

/// The records up to the end. The first stands at a place.
fn read_records(alloc: Global, bytes: &[u8], at: u64) -> Result<TopList, ReadError>
    requires { at + length bytes.now < 2 ^ 64 }
    ensures found { IfOk result (λ top. AreRecords top × (bytes.now ≡ bytes_of_records top)) }
    ensures fault { IfErr result (λ e. e ≢ ReadError.OutOfMemory → RecordsFault e bytes.now at) }
{
    let end = at + bytes.len() as u64;
    let mut top = TopList::new(alloc);
    let mut rest = bytes;
    while !rest.is_empty() {
        let (record, after) = read_record(alloc, rest, end - rest.len() as u64)?;
        top.push(record)?;
        rest = after;
    }
    Ok(top)
}

/// The dump whose bytes these are. If they are none, the error is their first fault, unless memory runs out before it
/// is found.
pub fn read_dump(alloc: Global, bytes: &[u8]) -> Result<Dump, ReadError>
    ensures dump { IfOk result (λ d. (d.time < 2 ^ 64) × AreRecords d.top × (bytes.now ≡ dump_bytes d.time d.top)) }
    ensures fault { IfErr result (λ e. e ≢ ReadError.OutOfMemory → IsFirstFault e bytes.now) }
{
    let (time, rest) = read_header(bytes)?;
    let top = read_records(alloc, rest, 31)?;
    Ok(Dump { time, top })
}
