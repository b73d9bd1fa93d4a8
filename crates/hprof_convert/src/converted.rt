//! The parts and records of a wide dump, renamed.
ghost use Rattle.std.specs.Prelude.{◌≡◌, ◌≢◌, ◌<◌, ◌^◌, ◌++◌, length, map, option_to_list, IfOk, OnOk};
ghost use Rattle.std.specs.Option.{ForSome};
ghost use Rattle.std.specs.List.{All, filter_map};
ghost use Rattle.hprof_records.specs.declared.sub_record.SubRecord.TheVariants.{Root};
ghost use Rattle.hprof_records.specs.Formed.{IsWord};
ghost use Rattle.hprof_wide.specs.Formed.{HasWideFurther, IsWidePart};
ghost use Rattle.hprof_wide.specs.Dump.{IsWideRecord, AreWideRecords};
ghost use Rattle.hprof_convert.specs.Names.{rename};
ghost use Rattle.hprof_convert.specs.Values.{renamed_value};
ghost use Rattle.hprof_convert.specs.Layouts.{instance_layout};
ghost use Rattle.hprof_convert.specs.Converted.{renamed_further, renamed_constant, renamed_static, renamed_field, renamed_bytes, converted_part, converted_record};

use crate::classes::WideClasses;
use crate::identifiers::JNI_GLOBAL;
use crate::places::Places;
use crate::sizes::parts_size;
use crate::values::{put_value, put_values};
use hprof_read::TopList;
use hprof_records::{Bytes, Constants, FieldNames, Ids, Statics, SubList, SubRecord, TopRecord};
use hprof_wide::{WideSub, WideTop};
use std::alloc::{AllocError, Global};

/// The tag of the end of a heap dump, which is kept.
const HEAP_DUMP_END: u8 = 0x2c;

/// A value's bytes, with its identifier renamed if it is one.
fn renamed_value(
    alloc: Global,
    names: &Places,
    width: u32,
    code: u8,
    value: &[u8],
) -> Result<Bytes, AllocError>
    ensures { IfOk result (λ b. b ≡ renamed_value width names.now (code, value.now)) }
{
    let mut out = Vec::new(alloc);
    put_value(&mut out, names, width, code, value)?;
    Bytes::of(alloc, &out)
}

fn renamed_constants(
    alloc: Global,
    names: &Places,
    width: u32,
    list: &[(u16, u8, Bytes)],
) -> Result<Constants, AllocError>
    ensures { IfOk result (λ l. l ≡ map (renamed_constant width names.now) list.now) }
{
    let mut renamed = Constants::new(alloc);
    for one in list {
        let value = renamed_value(alloc, names, width, one.1, one.2.as_slice())?;
        renamed.push((one.0, one.1, value))?;
    }
    Ok(renamed)
}

fn renamed_statics(
    alloc: Global,
    names: &Places,
    width: u32,
    list: &[(u64, u8, Bytes)],
) -> Result<Statics, AllocError>
    ensures { IfOk result (λ l. l ≡ map (renamed_static width names.now) list.now) }
{
    let mut renamed = Statics::new(alloc);
    for one in list {
        let value = renamed_value(alloc, names, width, one.1, one.2.as_slice())?;
        renamed.push((names.rename(one.0), one.1, value))?;
    }
    Ok(renamed)
}

fn renamed_fields(
    alloc: Global,
    names: &Places,
    list: &[(u64, u8)],
) -> Result<FieldNames, AllocError>
    ensures { IfOk result (λ l. l ≡ map (renamed_field names.now) list.now) }
{
    let mut renamed = FieldNames::new(alloc);
    for one in list {
        renamed.push((names.rename(one.0), one.1))?;
    }
    Ok(renamed)
}

fn renamed_ids(alloc: Global, names: &Places, list: &[u64]) -> Result<Ids, AllocError>
    ensures { IfOk result (λ l. l ≡ map (rename names.now) list.now) }
{
    let mut renamed = Ids::new(alloc);
    for one in list {
        renamed.push(names.rename(*one))?;
    }
    Ok(renamed)
}

/// The values of an instance, renamed; as they are where it has no layout.
fn renamed_bytes(
    alloc: Global,
    names: &Places,
    width: u32,
    classes: &WideClasses,
    class: u64,
    bytes: &[u8],
) -> Result<Bytes, AllocError>
    ensures { IfOk result (λ b. b ≡ renamed_bytes width names.now (instance_layout width classes.now class (length bytes.now)) bytes.now) }
{
    match classes.layout(alloc, width, class, bytes.len())? {
        None => Bytes::of(alloc, bytes),
        Some(codes) => {
            let mut out = Vec::new(alloc);
            put_values(&mut out, names, width, &codes, bytes)?;
            Bytes::of(alloc, &out)
        }
    }
}

/// A root's first further field, renamed where it is an identifier. Each other one has 4 bytes.
fn renamed_further(names: &Places, tag: u8, first: Option<u64>) -> Option<u32>
    requires { ForSome first (λ n. tag ≢ 0x01 → n < 2 ^ 32) }
    ensures { result ≡ renamed_further names.now tag first }
{
    let number = first?;
    if tag == JNI_GLOBAL {
        Some(names.rename(number))
    } else {
        Some(number as u32)
    }
}

/// A further field of 4 bytes.
fn narrowed(second: Option<u64>) -> Option<u32>
    requires { ForSome second IsWord }
    ensures { result ≡ second }
{
    let number = second?;
    Some(number as u32)
}

/// A root, renamed.
fn converted_root(
    names: &Places,
    width: u32,
    tag: u8,
    id: u64,
    first: Option<u64>,
    second: Option<u64>,
) -> SubRecord
    requires { HasWideFurther width tag first second }
    ensures { result ≡ Root tag (rename names.now id) (renamed_further names.now tag first) second }
{
    let _width = width;
    SubRecord::Root {
        tag,
        id: names.rename(id),
        first: renamed_further(names, tag, first),
        second: narrowed(second),
    }
}

/// A part, renamed.
fn converted_part(
    alloc: Global,
    names: &Places,
    width: u32,
    classes: &WideClasses,
    part: &WideSub,
) -> Result<SubRecord, AllocError>
    requires { IsWidePart width part.now }
    ensures { IfOk result (λ p. p ≡ converted_part width classes.now names.now part.now) }
{
    match part {
        WideSub::Root {
            tag,
            id,
            first,
            second,
        } => Ok(converted_root(names, width, *tag, *id, *first, *second)),
        WideSub::HeapInfo { heap, name } => Ok(SubRecord::HeapInfo {
            heap: *heap,
            name: names.rename(*name),
        }),
        WideSub::ClassDump {
            id,
            stack,
            parent,
            loader,
            signers,
            domain,
            spare_a,
            spare_b,
            size,
            constants,
            statics,
            fields,
        } => Ok(SubRecord::ClassDump {
            id: names.rename(*id),
            stack: *stack,
            parent: names.rename(*parent),
            loader: names.rename(*loader),
            signers: names.rename(*signers),
            domain: names.rename(*domain),
            spare_a: names.rename(*spare_a),
            spare_b: names.rename(*spare_b),
            size: *size,
            constants: renamed_constants(alloc, names, width, constants.as_slice())?,
            statics: renamed_statics(alloc, names, width, statics.as_slice())?,
            fields: renamed_fields(alloc, names, fields.as_slice())?,
        }),
        WideSub::Instance {
            id,
            stack,
            class,
            bytes,
        } => Ok(SubRecord::Instance {
            id: names.rename(*id),
            stack: *stack,
            class: names.rename(*class),
            bytes: renamed_bytes(alloc, names, width, classes, *class, bytes.as_slice())?,
        }),
        WideSub::ObjectArray {
            id,
            stack,
            class,
            items,
        } => Ok(SubRecord::ObjectArray {
            id: names.rename(*id),
            stack: *stack,
            class: names.rename(*class),
            items: renamed_ids(alloc, names, items.as_slice())?,
        }),
        WideSub::PrimitiveArray {
            id,
            stack,
            code,
            count,
            bytes,
        } => Ok(SubRecord::PrimitiveArray {
            id: names.rename(*id),
            stack: *stack,
            code: *code,
            count: *count,
            bytes: Bytes::of(alloc, bytes.as_slice())?,
        }),
        WideSub::NoData {
            id,
            stack,
            count,
            code,
        } => Ok(SubRecord::NoData {
            id: names.rename(*id),
            stack: *stack,
            count: *count,
            code: *code,
        }),
    }
}

/// The parts of a segment, renamed.
fn converted_parts(
    alloc: Global,
    names: &Places,
    width: u32,
    classes: &WideClasses,
    parts: &[WideSub],
) -> Result<SubList, AllocError>
    requires { All (IsWidePart width) parts.now }
    ensures { IfOk result (λ l. l ≡ map (converted_part width classes.now names.now) parts.now) }
{
    let mut converted = SubList::new(alloc);
    for part in parts {
        let one = converted_part(alloc, names, width, classes, part)?;
        converted.push(one)?;
    }
    Ok(converted)
}

/// A record, renamed. `None` exactly for one that is passed over and isn't the end of a heap dump.
fn converted_record(
    alloc: Global,
    names: &Places,
    width: u32,
    classes: &WideClasses,
    one: &WideTop,
) -> Result<Option<TopRecord>, AllocError>
    requires { IsWideRecord width one.now }
    ensures { IfOk result (λ r. r ≡ converted_record width classes.now names.now one.now) }
{
    match one {
        WideTop::Text { time, id, bytes } => Ok(Some(TopRecord::Text {
            time: *time,
            id: names.rename(*id),
            bytes: Bytes::of(alloc, bytes.as_slice())?,
        })),
        WideTop::LoadClass {
            time,
            serial,
            class,
            stack,
            name,
            rest,
        } => Ok(Some(TopRecord::LoadClass {
            time: *time,
            serial: *serial,
            class: names.rename(*class),
            stack: *stack,
            name: names.rename(*name),
            rest: Bytes::of(alloc, rest.as_slice())?,
        })),
        WideTop::Trace {
            time,
            serial,
            thread,
            frames,
            rest,
        } => Ok(Some(TopRecord::Trace {
            time: *time,
            serial: *serial,
            thread: *thread,
            frames: renamed_ids(alloc, names, frames.as_slice())?,
            rest: Bytes::of(alloc, rest.as_slice())?,
        })),
        WideTop::Segment {
            time,
            tag,
            parts,
            ..
        } => {
            let parts = converted_parts(alloc, names, width, classes, parts.as_slice())?;
            let length = parts_size(parts.as_slice())?;
            Ok(Some(TopRecord::Segment {
                time: *time,
                tag: *tag,
                length,
                parts,
            }))
        }
        WideTop::Other { time, tag, body } => {
            if *tag != HEAP_DUMP_END {
                return Ok(None);
            }
            Ok(Some(TopRecord::Other {
                time: *time,
                tag: *tag,
                body: Bytes::of(alloc, body.as_slice())?,
            }))
        }
    }
}

/// Puts a record, renamed, behind others, if it is kept.
fn add_record(
    alloc: Global,
    names: &Places,
    width: u32,
    classes: &WideClasses,
    one: &WideTop,
    top: &mut TopList,
) -> Result<(), AllocError>
    requires { IsWideRecord width one.now }
    ensures { OnOk result (top.new ≡ top.old ++ option_to_list (converted_record width classes.now names.now one.now)) }
{
    if let Some(record) = converted_record(alloc, names, width, classes, one)? {
        top.push(record)?;
    }
    Ok(())
}

/// The records that are kept, renamed.
pub(crate) fn converted_records(
    alloc: Global,
    names: &Places,
    width: u32,
    classes: &WideClasses,
    records: &[WideTop],
) -> Result<TopList, AllocError>
    requires { AreWideRecords width records.now }
    ensures { IfOk result (λ top. top ≡ filter_map (converted_record width classes.now names.now) records.now) }
{
    let mut top = TopList::new(alloc);
    for one in records {
        add_record(alloc, names, width, classes, one, &mut top)?;
    }
    Ok(top)
}
