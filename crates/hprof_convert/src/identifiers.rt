//! The names of a dump's identifiers: each gets one where it first appears in the dump's bytes.
ghost use Rattle.std.specs.Prelude.{◌≡◌, ◌++◌, [], length, IfOk, OnOk};
ghost use Rattle.std.specs.List.{flat_map};
ghost use Rattle.hprof_convert.specs.Names.{with_name, with_names, named};
ghost use Rattle.hprof_convert.specs.Layouts.{instance_layout};
ghost use Rattle.hprof_convert.specs.Identifiers.{constant_ids, static_ids, field_ids, further_ids, laid_out_ids, ids_of_part, ids_of_record};

use crate::classes::WideClasses;
use crate::places::Places;
use crate::values::{name_value, name_values};
use hprof_records::Bytes;
use hprof_wide::{WideSub, WideTop};
use std::alloc::{AllocError, Global};

/// The tag of a global reference of JNI, whose further field is an identifier.
pub(crate) const JNI_GLOBAL: u8 = 0x01;

fn name_ids(names: &mut Places, ids: &[u64]) -> Result<(), AllocError>
    ensures { OnOk result (names.new ≡ with_names names.old ids.now) }
{
    for id in ids {
        names.add_name(*id)?;
    }
    Ok(())
}

fn name_constants(
    names: &mut Places,
    width: u32,
    list: &[(u16, u8, Bytes)],
) -> Result<(), AllocError>
    ensures { OnOk result (names.new ≡ with_names names.old (flat_map (constant_ids width) list.now)) }
{
    for one in list {
        name_value(names, width, one.1, one.2.as_slice())?;
    }
    Ok(())
}

fn name_static(names: &mut Places, width: u32, one: &(u64, u8, Bytes)) -> Result<(), AllocError>
    ensures { OnOk result (names.new ≡ with_names names.old (static_ids width one.now)) }
{
    names.add_name(one.0)?;
    name_value(names, width, one.1, one.2.as_slice())
}

fn name_statics(names: &mut Places, width: u32, list: &[(u64, u8, Bytes)]) -> Result<(), AllocError>
    ensures { OnOk result (names.new ≡ with_names names.old (flat_map (static_ids width) list.now)) }
{
    for one in list {
        name_static(names, width, one)?;
    }
    Ok(())
}

fn name_fields(names: &mut Places, list: &[(u64, u8)]) -> Result<(), AllocError>
    ensures { OnOk result (names.new ≡ with_names names.old (flat_map field_ids list.now)) }
{
    for one in list {
        names.add_name(one.0)?;
    }
    Ok(())
}

/// Names the identifiers in the lists of a class.
fn name_lists(
    names: &mut Places,
    width: u32,
    constants: &[(u16, u8, Bytes)],
    statics: &[(u64, u8, Bytes)],
    fields: &[(u64, u8)],
) -> Result<(), AllocError>
    ensures { OnOk result (names.new ≡ with_names names.old (flat_map (constant_ids width) constants.now ++ (flat_map (static_ids width) statics.now ++ flat_map field_ids fields.now))) }
{
    name_constants(names, width, constants)?;
    name_statics(names, width, statics)?;
    name_fields(names, fields)
}

/// Names the identifier among a root's further fields.
fn name_further(names: &mut Places, tag: u8, first: Option<u64>) -> Result<(), AllocError>
    ensures { OnOk result (names.new ≡ with_names names.old (further_ids tag first)) }
{
    match first {
        Some(id) if tag == JNI_GLOBAL => names.add_name(id),
        _ => Ok(()),
    }
}

/// Names the identifiers in the values of an instance.
fn name_instance(
    alloc: Global,
    names: &mut Places,
    width: u32,
    classes: &WideClasses,
    class: u64,
    bytes: &[u8],
) -> Result<(), AllocError>
    ensures { OnOk result (names.new ≡ with_names names.old (laid_out_ids width (instance_layout width classes.now class (length bytes.now)) bytes.now)) }
{
    match classes.layout(alloc, width, class, bytes.len())? {
        None => Ok(()),
        Some(codes) => name_values(names, width, &codes, bytes),
    }
}

/// Names the identifiers of a part.
fn name_part(
    alloc: Global,
    names: &mut Places,
    width: u32,
    classes: &WideClasses,
    part: &WideSub,
) -> Result<(), AllocError>
    ensures { OnOk result (names.new ≡ with_names names.old (ids_of_part width classes.now part.now)) }
{
    match part {
        WideSub::Root { tag, id, first, .. } => {
            names.add_name(*id)?;
            name_further(names, *tag, *first)
        }
        WideSub::HeapInfo { name, .. } => names.add_name(*name),
        WideSub::ClassDump {
            id,
            parent,
            loader,
            signers,
            domain,
            spare_a,
            spare_b,
            constants,
            statics,
            fields,
            ..
        } => {
            let ids = [*id, *parent, *loader, *signers, *domain, *spare_a, *spare_b];
            name_ids(names, &ids)?;
            name_lists(
                names,
                width,
                constants.as_slice(),
                statics.as_slice(),
                fields.as_slice(),
            )
        }
        WideSub::Instance {
            id,
            class,
            bytes,
            ..
        } => {
            name_ids(names, &[*id, *class])?;
            name_instance(alloc, names, width, classes, *class, bytes.as_slice())
        }
        WideSub::ObjectArray {
            id,
            class,
            items,
            ..
        } => {
            name_ids(names, &[*id, *class])?;
            name_ids(names, items.as_slice())
        }
        WideSub::PrimitiveArray { id, .. } | WideSub::NoData { id, .. } => names.add_name(*id),
    }
}

/// Names the identifiers of parts.
fn name_parts(
    alloc: Global,
    names: &mut Places,
    width: u32,
    classes: &WideClasses,
    parts: &[WideSub],
) -> Result<(), AllocError>
    ensures { OnOk result (names.new ≡ with_names names.old (flat_map (ids_of_part width classes.now) parts.now)) }
{
    for part in parts {
        name_part(alloc, names, width, classes, part)?;
    }
    Ok(())
}

/// Names the identifiers of a record.
fn name_record(
    alloc: Global,
    names: &mut Places,
    width: u32,
    classes: &WideClasses,
    one: &WideTop,
) -> Result<(), AllocError>
    ensures { OnOk result (names.new ≡ with_names names.old (ids_of_record width classes.now one.now)) }
{
    match one {
        WideTop::Text { id, .. } => names.add_name(*id),
        WideTop::LoadClass { class, name, .. } => name_ids(names, &[*class, *name]),
        WideTop::Trace { frames, .. } => name_ids(names, frames.as_slice()),
        WideTop::Segment { parts, .. } => {
            name_parts(alloc, names, width, classes, parts.as_slice())
        }
        WideTop::Other { .. } => Ok(()),
    }
}

/// The names of the identifiers of records.
pub(crate) fn names_of(
    alloc: Global,
    width: u32,
    classes: &WideClasses,
    records: &[WideTop],
) -> Result<Places, AllocError>
    ensures { IfOk result (λ names. names ≡ named (flat_map (ids_of_record width classes.now) records.now)) }
{
    let mut names = Places::new(alloc);
    for one in records {
        name_record(alloc, &mut names, width, classes, one)?;
    }
    Ok(names)
}
