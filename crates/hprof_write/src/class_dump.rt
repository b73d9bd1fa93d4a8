//! The dump of a class.
ghost use Rattle.std.specs.Prelude.{◌≡◌, ◌<◌, ◌++◌, [], length, map, slice_get, IsSomeAnd, OnOk};
ghost use Rattle.std.specs.List.{flat_map};
ghost use Rattle.hprof_records.specs.declared.sub_record.SubRecord.TheVariants.{ClassDump};
ghost use Rattle.hprof_records.specs.Parts.{bytes_of_part, field_name_bytes};
ghost use Rattle.hprof_write.specs.Classes.{array_class_dump, class_dump, class_id, field_entry, kind_code, parent_id};

use crate::fields::put_words;
use crate::strings::string_id;
use class_layout::{Classes, FieldDecl, Kind, Name};
use hprof_records::{put_u8, put_u16};
use indexmap::IndexSet;
use model_numbers::{CLASS_BASE, CLASS_BYTES};
use std::alloc::AllocError;

/// The identifier of the class of arrays of references.
pub(crate) const ARRAY_CLASS: u32 = 0x1000_0020;

/// The identifier of a class.
pub(crate) fn class_id(class: u32) -> u32
    requires { class < 65536 }
    ensures { result ≡ class_id class }
{
    CLASS_BASE + CLASS_BYTES * class
}

/// The code of a kind's type.
pub(crate) fn kind_code(kind: Kind) -> u8
    ensures { result ≡ kind_code kind }
{
    match kind {
        Kind::Ref => 2,
        Kind::Boolean => 4,
        Kind::Char => 5,
        Kind::Byte => 8,
        Kind::Short => 9,
        Kind::Int => 10,
        Kind::Long => 11,
    }
}

/// The dump of a class: its superclass, the end of an instance's last field, and its own fields.
pub(crate) fn put_class(
    out: &mut Vec<u8>,
    strings: &IndexSet<Name>,
    classes: &Classes,
    class: u32,
) -> Result<(), AllocError>
    requires { class < length classes.now }
    ensures { OnOk result (IsSomeAnd (slice_get classes.now class) (λ c. out.new.items ≡ out.old.items ++ bytes_of_part (class_dump strings.now.keys classes.now class c))) }
{
    // There are at most 65,536 classes, so each has an identifier of 32 bits.
    let _all = classes.count();
    let parent = parent_id(classes, class);
    let size = classes.unrounded(class) as u32;
    put_class_parts(
        out,
        strings,
        class_id(class),
        parent,
        size,
        classes.own_fields(class),
    )
}

// The identifier of a class's superclass, or 0.
fn parent_id(classes: &Classes, class: u32) -> u32
    requires { class < length classes.now }
    ensures { IsSomeAnd (slice_get classes.now class) (λ c. result ≡ parent_id c.parent) }
{
    // There are at most 65,536 classes, so each has an identifier of 32 bits.
    let _all = classes.count();
    match classes.parent(class) {
        Some(p) => class_id(p),
        None => 0,
    }
}

// The dump of a class by its identifier, that of its superclass, its size, and its fields.
fn put_class_parts(
    out: &mut Vec<u8>,
    strings: &IndexSet<Name>,
    id: u32,
    parent: u32,
    size: u32,
    fields: &[FieldDecl],
) -> Result<(), AllocError>
    ensures { OnOk result (out.new.items ≡ out.old.items ++ bytes_of_part (ClassDump id 0 parent 0 0 0 0 0 size [] [] (map (field_entry strings.now.keys) fields.now))) }
{
    if fields.len() > u16::MAX as usize {
        return Err(AllocError);
    }
    put_u8(out, 0x20)?;
    put_words(out, &[id, 0, parent, 0, 0, 0, 0, 0, size])?;
    put_words(out, &[0])?;
    put_u16(out, fields.len() as u16)?;
    put_field_names(out, strings, fields)?;
    Ok(())
}

// The fields of a class: their names and their types.
fn put_field_names(
    out: &mut Vec<u8>,
    strings: &IndexSet<Name>,
    fields: &[FieldDecl],
) -> Result<(), AllocError>
    ensures { OnOk result (out.new.items ≡ out.old.items ++ flat_map field_name_bytes (map (field_entry strings.now.keys) fields.now)) }
{
    for f in fields {
        let name = string_id(strings, &f.name)?;
        put_words(out, &[name])?;
        put_u8(out, kind_code(f.kind))?;
    }
    Ok(())
}

/// The dump of the class of arrays of references.
pub(crate) fn put_array_class(out: &mut Vec<u8>) -> Result<(), AllocError>
    ensures { OnOk result (out.new.items ≡ out.old.items ++ bytes_of_part array_class_dump) }
{
    put_u8(out, 0x20)?;
    put_words(out, &[ARRAY_CLASS, 0, CLASS_BASE, 0, 0, 0, 0, 0, 0])?;
    out.extend_from_slice(&[0; 6])
}
