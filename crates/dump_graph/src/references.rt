//! To what a part of a dump refers.
ghost use Rattle.std.specs.Prelude.{◌≡◌, ◌<◌, ◌≤◌, ◌++◌, drop, length, sum_by, option_to_list, IfOk, OnOk, MatchOption};
ghost use Rattle.std.specs.List.{filter_map};
ghost use Rattle.hprof_records.specs.Types.{value_bytes};
ghost use Rattle.dump_graph.specs.References.{reference, references_in};
ghost use Rattle.dump_graph.specs.Tables.{known_references};

use crate::classes::Classes;
use hprof_records::{Bytes, SubRecord, TypeCode, u32_at};
use std::alloc::AllocError;

/// The code of the type of references.
const REFERENCE: u8 = 2;

/// The identifier that a value of a type is, where it is a reference.
fn reference(code: u8, value: &[u8]) -> Option<u32>
    ensures { result ≡ reference code value.now }
{
    if code == REFERENCE {
        u32_at(value, 0)
    } else {
        None
    }
}

/// How many bytes a value has, by the code of its type.
fn size_of(code: u8) -> usize
    ensures { result ≡ value_bytes code }
{
    match TypeCode::of(code) {
        Some(known) => known.bytes() as usize,
        None => 0,
    }
}

/// Puts the identifier that the first value is behind others, where it is a reference.
fn add_reference(code: u8, value: &[u8], found: &mut Vec<u32>) -> Result<(), AllocError>
    ensures { OnOk result (found.new.items ≡ found.old.items ++ option_to_list (reference code value.now)) }
{
    if let Some(id) = reference(code, value) {
        found.push(id)?;
    }
    Ok(())
}

/// Reads values that stand one after another, by the codes of their types, and puts the references among them behind
/// others. Gives the bytes behind the values. `None` exactly where there are too few bytes.
pub(crate) fn read_fields<'a>(
    codes: &[u8],
    bytes: &'a [u8],
    found: &mut Vec<u32>,
) -> Result<Option<&'a [u8]>, AllocError>
    ensures { IfOk result (λ o. MatchOption o (length bytes.now < sum_by value_bytes codes.now)
        (λ after. (sum_by value_bytes codes.now ≤ length bytes.now) × (after.now ≡ drop (sum_by value_bytes codes.now) bytes.now)
        × (found.new.items ≡ found.old.items ++ references_in codes.now bytes.now))) }
{
    let mut rest = bytes;
    for code in codes {
        add_reference(*code, rest, found)?;
        let Some(after) = rest.get(size_of(*code)..) else {
            return Ok(None);
        };
        rest = after;
    }
    Ok(Some(rest))
}

/// Puts the references among static fields behind others.
fn add_static_references(
    statics: &[(u32, u8, Bytes)],
    found: &mut Vec<u32>,
) -> Result<(), AllocError>
    ensures { OnOk result (found.new.items ≡ found.old.items ++ filter_map (λ s. reference s.1 s.2) statics.now) }
{
    for one in statics {
        add_reference(one.1, one.2.as_slice(), found)?;
    }
    Ok(())
}

/// Finds the identifiers to which a part refers. What was found before is taken out.
pub(crate) fn find_references(
    classes: &Classes,
    part: &SubRecord,
    found: &mut Vec<u32>,
) -> Result<(), AllocError>
    ensures { OnOk result (found.new.items ≡ known_references classes.now part.now) }
{
    found.clear();
    match part {
        SubRecord::Instance { class, bytes, .. } => {
            classes.find_references(*class, bytes.as_slice(), found)
        }
        SubRecord::ObjectArray { items, .. } => found.extend_from_slice(items.as_slice()),
        SubRecord::ClassDump { statics, .. } => add_static_references(statics.as_slice(), found),
        SubRecord::Root { .. }
        | SubRecord::HeapInfo { .. }
        | SubRecord::PrimitiveArray { .. }
        | SubRecord::NoData { .. } => Ok(()),
    }
}
