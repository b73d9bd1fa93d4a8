//! Values of fields, and the identifiers in them.
ghost use Rattle.std.specs.Prelude.{◌≡◌, ◌++◌, take, drop, OnOk};
ghost use Rattle.hprof_wide.specs.Parts.{wide_value_bytes};
ghost use Rattle.dump_graph.specs.References.{first_id};
ghost use Rattle.hprof_convert.specs.Names.{with_names};
ghost use Rattle.hprof_convert.specs.Values.{long_id, id_in, ids_in, ids_among, renamed_value, renamed_values};

use crate::places::Places;
use hprof_records::{TypeCode, put_u32, u32_at, u64_at};
use std::alloc::AllocError;

/// The code of the type of references.
const REFERENCE: u8 = 2;

/// How many bytes a value has, by the code of its type.
pub(crate) fn size_of(width: u32, code: u8) -> usize
    ensures { result ≡ wide_value_bytes width code }
{
    if code == REFERENCE {
        return width as usize;
    }
    match TypeCode::of(code) {
        Some(known) => known.bytes() as usize,
        None => 0,
    }
}

fn long_id(bytes: &[u8]) -> Option<u64>
    ensures { result ≡ long_id bytes.now }
{
    u64_at(bytes, 0)
}

fn short_id(bytes: &[u8]) -> Option<u32>
    ensures { result ≡ first_id bytes.now }
{
    u32_at(bytes, 0)
}

/// The identifier that a value is.
fn id_in(width: u32, value: &[u8]) -> u64
    ensures { result ≡ id_in width value.now }
{
    if width == 8 {
        return long_id(value).unwrap_or(0);
    }
    match short_id(value) {
        Some(id) => id as u64,
        None => 0,
    }
}

/// The first bytes, so many as there are of a number, and the bytes behind them.
fn cut(bytes: &[u8], size: usize) -> (&[u8], &[u8])
    ensures front { result.0.now ≡ take size bytes.now }
    ensures rest { result.1.now ≡ drop size bytes.now }
{
    if size < bytes.len() {
        (&bytes[..size], &bytes[size..])
    } else {
        (bytes, &[])
    }
}

/// Names the identifier that a value is, if it is one.
pub(crate) fn name_value(
    names: &mut Places,
    width: u32,
    code: u8,
    value: &[u8],
) -> Result<(), AllocError>
    ensures { OnOk result (names.new ≡ with_names names.old (ids_in width (code, value.now))) }
{
    if code == REFERENCE {
        names.add_name(id_in(width, value))?;
    }
    Ok(())
}

/// Names the identifiers among values that stand one after another, by the codes of their types.
pub(crate) fn name_values(
    names: &mut Places,
    width: u32,
    codes: &[u8],
    bytes: &[u8],
) -> Result<(), AllocError>
    ensures { OnOk result (names.new ≡ with_names names.old (ids_among width codes.now bytes.now)) }
{
    let mut rest = bytes;
    for code in codes {
        let (value, after) = cut(rest, size_of(width, *code));
        name_value(names, width, *code, value)?;
        rest = after;
    }
    Ok(())
}

/// Appends a value, with its identifier renamed if it is one.
pub(crate) fn put_value(
    out: &mut Vec<u8>,
    names: &Places,
    width: u32,
    code: u8,
    value: &[u8],
) -> Result<(), AllocError>
    ensures { OnOk result (out.new.items ≡ out.old.items ++ renamed_value width names.now (code, value.now)) }
{
    if code == REFERENCE {
        put_u32(out, names.rename(id_in(width, value)))
    } else {
        out.extend_from_slice(value)
    }
}

/// Appends values that stand one after another, with their identifiers renamed.
pub(crate) fn put_values(
    out: &mut Vec<u8>,
    names: &Places,
    width: u32,
    codes: &[u8],
    bytes: &[u8],
) -> Result<(), AllocError>
    ensures { OnOk result (out.new.items ≡ out.old.items ++ renamed_values width names.now codes.now bytes.now) }
{
    let mut rest = bytes;
    for code in codes {
        let (value, after) = cut(rest, size_of(width, *code));
        put_value(out, names, width, *code, value)?;
        rest = after;
    }
    Ok(())
}
