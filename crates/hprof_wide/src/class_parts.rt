//! The lists of a class: its constants, its static fields, its fields.
ghost use Rattle.std.specs.Prelude.{◌≡◌};
ghost use Rattle.hprof_read.specs.Reading.{Gives, times};
ghost use Rattle.hprof_records.specs.Types.{code_of};
ghost use Rattle.hprof_wide.specs.Parts.{wide_value_bytes};
ghost use Rattle.hprof_wide.specs.Reading.{width_of, typed, constant, static_field, field_name, constants, statics, field_names};

use crate::ids::{IdSize, read_id};
use crate::{WideFieldNames, WideStatics};
use hprof_read::{Halt, any_type, bytes_of, half};
use hprof_records::{Bytes, Constants, TypeCode};
use std::alloc::Global;

/// How many bytes a value of a type has: a reference is an identifier.
fn value_size(size: IdSize, kind: TypeCode) -> u32
    ensures { result ≡ wide_value_bytes (width_of size) (code_of kind) }
{
    if kind == TypeCode::Ref {
        size.bytes()
    } else {
        kind.bytes()
    }
}

/// A type's code, and a value of the type.
#[tactic(auto, unfolding(crate::specs::Reading::typed))]
fn typed_value(alloc: Global, size: IdSize, bytes: &[u8]) -> Result<((u8, Bytes), &[u8]), Halt>
    ensures { Gives (λ x. (x.0, x.1.now)) result (typed size bytes.now) }
{
    let (kind, rest) = any_type(bytes)?;
    let (value, rest) = bytes_of(rest, value_size(size, kind) as usize)?;
    Ok(((kind.code(), Bytes::of(alloc, value)?), rest))
}

#[tactic(auto, unfolding(crate::specs::Reading::constant))]
fn one_constant(
    alloc: Global,
    size: IdSize,
    bytes: &[u8],
) -> Result<((u16, u8, Bytes), &[u8]), Halt>
    ensures { Gives (λ x. (x.0, x.1.now)) result (constant size bytes.now) }
{
    let (index, rest) = half(bytes)?;
    let ((code, value), rest) = typed_value(alloc, size, rest)?;
    Ok(((index, code, value), rest))
}

#[tactic(auto, unfolding(crate::specs::Reading::static_field))]
fn one_static(alloc: Global, size: IdSize, bytes: &[u8]) -> Result<((u64, u8, Bytes), &[u8]), Halt>
    ensures { Gives (λ x. (x.0, x.1.now)) result (static_field size bytes.now) }
{
    let (name, rest) = read_id(size, bytes)?;
    let ((code, value), rest) = typed_value(alloc, size, rest)?;
    Ok(((name, code, value), rest))
}

#[tactic(auto, unfolding(crate::specs::Reading::field_name))]
fn one_field(size: IdSize, bytes: &[u8]) -> Result<((u64, u8), &[u8]), Halt>
    ensures { Gives (λ x. (x.0, x.1.now)) result (field_name size bytes.now) }
{
    let (name, rest) = read_id(size, bytes)?;
    let (kind, rest) = any_type(rest)?;
    Ok(((name, kind.code()), rest))
}

fn so_many_constants(
    alloc: Global,
    size: IdSize,
    count: u16,
    bytes: &[u8],
) -> Result<(Constants, &[u8]), Halt>
    ensures { Gives (λ x. (x.0, x.1.now)) result (times count (constant size) bytes.now) }
{
    let mut list = Constants::new(alloc);
    let mut rest = bytes;
    for _ in 0..count {
        let (one, after) = one_constant(alloc, size, rest)?;
        list.push(one)?;
        rest = after;
    }
    Ok((list, rest))
}

fn so_many_statics(
    alloc: Global,
    size: IdSize,
    count: u16,
    bytes: &[u8],
) -> Result<(WideStatics, &[u8]), Halt>
    ensures { Gives (λ x. (x.0, x.1.now)) result (times count (static_field size) bytes.now) }
{
    let mut list = WideStatics::new(alloc);
    let mut rest = bytes;
    for _ in 0..count {
        let (one, after) = one_static(alloc, size, rest)?;
        list.push(one)?;
        rest = after;
    }
    Ok((list, rest))
}

fn so_many_fields(
    alloc: Global,
    size: IdSize,
    count: u16,
    bytes: &[u8],
) -> Result<(WideFieldNames, &[u8]), Halt>
    ensures { Gives (λ x. (x.0, x.1.now)) result (times count (field_name size) bytes.now) }
{
    let mut list = WideFieldNames::new(alloc);
    let mut rest = bytes;
    for _ in 0..count {
        let (one, after) = one_field(size, rest)?;
        list.push(one)?;
        rest = after;
    }
    Ok((list, rest))
}

/// A count, and so many constants.
#[tactic(auto, unfolding(crate::specs::Reading::constants))]
pub fn class_constants(
    alloc: Global,
    size: IdSize,
    bytes: &[u8],
) -> Result<(Constants, &[u8]), Halt>
    ensures { Gives (λ x. (x.0, x.1.now)) result (constants size bytes.now) }
{
    let (count, rest) = half(bytes)?;
    so_many_constants(alloc, size, count, rest)
}

/// A count, and so many static fields.
#[tactic(auto, unfolding(crate::specs::Reading::statics))]
pub fn class_statics(
    alloc: Global,
    size: IdSize,
    bytes: &[u8],
) -> Result<(WideStatics, &[u8]), Halt>
    ensures { Gives (λ x. (x.0, x.1.now)) result (statics size bytes.now) }
{
    let (count, rest) = half(bytes)?;
    so_many_statics(alloc, size, count, rest)
}

/// A count, and so many fields.
#[tactic(auto, unfolding(crate::specs::Reading::field_names))]
pub fn class_fields(
    alloc: Global,
    size: IdSize,
    bytes: &[u8],
) -> Result<(WideFieldNames, &[u8]), Halt>
    ensures { Gives (λ x. (x.0, x.1.now)) result (field_names size bytes.now) }
{
    let (count, rest) = half(bytes)?;
    so_many_fields(alloc, size, count, rest)
}
