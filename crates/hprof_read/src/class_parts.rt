//! The lists of a class: its constants, its static fields, its fields.
ghost use Rattle.std.specs.Prelude.{◌≡◌};
ghost use Rattle.hprof_read.specs.Reading.{Gives, times, constant, static_field, field_name, constants, statics, field_names};

use crate::fields::{Halt, any_type, half, typed_value, word};
use hprof_records::{Bytes, Constants, FieldNames, Statics};
use std::alloc::Global;

#[tactic(auto, unfolding(crate::specs::Reading::constant))]
fn one_constant(alloc: Global, bytes: &[u8]) -> Result<((u16, u8, Bytes), &[u8]), Halt>
    ensures { Gives (λ x. (x.0, x.1.now)) result (constant bytes.now) }
{
    let (index, rest) = half(bytes)?;
    let ((code, value), rest) = typed_value(alloc, rest)?;
    Ok(((index, code, value), rest))
}

#[tactic(auto, unfolding(crate::specs::Reading::static_field))]
fn one_static(alloc: Global, bytes: &[u8]) -> Result<((u32, u8, Bytes), &[u8]), Halt>
    ensures { Gives (λ x. (x.0, x.1.now)) result (static_field bytes.now) }
{
    let (name, rest) = word(bytes)?;
    let ((code, value), rest) = typed_value(alloc, rest)?;
    Ok(((name, code, value), rest))
}

#[tactic(auto, unfolding(crate::specs::Reading::field_name))]
fn one_field(bytes: &[u8]) -> Result<((u32, u8), &[u8]), Halt>
    ensures { Gives (λ x. (x.0, x.1.now)) result (field_name bytes.now) }
{
    let (name, rest) = word(bytes)?;
    let (kind, rest) = any_type(rest)?;
    Ok(((name, kind.code()), rest))
}

fn so_many_constants(alloc: Global, count: u16, bytes: &[u8]) -> Result<(Constants, &[u8]), Halt>
    ensures { Gives (λ x. (x.0, x.1.now)) result (times count constant bytes.now) }
{
    let mut list = Constants::new(alloc);
    let mut rest = bytes;
    for _ in 0..count {
        let (one, after) = one_constant(alloc, rest)?;
        list.push(one)?;
        rest = after;
    }
    Ok((list, rest))
}

fn so_many_statics(alloc: Global, count: u16, bytes: &[u8]) -> Result<(Statics, &[u8]), Halt>
    ensures { Gives (λ x. (x.0, x.1.now)) result (times count static_field bytes.now) }
{
    let mut list = Statics::new(alloc);
    let mut rest = bytes;
    for _ in 0..count {
        let (one, after) = one_static(alloc, rest)?;
        list.push(one)?;
        rest = after;
    }
    Ok((list, rest))
}

fn so_many_fields(alloc: Global, count: u16, bytes: &[u8]) -> Result<(FieldNames, &[u8]), Halt>
    ensures { Gives (λ x. (x.0, x.1.now)) result (times count field_name bytes.now) }
{
    let mut list = FieldNames::new(alloc);
    let mut rest = bytes;
    for _ in 0..count {
        let (one, after) = one_field(rest)?;
        list.push(one)?;
        rest = after;
    }
    Ok((list, rest))
}

/// A count, and so many constants.
#[tactic(auto, unfolding(crate::specs::Reading::constants))]
pub fn class_constants(alloc: Global, bytes: &[u8]) -> Result<(Constants, &[u8]), Halt>
    ensures { Gives (λ x. (x.0, x.1.now)) result (constants bytes.now) }
{
    let (count, rest) = half(bytes)?;
    so_many_constants(alloc, count, rest)
}

/// A count, and so many static fields.
#[tactic(auto, unfolding(crate::specs::Reading::statics))]
pub fn class_statics(alloc: Global, bytes: &[u8]) -> Result<(Statics, &[u8]), Halt>
    ensures { Gives (λ x. (x.0, x.1.now)) result (statics bytes.now) }
{
    let (count, rest) = half(bytes)?;
    so_many_statics(alloc, count, rest)
}

/// A count, and so many fields.
#[tactic(auto, unfolding(crate::specs::Reading::field_names))]
pub fn class_fields(alloc: Global, bytes: &[u8]) -> Result<(FieldNames, &[u8]), Halt>
    ensures { Gives (λ x. (x.0, x.1.now)) result (field_names bytes.now) }
{
    let (count, rest) = half(bytes)?;
    so_many_fields(alloc, count, rest)
}
