//! Fields from left to right: each function gives a value and the bytes after it.
ghost use Rattle.std.specs.Prelude.{◌≡◌, length};
ghost use Rattle.std.specs.Int.{w8, w16, w32};
ghost use Rattle.hprof_read.specs.Reading.{Gives, number, raw, checked, is_type, is_primitive, times, counted_bytes, triple, typed};
ghost use Rattle.hprof_records.specs.Types.{code_of};
ghost use Rattle.hprof_read.specs.declared.fields.Halt.TheVariants.{OutOfMemory, Stopped};

use hprof_records::{Bytes, Ids, TypeCode, u8_at, u16_at, u32_at};
use std::alloc::{AllocError, Global};

/// Why no value stands at the front.
#[derive(Clone, Copy, Debug, PartialEq, Eq)]
pub enum Stop {
    /// The bytes end within a field.
    Short,
    /// A byte isn't allowed in its place. So many bytes stand from it to the end.
    Refused(usize),
}

/// Why reading ended.
#[derive(Clone, Copy, Debug, PartialEq, Eq)]
pub enum Halt {
    OutOfMemory,
    Stopped(Stop),
}

impl From<AllocError> for Halt {
    ghost from_gives = { λ _ e. e ≡ OutOfMemory };

    fn from(_e: AllocError) -> Halt {
        Halt::OutOfMemory
    }
}

/// What stops reading where the bytes end too early.
pub const SHORT: Halt = Halt::Stopped(Stop::Short);

/// The byte at the front.
pub fn byte(bytes: &[u8]) -> Result<(u8, &[u8]), Halt>
    ensures { Gives (λ x. (x.0, x.1.now)) result (number w8 bytes.now) }
{
    match u8_at(bytes, 0) {
        Some(number) => Ok((number, &bytes[1..])),
        None => Err(SHORT),
    }
}

/// The number of 2 bytes at the front.
pub fn half(bytes: &[u8]) -> Result<(u16, &[u8]), Halt>
    ensures { Gives (λ x. (x.0, x.1.now)) result (number w16 bytes.now) }
{
    match u16_at(bytes, 0) {
        Some(number) => Ok((number, &bytes[2..])),
        None => Err(SHORT),
    }
}

/// The number of 4 bytes at the front.
pub fn word(bytes: &[u8]) -> Result<(u32, &[u8]), Halt>
    ensures { Gives (λ x. (x.0, x.1.now)) result (number w32 bytes.now) }
{
    match u32_at(bytes, 0) {
        Some(number) => Ok((number, &bytes[4..])),
        None => Err(SHORT),
    }
}

/// Three numbers of 4 bytes.
#[tactic(auto, unfolding(crate::specs::Reading::triple))]
pub fn three_words(bytes: &[u8]) -> Result<((u32, (u32, u32)), &[u8]), Halt>
    ensures { Gives (λ x. (x.0, x.1.now)) result (triple bytes.now) }
{
    let (a, rest) = word(bytes)?;
    let (b, rest) = word(rest)?;
    let (c, rest) = word(rest)?;
    Ok(((a, (b, c)), rest))
}

/// So many bytes, where they stand.
pub fn bytes_of(bytes: &[u8], count: usize) -> Result<(&[u8], &[u8]), Halt>
    ensures { Gives (λ x. (x.0.now, x.1.now)) result (raw count bytes.now) }
{
    if bytes.len() < count {
        return Err(SHORT);
    }
    Ok(bytes.split_at(count))
}

/// A count, and so many bytes, where they stand.
#[tactic(auto, unfolding(crate::specs::Reading::counted_bytes))]
pub fn counted(bytes: &[u8]) -> Result<(&[u8], &[u8]), Halt>
    ensures { Gives (λ x. (x.0.now, x.1.now)) result (counted_bytes bytes.now) }
{
    let (count, rest) = word(bytes)?;
    bytes_of(rest, count as usize)
}

/// So many numbers of 4 bytes.
pub fn words(alloc: Global, count: u32, bytes: &[u8]) -> Result<(Ids, &[u8]), Halt>
    ensures { Gives (λ x. (x.0, x.1.now)) result (times count (number w32) bytes.now) }
{
    let mut ids = Ids::new(alloc);
    let mut rest = bytes;
    for _ in 0..count {
        let (id, after) = word(rest)?;
        ids.push(id)?;
        rest = after;
    }
    Ok((ids, rest))
}

/// The code of a type, and the type.
pub fn any_type(bytes: &[u8]) -> Result<(TypeCode, &[u8]), Halt>
    ensures { Gives (λ x. (code_of x.0, x.1.now)) result (checked is_type bytes.now) }
{
    match bytes {
        [] => Err(SHORT),
        [code, rest @ ..] => match TypeCode::of(*code) {
            Some(kind) => Ok((kind, rest)),
            None => Err(Halt::Stopped(Stop::Refused(bytes.len()))),
        },
    }
}

/// The code of a type of numbers, and the type.
pub fn primitive_type(bytes: &[u8]) -> Result<(TypeCode, &[u8]), Halt>
    ensures { Gives (λ x. (code_of x.0, x.1.now)) result (checked is_primitive bytes.now) }
{
    let (kind, rest) = any_type(bytes)?;
    if kind == TypeCode::Ref {
        return Err(Halt::Stopped(Stop::Refused(bytes.len())));
    }
    Ok((kind, rest))
}

/// A type's code, and a value of the type.
#[tactic(auto, unfolding(crate::specs::Reading::typed))]
pub fn typed_value(alloc: Global, bytes: &[u8]) -> Result<((u8, Bytes), &[u8]), Halt>
    ensures { Gives (λ x. (x.0, x.1.now)) result (typed bytes.now) }
{
    let (kind, rest) = any_type(bytes)?;
    let (value, rest) = bytes_of(rest, kind.bytes() as usize)?;
    Ok(((kind.code(), Bytes::of(alloc, value)?), rest))
}
