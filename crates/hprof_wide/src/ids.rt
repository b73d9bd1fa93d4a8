//! Identifiers of 4 or 8 bytes, and the fields that have some: each function gives a value and the bytes after it.
ghost use Rattle.std.specs.Prelude.{◌≡◌};
ghost use Rattle.std.specs.Int.{w32, w64};
ghost use Rattle.hprof_read.specs.Reading.{Gives, number, times};
ghost use Rattle.hprof_wide.specs.Reading.{width_of, ident, object_head, array_head, three_ids, class_size, further};

use crate::WideIds;
use hprof_read::{Halt, SHORT, word};
use hprof_records::u64_at;
use std::alloc::Global;

/// How many bytes an identifier has.
#[derive(Clone, Copy, Debug, PartialEq, Eq)]
pub enum IdSize {
    Four,
    Eight,
}

impl IdSize {
    /// The number of bytes.
    pub fn bytes(self) -> u32
        ensures { result ≡ width_of self }
    {
        match self {
            IdSize::Four => 4,
            IdSize::Eight => 8,
        }
    }
}

// The number of 8 bytes at the front.
fn long(bytes: &[u8]) -> Result<(u64, &[u8]), Halt>
    ensures { Gives (λ x. (x.0, x.1.now)) result (number w64 bytes.now) }
{
    match u64_at(bytes, 0) {
        Some(number) => Ok((number, &bytes[8..])),
        None => Err(SHORT),
    }
}

/// A number of 4 bytes, as wide as an identifier may be.
pub fn wide_word(bytes: &[u8]) -> Result<(u64, &[u8]), Halt>
    ensures { Gives (λ x. (x.0, x.1.now)) result (number w32 bytes.now) }
{
    let (number, rest) = word(bytes)?;
    Ok((number as u64, rest))
}

/// The identifier at the front.
#[tactic(auto, unfolding(crate::specs::Reading::ident))]
pub fn read_id(size: IdSize, bytes: &[u8]) -> Result<(u64, &[u8]), Halt>
    ensures { Gives (λ x. (x.0, x.1.now)) result (ident size bytes.now) }
{
    match size {
        IdSize::Four => wide_word(bytes),
        IdSize::Eight => long(bytes),
    }
}

/// So many identifiers.
pub fn read_ids(
    alloc: Global,
    size: IdSize,
    count: u32,
    bytes: &[u8],
) -> Result<(WideIds, &[u8]), Halt>
    ensures { Gives (λ x. (x.0, x.1.now)) result (times count (ident size) bytes.now) }
{
    let mut list = WideIds::new(alloc);
    let mut rest = bytes;
    for _ in 0..count {
        let (one, after) = read_id(size, rest)?;
        list.push(one)?;
        rest = after;
    }
    Ok((list, rest))
}

/// What a class and an instance begin with: an identifier, a stack trace, an identifier of a class.
#[tactic(auto, unfolding(crate::specs::Reading::object_head))]
pub fn read_object_head(size: IdSize, bytes: &[u8]) -> Result<((u64, (u32, u64)), &[u8]), Halt>
    ensures { Gives (λ x. (x.0, x.1.now)) result (object_head size bytes.now) }
{
    let (a, rest) = read_id(size, bytes)?;
    let (b, rest) = word(rest)?;
    let (c, rest) = read_id(size, rest)?;
    Ok(((a, (b, c)), rest))
}

/// What an array begins with: an identifier, and two numbers of 4 bytes.
#[tactic(auto, unfolding(crate::specs::Reading::array_head))]
pub fn read_array_head(size: IdSize, bytes: &[u8]) -> Result<((u64, (u32, u32)), &[u8]), Halt>
    ensures { Gives (λ x. (x.0, x.1.now)) result (array_head size bytes.now) }
{
    let (a, rest) = read_id(size, bytes)?;
    let (b, rest) = word(rest)?;
    let (c, rest) = word(rest)?;
    Ok(((a, (b, c)), rest))
}

/// Three identifiers.
#[tactic(auto, unfolding(crate::specs::Reading::three_ids))]
pub fn read_three_ids(size: IdSize, bytes: &[u8]) -> Result<((u64, (u64, u64)), &[u8]), Halt>
    ensures { Gives (λ x. (x.0, x.1.now)) result (three_ids size bytes.now) }
{
    let (a, rest) = read_id(size, bytes)?;
    let (b, rest) = read_id(size, rest)?;
    let (c, rest) = read_id(size, rest)?;
    Ok(((a, (b, c)), rest))
}

/// Two identifiers, and the bytes of an instance.
#[tactic(auto, unfolding(crate::specs::Reading::class_size))]
pub fn read_class_size(size: IdSize, bytes: &[u8]) -> Result<((u64, (u64, u32)), &[u8]), Halt>
    ensures { Gives (λ x. (x.0, x.1.now)) result (class_size size bytes.now) }
{
    let (a, rest) = read_id(size, bytes)?;
    let (b, rest) = read_id(size, rest)?;
    let (c, rest) = word(rest)?;
    Ok(((a, (b, c)), rest))
}

/// The one further field of a root with this tag: that of a global reference of JNI is an identifier.
#[tactic(auto, unfolding(crate::specs::Reading::further))]
pub fn read_further(size: IdSize, tag: u8, bytes: &[u8]) -> Result<(u64, &[u8]), Halt>
    ensures { Gives (λ x. (x.0, x.1.now)) result (further size tag bytes.now) }
{
    if tag == 0x01 {
        read_id(size, bytes)
    } else {
        wide_word(bytes)
    }
}
