ghost use Rattle.std.specs.Prelude.{◌≡◌, ◌+◌, ◌*◌};
ghost use Rattle.class_layout.specs.Kinds.{kind_bytes, first_element, array_end, next_multiple};

use crate::Kind;

/// The bytes of an array up to the end of its last element: 12 and the elements, or 16 and the elements for `long`.
pub fn array_unrounded(kind: Kind, count: u32) -> u64
    ensures { result ≡ array_end kind count }
{
    element_offset(kind, count)
}

/// The bytes of an array, rounded up to a multiple of 8.
pub fn array_size(kind: Kind, count: u32) -> u64
    ensures { result ≡ next_multiple 8 (array_end kind count) }
{
    array_unrounded(kind, count).div_ceil(8) * 8
}

/// Where an element begins, in bytes from the start of the array.
pub fn element_offset(kind: Kind, index: u32) -> u64
    ensures { result ≡ first_element kind + index * kind_bytes kind }
{
    let first = if kind == Kind::Long { 16 } else { 12 };
    first + u64::from(index) * u64::from(kind.bytes())
}
