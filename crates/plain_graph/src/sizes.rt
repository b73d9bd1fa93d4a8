ghost use Rattle.std.specs.Prelude.{◌≡◌, ◌^◌, ◌<◌};
ghost use Rattle.class_layout.specs.Kinds.{is_ref};
ghost use Rattle.heap_graph.specs.Sizes.{is_large, is_primitive_array, is_too_large, most_bytes, parts_for, size_in, unrounded};
ghost use Rattle.plain_graph.specs.Shapes.{HasClass};

use class_layout::{Classes, Kind, array_unrounded};
use heap_graph::Shape;
use model_numbers::{LEAST_LARGE, MOST_ARRAY_BYTES, MOST_OBJECT_BYTES};

/// The end of an object's last field or element, in bytes from its start.
pub fn unrounded(classes: &Classes, shape: Shape) -> u64
    requires { HasClass classes.now shape }
    ensures value { result ≡ unrounded classes.now shape }
    ensures small { result < 2 ^ 36 }
{
    match shape {
        Shape::Instance(class) => classes.unrounded(class),
        Shape::Array { kind, count } => array_unrounded(kind, count),
    }
}

/// The bytes that an object takes: a multiple of 8.
pub fn size_in(classes: &Classes, shape: Shape) -> u64
    requires { HasClass classes.now shape }
    ensures value { result ≡ size_in classes.now shape }
    ensures small { result < 2 ^ 37 }
{
    unrounded(classes, shape).div_ceil(8) * 8
}

/// Whether an object stands in a slot of its own: an array of primitives of at least 12,288 bytes.
pub fn is_large(classes: &Classes, shape: Shape) -> bool
    requires { HasClass classes.now shape }
    ensures { result ≡ is_large classes.now shape }
{
    is_primitive_array(shape) && u64::from(LEAST_LARGE) <= unrounded(classes, shape)
}

/// Whether an object has more bytes than it may have: 1,048,576 for an array of primitives, else 262,144.
pub fn is_too_large(classes: &Classes, shape: Shape) -> bool
    requires { HasClass classes.now shape }
    ensures { result ≡ is_too_large classes.now shape }
{
    u64::from(most_bytes(is_primitive_array(shape))) < unrounded(classes, shape)
}

/// Whether values of the kind are references.
pub fn is_ref(kind: Kind) -> bool
    ensures { result ≡ is_ref kind }
{
    kind == Kind::Ref
}

/// How many parts of so many bytes hold this many bytes.
pub(crate) fn parts_for(part: u32, bytes: u64) -> u64
    requires { 0 < part }
    ensures { result ≡ parts_for part bytes }
{
    bytes.div_ceil(part as u64)
}

fn is_primitive_array(shape: Shape) -> bool
    ensures { result ≡ is_primitive_array shape }
{
    match shape {
        Shape::Instance(_) => false,
        Shape::Array { kind, .. } => !is_ref(kind),
    }
}

// The most bytes that an object may have.
fn most_bytes(primitive_array: bool) -> u32
    ensures { result ≡ most_bytes primitive_array }
{
    if primitive_array {
        MOST_ARRAY_BYTES
    } else {
        MOST_OBJECT_BYTES
    }
}
