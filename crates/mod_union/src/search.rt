//! The first reference of an object behind an offset, found without a read.
ghost use Rattle.std.specs.Prelude.{◌≡◌, ℕ, ◌<◌, ◌≤◌, Some, IsTrue, IsFalse, length};
ghost use Rattle.class_layout.specs.declared.kind.FieldAt.{FieldAt};
ghost use Rattle.object_view.specs.Objects.{reference_place, IsKnown};
ghost use Rattle.mod_union.specs.Scans.{IsFirstFrom};

use class_layout::{Classes, Kind, element_offset};
use heap_graph::Shape;

/// The index of the first reference of a shape that stands at an offset or behind it; any index past the others, if
/// none does.
pub fn first_reference(classes: &Classes, shape: Shape, offset: u32) -> usize
    requires { IsKnown classes.now shape }
    ensures { IsFirstFrom classes.now shape offset result }
{
    match shape {
        Shape::Instance(class) => first_field(classes, class, offset),
        Shape::Array { .. } => {
            let behind = u64::from(offset).saturating_sub(element_offset(Kind::Ref, 0));
            behind.div_ceil(u64::from(Kind::Ref.bytes())) as usize
        }
    }
}

/// The same of an instance: a search by halves.
fn first_field(classes: &Classes, class: u32, offset: u32) -> usize
    requires { class < length classes.now }
    ensures { IsFirstFrom classes.now (Shape.Instance class) offset result }
{
    let mut low = 0;
    // each reference before has 4 bytes
    let mut high = (offset / Kind::Ref.bytes()) as usize;
    while low < high {
        let middle = low + (high - low) / 2;
        if stands_before(classes, class, middle, offset) {
            low = middle + 1;
        } else {
            high = middle;
        }
    }
    low
}

/// Whether reference number `k` of an instance stands before an offset.
fn stands_before(classes: &Classes, class: u32, k: usize, offset: u32) -> bool
    requires { class < length classes.now }
    ensures before { IsTrue result → (j : ℕ) (place : FieldAt) → j ≤ k → reference_place classes.now (Shape.Instance class) j ≡ Some place → place.offset < offset }
    ensures behind { IsFalse result → (j : ℕ) (place : FieldAt) → k ≤ j → reference_place classes.now (Shape.Instance class) j ≡ Some place → offset ≤ place.offset }
{
    match classes.ref_offset(class, k) {
        Some((at, _)) => at < offset,
        None => false,
    }
}
