//! The objects of a dump.
ghost use Rattle.std.specs.Prelude.{◌≡◌, ◌<◌, ◌++◌, true, false, length, OnOk};
ghost use Rattle.class_layout.specs.declared.kind.Kind.{Kind};
ghost use Rattle.class_layout.specs.Placing.{IsIn};
ghost use Rattle.heap_graph.specs.declared.names.Shape.{Shape};
ghost use Rattle.heap_graph.specs.Graph.{size_of_object, Object};
ghost use Rattle.object_view.specs.Seen.{count_if, heap_of, is_in_window, seen_of, IsShown, RoseBy};
ghost use Rattle.hprof_records.specs.declared.sub_record.SubRecord.TheVariants.{Instance};
ghost use Rattle.hprof_records.specs.Parts.{bytes_of_part};
ghost use Rattle.hprof_write.specs.Objects.{array_head, array_head_if, dumped_places, object_part, shape_part};
ghost use Rattle.hprof_write.specs.Reads.{object_values};
ghost use Rattle.hprof_write.specs.Segments.{with_heap, with_object, Filling, IsCurrent};

use crate::class_dump::{ARRAY_CLASS, class_id, kind_code};
use crate::fields::put_words;
use crate::segment::Current;
use crate::values::{dumped_places, put_elements, put_places};
use class_layout::{Kind, Name};
use cow_pages::Addr;
use hprof_records::put_u8;
use indexmap::IndexSet;
use object_view::{HeapView, Seen, Shape};
use std::alloc::{AllocError, Global};

/// Puts an object into the current segment, and before it its heap where that is another than the segment's.
pub(crate) fn put_object<V: HeapView>(
    alloc: Global,
    view: &mut V,
    strings: &IndexSet<Name>,
    current: &mut Current,
    seen: &Seen,
) -> Result<(), AllocError>
    requires shown { IsShown (V.graph view.old) (V.table view.old) }
    requires object { (o : Object) × IsIn o (V.graph view.old).objects × (seen.now ≡ seen_of (V.table view.old) o) }
    ensures ok { OnOk result ((o : Object) (f : Filling) → IsIn o (V.graph view.old).objects → seen.now ≡ seen_of (V.table view.old) o
        → IsCurrent f current.old.body.items current.old.objects current.old.heap
        → IsCurrent (with_object (with_heap strings.now.keys (heap_of o.place) f) (object_part (V.graph view.old).classes (V.table view.old) o))
        current.new.body.items current.new.objects current.new.heap) }
    ensures given { V.given view.new ≡ V.given view.old }
    ensures same { V.same view.old view.new }
    ensures reads { (o : Object) → IsIn o (V.graph view.old).objects → seen.now ≡ seen_of (V.table view.old) o
        → RoseBy (object_values (V.graph view.old).classes o) (V.read_count view.old) (V.read_count view.new) }
{
    let objects = current.objects.checked_add(1).ok_or(AllocError)?;
    current.put_heap(strings, seen.heap)?;
    put_shape(alloc, view, &mut current.body, seen.at, seen.shape)?;
    current.objects = objects;
    Ok(())
}

// An object of a shape.
fn put_shape<V: HeapView>(
    alloc: Global,
    view: &mut V,
    out: &mut Vec<u8>,
    at: Addr,
    shape: Shape,
) -> Result<(), AllocError>
    requires shown { IsShown (V.graph view.old) (V.table view.old) }
    requires object { (o : Object) × IsIn o (V.graph view.old).objects × ((V.table view.old) o.number ≡ at.0) × (o.shape ≡ shape) }
    ensures ok { OnOk result ((o : Object) → IsIn o (V.graph view.old).objects → (V.table view.old) o.number ≡ at.0 → o.shape ≡ shape
        → out.new.items ≡ out.old.items ++ bytes_of_part (shape_part (V.graph view.old).classes (V.table view.old) o shape)) }
    ensures given { V.given view.new ≡ V.given view.old }
    ensures same { V.same view.old view.new }
    ensures reads { (o : Object) → IsIn o (V.graph view.old).objects → (V.table view.old) o.number ≡ at.0 → o.shape ≡ shape
        → RoseBy (object_values (V.graph view.old).classes o) (V.read_count view.old) (V.read_count view.new) }
{
    // An instance has no more values than bytes.
    let _all = view.classes().count();
    match shape {
        Shape::Instance(class) => put_instance(alloc, view, out, at, class),
        Shape::Array { kind, count } => {
            put_array_head(out, at, kind, count)?;
            put_elements(view, out, at, kind, count)?;
            Ok(())
        }
    }
}

// An instance, with the values of its fields.
fn put_instance<V: HeapView>(
    alloc: Global,
    view: &mut V,
    out: &mut Vec<u8>,
    at: Addr,
    class: u32,
) -> Result<(), AllocError>
    requires class { class < length (V.graph view.old).classes }
    requires object { (o : Object) × IsIn o (V.graph view.old).objects × ((V.table view.old) o.number ≡ at.0) × (o.shape ≡ Shape.Instance class) }
    ensures ok { OnOk result ((o : Object) → IsIn o (V.graph view.old).objects → (V.table view.old) o.number ≡ at.0 → o.shape ≡ Shape.Instance class
        → out.new.items ≡ out.old.items ++ bytes_of_part (shape_part (V.graph view.old).classes (V.table view.old) o (Shape.Instance class))) }
    ensures given { V.given view.new ≡ V.given view.old }
    ensures same { V.same view.old view.new }
    ensures reads { RoseBy (count_if (is_in_window at.0) (length (dumped_places (V.graph view.old).classes class))) (V.read_count view.old) (V.read_count view.new) }
{
    // There are at most 65,536 classes, so each has an identifier of 32 bits.
    let _all = view.classes().count();
    let places = dumped_places(alloc, view.classes(), class)?;
    let mut values = Vec::new(alloc);
    put_places(view, &mut values, at, &places)?;
    put_instance_part(out, at, class_id(class), &values)
}

// An instance of the class of an identifier, with the bytes of its values.
fn put_instance_part(
    out: &mut Vec<u8>,
    at: Addr,
    class: u32,
    values: &[u8],
) -> Result<(), AllocError>
    ensures { OnOk result (out.new.items ≡ out.old.items ++ bytes_of_part (Instance at.0 0 class values.now)) }
{
    if values.len() > u32::MAX as usize {
        return Err(AllocError);
    }
    put_u8(out, 0x21)?;
    put_words(out, &[at.0, 0, class, values.len() as u32])?;
    out.extend_from_slice(values)?;
    Ok(())
}

// What stands before the elements of an array.
fn put_array_head(out: &mut Vec<u8>, at: Addr, kind: Kind, count: u32) -> Result<(), AllocError>
    ensures { OnOk result (out.new.items ≡ out.old.items ++ array_head at.0 kind count) }
{
    match kind {
        Kind::Ref => put_references_head(out, at, count),
        _ => put_numbers_head(out, at, kind, count),
    }
}

// What stands before the references of an array.
fn put_references_head(out: &mut Vec<u8>, at: Addr, count: u32) -> Result<(), AllocError>
    ensures { OnOk result (out.new.items ≡ out.old.items ++ array_head_if true at.0 Kind.Ref count) }
{
    put_u8(out, 0x22)?;
    put_words(out, &[at.0, 0, count, ARRAY_CLASS])
}

// What stands before the numbers of an array.
fn put_numbers_head(out: &mut Vec<u8>, at: Addr, kind: Kind, count: u32) -> Result<(), AllocError>
    ensures { OnOk result (out.new.items ≡ out.old.items ++ array_head_if false at.0 kind count) }
{
    put_u8(out, 0x23)?;
    put_words(out, &[at.0, 0, count])?;
    put_u8(out, kind_code(kind))
}
