//! The values of objects, as a dump has them.
ghost use Rattle.std.specs.Prelude.{◌≡◌, ◌<◌, ◌∷◌, ◌++◌, [], false, length, IfOk, OnOk};
ghost use Rattle.heap_graph.specs.declared.names.Shape.{Shape};
ghost use Rattle.heap_graph.specs.Graph.{Object};
ghost use Rattle.heap_graph.specs.Sizes.{is_too_large};
ghost use Rattle.class_layout.specs.Placing.{IsIn};
ghost use Rattle.heap_graph.specs.Places.{elements_from, places_of};
ghost use Rattle.object_view.specs.Seen.{count_if, is_in_window, value_in, RoseBy};
ghost use Rattle.hprof_write.specs.Objects.{dumped_places, own_places, value_bytes, values_bytes, HasValues};

use crate::fields::put_value;
use class_layout::{Classes, FieldAt, Kind, element_offset};
use cow_pages::Addr;
use object_view::HeapView;
use std::alloc::{AllocError, Global};

/// The places of an instance's values: those of its class's own fields in the order of declaration, then those of the
/// superclass's, and so on up.
pub(crate) fn dumped_places(
    alloc: Global,
    classes: &Classes,
    class: u32,
) -> Result<Vec<FieldAt>, AllocError>
    requires { class < length classes.now }
    ensures places { IfOk result (λ places. places.items ≡ dumped_places classes.now class) }
    ensures within { IfOk result (λ places. (p : _) → IsIn p places.items → IsIn p (places_of classes.now (Shape.Instance class))) }
{
    // A superclass has a smaller number than its class, so the way up ends.
    let _all = classes.count();
    let mut places = Vec::new(alloc);
    let mut at = class;
    loop {
        add_own_places(&mut places, classes, at)?;
        match classes.parent(at) {
            Some(parent) => at = parent,
            None => return Ok(places),
        }
    }
}

// The places of the fields that a class declares itself.
fn add_own_places(
    places: &mut Vec<FieldAt>,
    classes: &Classes,
    class: u32,
) -> Result<(), AllocError>
    requires { class < length classes.now }
    ensures places { OnOk result (places.new.items ≡ places.old.items ++ own_places classes.now class) }
    ensures within { OnOk result ((p : _) → IsIn p (own_places classes.now class) → IsIn p (places_of classes.now (Shape.Instance class))) }
{
    for k in 0..classes.own_fields(class).len() {
        places.push(classes.field_at(class, k))?;
    }
    Ok(())
}

/// The values of an object at these places.
pub(crate) fn put_places<V: HeapView>(
    view: &mut V,
    out: &mut Vec<u8>,
    at: Addr,
    places: &[FieldAt],
) -> Result<(), AllocError>
    requires { (o : Object) × HasValues (V.graph view.old) (V.table view.old) at.0 places.now o }
    ensures ok { OnOk result ((o : Object) → HasValues (V.graph view.old) (V.table view.old) at.0 places.now o
        → out.new.items ≡ out.old.items ++ values_bytes (V.table view.old) o places.now) }
    ensures given { V.given view.new ≡ V.given view.old }
    ensures same { V.same view.old view.new }
    ensures reads { RoseBy (count_if (is_in_window at.0) (length places.now)) (V.read_count view.old) (V.read_count view.new) }
{
    for place in places {
        put_place(view, out, at, *place)?;
    }
    Ok(())
}

/// The elements of an array.
pub(crate) fn put_elements<V: HeapView>(
    view: &mut V,
    out: &mut Vec<u8>,
    at: Addr,
    kind: Kind,
    count: u32,
) -> Result<(), AllocError>
    requires small { is_too_large (V.graph view.old).classes (Shape.Array kind count) ≡ false }
    requires object { (o : Object) × HasValues (V.graph view.old) (V.table view.old) at.0 (elements_from kind 0 count) o }
    ensures ok { OnOk result ((o : Object) → HasValues (V.graph view.old) (V.table view.old) at.0 (elements_from kind 0 count) o
        → out.new.items ≡ out.old.items ++ values_bytes (V.table view.old) o (elements_from kind 0 count)) }
    ensures given { V.given view.new ≡ V.given view.old }
    ensures same { V.same view.old view.new }
    ensures reads { RoseBy (count_if (is_in_window at.0) count) (V.read_count view.old) (V.read_count view.new) }
{
    for i in 0..count {
        let place = FieldAt {
            kind,
            offset: element_offset(kind, i) as u32,
            weak: false,
        };
        put_place(view, out, at, place)?;
    }
    Ok(())
}

// The value at a place of an object.
fn put_place<V: HeapView>(
    view: &mut V,
    out: &mut Vec<u8>,
    at: Addr,
    place: FieldAt,
) -> Result<(), AllocError>
    requires { (o : Object) × HasValues (V.graph view.old) (V.table view.old) at.0 (place ∷ []) o }
    ensures ok { OnOk result ((o : Object) → HasValues (V.graph view.old) (V.table view.old) at.0 (place ∷ []) o
        → out.new.items ≡ out.old.items ++ value_bytes place.kind (value_in (V.table view.old) o place)) }
    ensures given { V.given view.new ≡ V.given view.old }
    ensures same { V.same view.old view.new }
    ensures reads { RoseBy (count_if (is_in_window at.0) 1) (V.read_count view.old) (V.read_count view.new) }
{
    let v = view.value(at, place.kind, place.offset);
    put_value(out, place.kind, v)
}
