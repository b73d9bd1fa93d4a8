//! Steps of a process over the graph that its pages hold.
ghost use Rattle.std.specs.Prelude.{◌≡◌, ◌⊎◌, ◌≢◌, [], ℕ, ◌+◌, ◌%◌, ◌<◌, ◌≤◌, Bool, true, IsTrue, IsOk, OnOk, OnErr};
ghost use Rattle.model_numbers.specs.Numbers.{number_limit};
ghost use Rattle.class_layout.specs.declared.kind.FieldAt.{FieldAt};
ghost use Rattle.page_tables.specs.Address.{page_of};
ghost use Rattle.cow_pages.specs.Memory.{HasOneSharer, IsSound};
ghost use Rattle.cow_pages.specs.Change.{TakesOnCopy};
ghost use Rattle.cow_pages.specs.View.{view_of};
ghost use Rattle.heap_graph.specs.declared.names.Content.{Content};
ghost use Rattle.heap_graph.specs.declared.names.Place.{Place};
ghost use Rattle.heap_graph.specs.Allocation.{with_object};
ghost use Rattle.heap_graph.specs.Graph.{Graph, Object};
ghost use Rattle.heap_graph.specs.Sizes.{size_in};
ghost use Rattle.heap_world.specs.Acts.{with_slot};
ghost use Rattle.heap_graph.specs.Formed.{IsFormed};
ghost use Rattle.object_view.specs.Changes.{pages_in, AreAlone, AreWritten};
ghost use Rattle.object_view.specs.Objects.{IsKnown, IsSpace};
ghost use Rattle.object_view.specs.Seen.{seen_value, HasValue};
ghost use Rattle.object_view.specs.Values.{is_value};
ghost use Rattle.raw_objects.specs.Keeps.{Covers, Keeps};
ghost use Rattle.address_table.specs.Computed.{table_of, Homes, HouseAll};
ghost use Rattle.graph_pages.specs.Pages.{HasRoomFor, PagesHold};

use class_layout::{Classes, Kind};
use cow_pages::{Addr, Frames, TableNo};
use heap_graph::Shape;
use raw_objects::{add_object, store_value};
use std::alloc::AllocError;

/// Stores a value into a field or an element of an object at its address. A reference is its target's address, and null is 0.
pub fn store_in_graph(
    frames: &mut Frames,
    t: TableNo,
    at: Addr,
    kind: Kind,
    offset: u32,
    v: i64,
) -> Result<(), AllocError>
    requires held { (g : Graph) × (homes : Homes) × (o : Object) × (place : FieldAt) × PagesHold frames.old t.0 homes g × HasValue g (table_of homes g) at.0 kind offset o place }
    requires value { IsTrue (is_value kind v) }
    ensures held { OnOk result ((g : Graph) (homes : Homes) (o : Object) (place : FieldAt) (content : Content) → IsFormed g → PagesHold frames.old t.0 homes g
        → HasValue g (table_of homes g) at.0 kind offset o place → seen_value (table_of homes g) content ≡ v
        → PagesHold frames.new t.0 homes (with_slot g o.number (record { at = place; value = content }))) }
    ensures keeps { (may : ℕ → Bool) → may (page_of (at.0 + offset)) ≡ true → Keeps frames.old frames.new t.0 may }
    ensures written { OnOk result (AreWritten frames.new t.0 (page_of (at.0 + offset)) 1) }
    ensures reads { frames.new.reads ≡ frames.old.reads }
    ensures takes { OnOk result (TakesOnCopy frames.old frames.new t.0 (page_of (at.0 + offset))) }
    ensures succeeds { HasOneSharer frames.old t.0 (page_of (at.0 + offset)) ⊎ (frames.old.spare ≢ 0) → IsOk result }
    ensures err { OnErr result (frames.new ≡ frames.old) }
    ensures sound { IsSound frames.new }
{
    store_value(frames, t, at, kind, offset, v)
}

/// Puts a new object beside those of a graph, into pages that are mapped for it. After `AllocError` there is room for it as before.
pub fn add_to_graph(
    frames: &mut Frames,
    classes: &Classes,
    t: TableNo,
    at: Addr,
    shape: Shape,
    number: u32,
) -> Result<(), AllocError>
    requires aligned { at.0 % 8 ≡ 0 }
    requires known { IsKnown classes.now shape }
    requires number { (1 ≤ number) × (number < number_limit) }
    requires space { IsSpace (view_of frames.old t.0) at.0 (size_in classes.now shape) }
    ensures held { OnOk result ((g : Graph) (homes : Homes) (place : Place) → IsFormed g → IsFormed (with_object g shape [] place) → HouseAll homes (with_object g shape [] place) → g.classes ≡ classes.now
        → HasRoomFor frames.old t.0 homes g shape place → g.next ≡ number → table_of homes (with_object g shape [] place) g.next ≡ at.0 → PagesHold frames.new t.0 homes (with_object g shape [] place)) }
    ensures err { OnErr result ((g : Graph) (homes : Homes) (place : Place) → IsFormed g → IsFormed (with_object g shape [] place) → HouseAll homes (with_object g shape [] place) → g.classes ≡ classes.now
        → HasRoomFor frames.old t.0 homes g shape place → table_of homes (with_object g shape [] place) g.next ≡ at.0 → HasRoomFor frames.new t.0 homes g shape place) }
    ensures keeps { (may : ℕ → Bool) → Covers may at.0 (size_in classes.now shape) → Keeps frames.old frames.new t.0 may }
    ensures written { OnOk result (AreWritten frames.new t.0 (page_of at.0) (pages_in at.0 (at.0 + size_in classes.now shape))) }
    ensures reads { frames.new.reads ≡ frames.old.reads }
    ensures succeeds { AreAlone frames.old t.0 (page_of at.0) (pages_in at.0 (at.0 + size_in classes.now shape)) → IsOk result }
    ensures sound { IsSound frames.new }
{
    add_object(frames, classes, t, at, shape, number)
}
