//! Values stored into objects, and new objects.
ghost use Rattle.std.specs.Prelude.{◌≡◌, ◌⊎◌, ◌≢◌, ℕ, ◌+◌, ◌%◌, ◌^◌, ◌<◌, ◌≤◌, Bool, true, IsTrue, IsOk, OnOk, OnErr, List};
ghost use Rattle.model_numbers.specs.Numbers.{number_limit};
ghost use Rattle.class_layout.specs.declared.kind.FieldAt.{FieldAt};
ghost use Rattle.class_layout.specs.ClassList.{Class};
ghost use Rattle.class_layout.specs.Kinds.{kind_bytes};
ghost use Rattle.page_tables.specs.Address.{page_of};
ghost use Rattle.cow_pages.specs.Memory.{is_mapped, HasOneSharer, IsShared, IsSound};
ghost use Rattle.cow_pages.specs.Change.{TakesOnCopy};
ghost use Rattle.cow_pages.specs.View.{view_of};
ghost use Rattle.heap_graph.specs.Sizes.{size_in};
ghost use Rattle.object_view.specs.Changes.{pages_in, AreAlone, AreWritten};
ghost use Rattle.object_view.specs.Objects.{IsKnown, IsPlace, IsSpace};
ghost use Rattle.object_view.specs.Values.{is_value};
ghost use Rattle.raw_objects.specs.Keeps.{Covers, Keeps};
ghost use Rattle.raw_objects.specs.Raws.{added, new_raw, stored, HoldsRaws, IsFreeSpace, Raws};

use class_layout::{Classes, Kind};
use cow_pages::{Addr, Frames, TableNo};
use heap_graph::Shape;
use object_view::{store, write_new};
use std::alloc::AllocError;

/// Stores a value into an object.
pub fn store_value(
    frames: &mut Frames,
    t: TableNo,
    at: Addr,
    kind: Kind,
    offset: u32,
    v: i64,
) -> Result<(), AllocError>
    requires below { at.0 + offset < 2 ^ 32 }
    requires aligned { (at.0 + offset) % kind_bytes kind ≡ 0 }
    requires mapped { IsTrue (is_mapped frames.old t.0 (page_of (at.0 + offset))) }
    requires value { IsTrue (is_value kind v) }
    ensures held { OnOk result ((cs : List Class) (raws : Raws) (place : FieldAt) → HoldsRaws cs (view_of frames.old t.0) raws → raws.has at.0 ≡ true
        → IsPlace cs (raws.raw at.0).shape kind offset place → HoldsRaws cs (view_of frames.new t.0) (stored raws at.0 offset v)) }
    ensures keeps { (may : ℕ → Bool) → may (page_of (at.0 + offset)) ≡ true → Keeps frames.old frames.new t.0 may }
    ensures written { OnOk result (AreWritten frames.new t.0 (page_of (at.0 + offset)) 1) }
    ensures reads { frames.new.reads ≡ frames.old.reads }
    ensures takes { OnOk result (TakesOnCopy frames.old frames.new t.0 (page_of (at.0 + offset))) }
    ensures succeeds { HasOneSharer frames.old t.0 (page_of (at.0 + offset)) ⊎ (frames.old.spare ≢ 0) → IsOk result }
    ensures only { OnErr result (IsShared frames.old t.0 (page_of (at.0 + offset)) × (frames.old.spare ≡ 0)) }
    ensures err { OnErr result (frames.new ≡ frames.old) }
    ensures sound { IsSound frames.new }
{
    store(frames, t, at, kind, offset, v)
}

/// Puts a new object into bytes that no object has. After `AllocError` these bytes alone may have changed.
pub fn add_object(
    frames: &mut Frames,
    classes: &Classes,
    t: TableNo,
    at: Addr,
    shape: Shape,
    number: u32,
) -> Result<(), AllocError>
    requires aligned { at.0 % 8 ≡ 0 }
    requires known { IsKnown classes.now shape }
    requires number { (1 ≤ number) × (number < number_limit) }
    requires space { IsSpace (view_of frames.old t.0) at.0 (size_in classes.now shape) }
    ensures held { OnOk result ((raws : Raws) → HoldsRaws classes.now (view_of frames.old t.0) raws → IsFreeSpace classes.now raws at.0 (size_in classes.now shape)
        → HoldsRaws classes.now (view_of frames.new t.0) (added raws at.0 (new_raw shape number))) }
    ensures others { (cs : List Class) (raws : Raws) → HoldsRaws cs (view_of frames.old t.0) raws → IsFreeSpace cs raws at.0 (size_in classes.now shape) → HoldsRaws cs (view_of frames.new t.0) raws }
    ensures keeps { (may : ℕ → Bool) → Covers may at.0 (size_in classes.now shape) → Keeps frames.old frames.new t.0 may }
    ensures written { OnOk result (AreWritten frames.new t.0 (page_of at.0) (pages_in at.0 (at.0 + size_in classes.now shape))) }
    ensures reads { frames.new.reads ≡ frames.old.reads }
    ensures succeeds { AreAlone frames.old t.0 (page_of at.0) (pages_in at.0 (at.0 + size_in classes.now shape)) → IsOk result }
    ensures sound { IsSound frames.new }
{
    write_new(frames, classes, t, at, shape, number)
}
