//! The words of an object: its shape, and its number or where it went.
ghost use Rattle.std.specs.Prelude.{◌≡◌, ◌⊎◌, ◌≢◌, ℕ, ◌+◌, ◌%◌, [], ◌∷◌, IsTrue, IsOk, OnOk, OnErr, ℤ, List};
ghost use Rattle.class_layout.specs.declared.kind.FieldAt.{FieldAt};
ghost use Rattle.class_layout.specs.ClassList.{Class};
ghost use Rattle.page_tables.specs.Address.{page_of};
ghost use Rattle.cow_pages.specs.Memory.{is_mapped, HasOneSharer, IsShared, IsSound};
ghost use Rattle.cow_pages.specs.Change.{reads_after, TakesOnCopy};
ghost use Rattle.cow_pages.specs.View.{view_of, OthersSeen};
ghost use Rattle.object_view.specs.Words.{lock_word};
ghost use Rattle.object_view.specs.Objects.{HasHeader, HasShape, Stands};
ghost use Rattle.object_view.specs.Changes.{reads_after_all, shape_reads, AreWritten, ChangesPages, PutsNumber};

use crate::Header;
use crate::words::{array_kind, class_of, header_of, lock_word};
use class_layout::Kind;
use cow_pages::{Addr, Frames, TableNo};
use heap_graph::Shape;
use std::alloc::AllocError;

/// The shape of an object.
pub fn read_shape(frames: &mut Frames, t: TableNo, at: Addr) -> Shape
    requires { (shape : Shape) × HasShape (view_of frames.old t.0) at.0 shape }
    ensures shape { HasShape (view_of frames.old t.0) at.0 result }
    ensures only { (shape : Shape) → HasShape (view_of frames.old t.0) at.0 shape → result ≡ shape }
    ensures reads { frames.new ≡ record frames.old { reads = reads_after_all frames.old.reads (shape_reads at.0 result) } }
    ensures sound { IsSound frames.new }
{
    let word = frames.read_u32(t, at);
    match array_kind(word) {
        Some(kind) => {
            let count = frames.read_u32(t, Addr(at.0 + 8));
            Shape::Array { kind, count }
        }
        None => Shape::Instance(class_of(word)),
    }
}

/// The number of an object, or where it went.
pub fn read_header(frames: &mut Frames, t: TableNo, at: Addr) -> Header
    requires { (header : Header) × HasHeader (view_of frames.old t.0) at.0 header }
    ensures header { HasHeader (view_of frames.old t.0) at.0 result }
    ensures only { (header : Header) → HasHeader (view_of frames.old t.0) at.0 header → result ≡ header }
    ensures reads { frames.new ≡ record frames.old { reads = reads_after frames.old.reads (at.0 + 4) } }
    ensures sound { IsSound frames.new }
{
    header_of(frames.read_u32(t, Addr(at.0 + 4)))
}

/// Notes in an object's lock word where it went, `to`. Nothing else of it changes.
pub fn set_forward(frames: &mut Frames, t: TableNo, at: Addr, to: Addr) -> Result<(), AllocError>
    requires aligned { at.0 % 8 ≡ 0 }
    requires mapped { IsTrue (is_mapped frames.old t.0 (page_of at.0)) }
    requires multiple { to.0 % 8 ≡ 0 }
    ensures word { OnOk result (PutsNumber (view_of frames.old t.0) (view_of frames.new t.0) Kind.Int (at.0 + 4) (lock_word (Header.Forward to))) }
    ensures object { OnOk result ((cs : List Class) (shape : Shape) (header : Header) (values : FieldAt → ℤ) → Stands cs (view_of frames.old t.0) at.0 shape header values
        → Stands cs (view_of frames.new t.0) at.0 shape (Header.Forward to) values) }
    ensures pages { ChangesPages frames.old frames.new t.0 (page_of at.0) 1 }
    ensures written { OnOk result (AreWritten frames.new t.0 (page_of at.0) 1) }
    ensures others_seen { OthersSeen frames.old frames.new t.0 }
    ensures reads { frames.new.reads ≡ frames.old.reads }
    ensures takes { OnOk result (TakesOnCopy frames.old frames.new t.0 (page_of at.0)) }
    ensures succeeds { HasOneSharer frames.old t.0 (page_of at.0) ⊎ (frames.old.spare ≢ 0) → IsOk result }
    ensures only { OnErr result (IsShared frames.old t.0 (page_of at.0) × (frames.old.spare ≡ 0)) }
    ensures err { OnErr result (frames.new ≡ frames.old) }
    ensures sound { IsSound frames.new }
{
    frames.write_u32(t, Addr(at.0 + 4), lock_word(Header::Forward(to)))
}
