//! The values of objects.
ghost use Rattle.std.specs.Prelude.{◌≡◌, ◌⊎◌, ◌≢◌, ℕ, ◌+◌, ◌%◌, ◌^◌, ◌<◌, IsTrue, IsOk, OnOk, OnErr, ℤ, List};
ghost use Rattle.class_layout.specs.declared.kind.FieldAt.{FieldAt};
ghost use Rattle.class_layout.specs.ClassList.{Class};
ghost use Rattle.class_layout.specs.Kinds.{kind_bytes};
ghost use Rattle.page_tables.specs.Address.{page_of};
ghost use Rattle.cow_pages.specs.Memory.{is_mapped, HasOneSharer, IsShared, IsSound};
ghost use Rattle.cow_pages.specs.Change.{reads_after, TakesOnCopy};
ghost use Rattle.cow_pages.specs.View.{view_of, OthersSeen};
ghost use Rattle.object_view.specs.Objects.{IsPlace, Stands};
ghost use Rattle.object_view.specs.Values.{is_value, number_at, number_of, value_of, with_value};
ghost use Rattle.object_view.specs.Changes.{AreWritten, ChangesPages, PutsNumber, StoresNumber};

use crate::Header;
use class_layout::Kind;
use cow_pages::{Addr, Frames, TableNo};
use heap_graph::Shape;
use std::alloc::AllocError;

/// The value of a kind that stands `offset` bytes behind `at`. A reference is its address, and null is 0.
pub fn load(frames: &mut Frames, t: TableNo, at: Addr, kind: Kind, offset: u32) -> i64
    requires below { at.0 + offset < 2 ^ 32 }
    requires aligned { (at.0 + offset) % kind_bytes kind ≡ 0 }
    requires mapped { IsTrue (is_mapped frames.old t.0 (page_of (at.0 + offset))) }
    ensures value { result ≡ value_of kind (number_at (view_of frames.old t.0) kind (at.0 + offset)) }
    ensures object { (cs : List Class) (shape : Shape) (header : Header) (values : FieldAt → ℤ) (place : FieldAt) → Stands cs (view_of frames.old t.0) at.0 shape header values
        → IsPlace cs shape kind offset place → IsTrue (is_value kind (values place)) → result ≡ values place }
    ensures address { kind ≡ Kind.Ref → IsTrue (is_value Kind.Ref result) }
    ensures reads { frames.new ≡ record frames.old { reads = reads_after frames.old.reads (at.0 + offset) } }
    ensures sound { IsSound frames.new }
{
    load_at(frames, t, Addr(at.0 + offset), kind)
}

/// Puts a value of a kind `offset` bytes behind `at`. A reference is its address, and null is 0. Nothing else changes,
/// and after `AllocError` nothing has.
pub fn store(
    frames: &mut Frames,
    t: TableNo,
    at: Addr,
    kind: Kind,
    offset: u32,
    v: i64,
) -> Result<(), AllocError>
    requires below { at.0 + offset < 2 ^ 32 }
    requires aligned { (at.0 + offset) % kind_bytes kind ≡ 0 }
    requires mapped { IsTrue (is_mapped frames.old t.0 (page_of (at.0 + offset))) }
    requires value { IsTrue (is_value kind v) }
    ensures number { OnOk result (PutsNumber (view_of frames.old t.0) (view_of frames.new t.0) kind (at.0 + offset) (number_of kind v)) }
    ensures object { OnOk result ((cs : List Class) (shape : Shape) (header : Header) (values : FieldAt → ℤ) (place : FieldAt) → Stands cs (view_of frames.old t.0) at.0 shape header values
        → IsPlace cs shape kind offset place → Stands cs (view_of frames.new t.0) at.0 shape header (with_value values offset v)) }
    ensures pages { ChangesPages frames.old frames.new t.0 (page_of (at.0 + offset)) 1 }
    ensures written { OnOk result (AreWritten frames.new t.0 (page_of (at.0 + offset)) 1) }
    ensures others_seen { OthersSeen frames.old frames.new t.0 }
    ensures reads { frames.new.reads ≡ frames.old.reads }
    ensures takes { OnOk result (TakesOnCopy frames.old frames.new t.0 (page_of (at.0 + offset))) }
    ensures succeeds { HasOneSharer frames.old t.0 (page_of (at.0 + offset)) ⊎ (frames.old.spare ≢ 0) → IsOk result }
    ensures only { OnErr result (IsShared frames.old t.0 (page_of (at.0 + offset)) × (frames.old.spare ≡ 0)) }
    ensures err { OnErr result (frames.new ≡ frames.old) }
    ensures sound { IsSound frames.new }
{
    store_at(frames, t, Addr(at.0 + offset), kind, v)
}

#[inline]
fn load_at(frames: &mut Frames, t: TableNo, place: Addr, kind: Kind) -> i64
    requires aligned { place.0 % kind_bytes kind ≡ 0 }
    requires mapped { IsTrue (is_mapped frames.old t.0 (page_of place.0)) }
    ensures value { result ≡ value_of kind (number_at (view_of frames.old t.0) kind place.0) }
    ensures reads { frames.new ≡ record frames.old { reads = reads_after frames.old.reads place.0 } }
    ensures sound { IsSound frames.new }
{
    match kind {
        Kind::Ref => i64::from(frames.read_u32(t, place)),
        Kind::Boolean => i64::from(frames.read_u8(t, place)),
        Kind::Byte => i64::from(frames.read_u8(t, place).cast_signed()),
        Kind::Char => i64::from(frames.read_u16(t, place)),
        Kind::Short => i64::from(frames.read_u16(t, place).cast_signed()),
        Kind::Int => i64::from(frames.read_u32(t, place).cast_signed()),
        Kind::Long => frames.read_u64(t, place).cast_signed(),
    }
}

#[inline]
fn store_at(
    frames: &mut Frames,
    t: TableNo,
    place: Addr,
    kind: Kind,
    v: i64,
) -> Result<(), AllocError>
    requires aligned { place.0 % kind_bytes kind ≡ 0 }
    requires mapped { IsTrue (is_mapped frames.old t.0 (page_of place.0)) }
    requires value { IsTrue (is_value kind v) }
    ensures { StoresNumber result frames.old frames.new t.0 kind place.0 (number_of kind v) }
{
    match kind {
        Kind::Ref => frames.write_u32(t, place, v as u32),
        Kind::Boolean => frames.write_u8(t, place, v as u8),
        Kind::Byte => frames.write_u8(t, place, (v as i8).cast_unsigned()),
        Kind::Char => frames.write_u16(t, place, v as u16),
        Kind::Short => frames.write_u16(t, place, (v as i16).cast_unsigned()),
        Kind::Int => frames.write_u32(t, place, (v as i32).cast_unsigned()),
        Kind::Long => frames.write_u64(t, place, v.cast_unsigned()),
    }
}
