//! Whole objects, and their references.
ghost use Rattle.std.specs.Prelude.{◌≡◌, ◌≢◌, ◌⊎◌, false, ℕ, ◌+◌, ◌*◌, ◌/◌, ◌%◌, ◌^◌, ◌<◌, ◌≤◌, [], ◌++◌, Option, None, Some, option_map, IsTrue, IsOk, IfOk, IsSomeAnd, OnOk, OnErr, ℤ, List};
ghost use Rattle.class_layout.specs.declared.kind.FieldAt.{FieldAt};
ghost use Rattle.class_layout.specs.ClassList.{Class};
ghost use Rattle.page_tables.specs.Address.{page_of, offset_of, is_immune};
ghost use Rattle.cow_pages.specs.Memory.{is_mapped, IsShared, IsSound, Memory};
ghost use Rattle.cow_pages.specs.View.{byte_at, view_of, OthersSeen, WritesBytes};
ghost use Rattle.std.specs.Int.{w64, to_le_bytes};
ghost use Rattle.model_numbers.specs.Numbers.{number_limit, page_bytes};
ghost use Rattle.cow_pages.specs.Change.{reads_after};
ghost use Rattle.heap_graph.specs.Sizes.{size_in};
ghost use Rattle.object_view.specs.Words.{class_word, head_end, lock_word};
ghost use Rattle.object_view.specs.Values.{is_value, no_values};
ghost use Rattle.object_view.specs.Objects.{reference_place, slot_at, HasShape, HasWords, IsKnown, IsObject, IsSlotOf, IsSpace, Stands};
ghost use Rattle.object_view.specs.Changes.{pages_in, reads_after_all, shape_reads, slot_reads, steps_from, AreAlone, AreWritten, ChangesPages, ChangesWithin, HasBytes, IsCopying, WritesSpan, WritesWords};

use crate::headers::read_shape;
use crate::words::{class_word, lock_word};
use crate::{Header, Slot};
use class_layout::{Classes, Kind, array_size};
use cow_pages::{Addr, Frames, TableNo};
use heap_graph::Shape;
use model_numbers::PAGE_BYTES;
use std::alloc::AllocError;

/// Puts an object there: its words, and zeros and nulls up to its rounded size.
///
/// After `AllocError` its first words may have been written, in pages that now have their flags and frames of their own. Nothing else has changed.
pub fn write_new(
    frames: &mut Frames,
    classes: &Classes,
    t: TableNo,
    at: Addr,
    shape: Shape,
    number: u32,
) -> Result<(), AllocError>
    requires aligned { at.0 % 8 ≡ 0 }
    requires known { IsKnown classes.now shape }
    requires number { (1 ≤ number) × (number < number_limit) }
    requires space { IsSpace (view_of frames.old t.0) at.0 (size_in classes.now shape) }
    ensures object { OnOk result (Stands classes.now (view_of frames.new t.0) at.0 shape (Header.Number number) no_values) }
    ensures bytes { ChangesWithin (view_of frames.old t.0) (view_of frames.new t.0) at.0 (at.0 + size_in classes.now shape) }
    ensures pages { ChangesPages frames.old frames.new t.0 (page_of at.0) (pages_in at.0 (at.0 + size_in classes.now shape)) }
    ensures written { OnOk result (AreWritten frames.new t.0 (page_of at.0) (pages_in at.0 (at.0 + size_in classes.now shape))) }
    ensures partly { OnErr result ((n : ℕ) × (8 * n ≤ size_in classes.now shape) × WritesWords frames.old frames.new t.0 at.0 n) }
    ensures others_seen { OthersSeen frames.old frames.new t.0 }
    ensures reads { frames.new.reads ≡ frames.old.reads }
    ensures succeeds { AreAlone frames.old t.0 (page_of at.0) (pages_in at.0 (at.0 + size_in classes.now shape)) → IsOk result }
    ensures sound { IsSound frames.new }
{
    let words = (size_of(classes, shape) / 8) as u32;
    let first = write_head(frames, classes, t, at, shape, number)?;
    write_zeros(frames, t, at, first, words)
}

/// Copies the bytes of an object, each piece of them that lies in one page here and there as a slice. Where the reads are
/// counted, or both pieces lie in one page, it copies 8 bytes at a time.
///
/// After `AllocError` the first of them may have been written, as those of `write_new`.
pub fn copy_object(
    frames: &mut Frames,
    t: TableNo,
    from: Addr,
    to: Addr,
    size: u32,
) -> Result<(), AllocError>
    requires from_aligned { from.0 % 8 ≡ 0 }
    requires to_aligned { to.0 % 8 ≡ 0 }
    requires size_aligned { size % 8 ≡ 0 }
    requires from_space { IsSpace (view_of frames.old t.0) from.0 size }
    requires to_space { IsSpace (view_of frames.old t.0) to.0 size }
    requires apart { (from.0 + size ≤ to.0) ⊎ (to.0 + size ≤ from.0) }
    ensures object { OnOk result ((cs : List Class) (shape : Shape) (header : Header) (values : FieldAt → ℤ) → size_in cs shape ≡ size → Stands cs (view_of frames.old t.0) from.0 shape header values
        → Stands cs (view_of frames.new t.0) to.0 shape header values) }
    ensures copied { OnOk result (HasBytes (view_of frames.old t.0) (view_of frames.new t.0) from.0 to.0 size) }
    ensures bytes { ChangesWithin (view_of frames.old t.0) (view_of frames.new t.0) to.0 (to.0 + size) }
    ensures pages { ChangesPages frames.old frames.new t.0 (page_of to.0) (pages_in to.0 (to.0 + size)) }
    ensures written { OnOk result (AreWritten frames.new t.0 (page_of to.0) (pages_in to.0 (to.0 + size))) }
    ensures partly { OnErr result ((n : ℕ) × (8 * n ≤ size) × WritesWords frames.old frames.new t.0 to.0 n) }
    ensures others_seen { OthersSeen frames.old frames.new t.0 }
    ensures reads { OnOk result (frames.new.reads ≡ reads_after_all frames.old.reads (steps_from from.0 (size / 8))) }
    ensures fewer_reads { OnErr result ((n : ℕ) × (n ≤ size / 8) × (frames.new.reads ≡ reads_after_all frames.old.reads (steps_from from.0 n))) }
    ensures succeeds { AreAlone frames.old t.0 (page_of to.0) (pages_in to.0 (to.0 + size)) → IsOk result }
    ensures sound { 0 < size → IsSound frames.new }
{
    let words = size / 8;
    let mut i = 0;
    while i < words {
        let n = copy_some(frames, t, from, to, i, words)?;
        i += n;
    }
    Ok(())
}

// Copies words of 8 bytes from number `i` on, and tells how many: as many as lie in one page here and there, or one.
fn copy_some(
    frames: &mut Frames,
    t: TableNo,
    from: Addr,
    to: Addr,
    i: u32,
    words: u32,
) -> Result<u32, AllocError>
    requires from_aligned { from.0 % 8 ≡ 0 }
    requires to_aligned { to.0 % 8 ≡ 0 }
    requires rising { i < words }
    requires from_space { IsSpace (view_of frames.old t.0) from.0 (8 * words) }
    requires to_space { IsSpace (view_of frames.old t.0) to.0 (8 * words) }
    requires apart { (from.0 + 8 * words ≤ to.0) ⊎ (to.0 + 8 * words ≤ from.0) }
    ensures some { IfOk result (λ n. (0 < n) × (i + n ≤ words)) }
    ensures copies { IfOk result (λ n. (m : Memory) → IsCopying m frames.old t.0 from.0 to.0 i → IsCopying m frames.new t.0 from.0 to.0 (i + n)) }
    ensures only { OnErr result (IsShared frames.old t.0 (page_of (to.0 + 8 * i))) }
    ensures err { OnErr result (frames.new ≡ record frames.old { reads = reads_after frames.old.reads (from.0 + 8 * i) }) }
    ensures sound { IsSound frames.new }
{
    let source = Addr(from.0 + 8 * i);
    let target = Addr(to.0 + 8 * i);
    if !is_sliced(source, target) {
        let word = frames.read_u64(t, source);
        write_word(frames, t, to, i, word)?;
        return Ok(1);
    }
    let count = words_in_page(source)
        .min(words_in_page(target))
        .min((words - i) as usize);
    frames.copy_slice(t, source, target, 8 * count)?;
    Ok(count as u32)
}

// Whether bytes may be copied as a slice: their reads aren't counted, and the pages are two.
#[inline]
fn is_sliced(source: Addr, target: Addr) -> bool
    ensures { IsTrue result → (is_immune source.0 ≡ false) × (page_of source.0 ≢ page_of target.0) }
{
    !source.is_immune() && source.page().0 != target.page().0
}

// How many words of 8 bytes stand from an address on in its page.
#[inline]
fn words_in_page(at: Addr) -> usize
    requires { at.0 % 8 ≡ 0 }
    ensures some { 0 < result }
    ensures within { offset_of at.0 + 8 * result ≡ page_bytes }
{
    (PAGE_BYTES as usize - at.offset()) / 8
}

/// The object's reference number `k`, from 0 by rising address. `None` from the number of its references on.
pub fn ref_slot(
    frames: &mut Frames,
    classes: &Classes,
    t: TableNo,
    at: Addr,
    k: usize,
) -> Option<Slot>
    requires { (shape : Shape) × IsObject classes.now (view_of frames.old t.0) at.0 shape }
    ensures slot { (shape : Shape) → HasShape (view_of frames.old t.0) at.0 shape → result ≡ option_map (slot_at (view_of frames.old t.0) at.0) (reference_place classes.now shape k) }
    ensures object { (shape : Shape) (header : Header) (values : FieldAt → ℤ) (place : FieldAt) → Stands classes.now (view_of frames.old t.0) at.0 shape header values
        → reference_place classes.now shape k ≡ Some place → IsTrue (is_value Kind.Ref (values place)) → IsSomeAnd result (IsSlotOf at.0 place values) }
    ensures reads { (shape : Shape) → HasShape (view_of frames.old t.0) at.0 shape → frames.new ≡ record frames.old { reads = reads_after_all frames.old.reads (shape_reads at.0 shape ++ slot_reads result) } }
    ensures sound { IsSound frames.new }
{
    let shape = read_shape(frames, t, at);
    let (offset, weak) = reference_at(classes, shape, k)?;
    let at = Addr(at.0 + offset);
    let target = Addr(frames.read_u32(t, at));
    Some(Slot { at, target, weak })
}

/// The offset in bytes of reference number `k` in an object of a shape, counted from 0 by rising offset, and whether it is
/// weak. `None` from the number of references on. Nothing is read.
pub fn reference_at(classes: &Classes, shape: Shape, k: usize) -> Option<(u32, bool)>
    requires known { IsKnown classes.now shape }
    requires bounded { size_in classes.now shape ≤ 2 ^ 32 }
    ensures { result ≡ option_map (λ (place : FieldAt). (place.offset, place.weak)) (reference_place classes.now shape k) }
{
    match shape {
        Shape::Instance(class) => classes.ref_offset(class, k),
        Shape::Array {
            kind: Kind::Ref,
            count,
        } if k < count as usize => Some((12 + 4 * k as u32, false)),
        Shape::Array { .. } => None,
    }
}

// Writes the words of a new object, and tells how many of 8 bytes they are.
fn write_head(
    frames: &mut Frames,
    classes: &Classes,
    t: TableNo,
    at: Addr,
    shape: Shape,
    number: u32,
) -> Result<u32, AllocError>
    requires aligned { at.0 % 8 ≡ 0 }
    requires known { IsKnown classes.now shape }
    requires number { (1 ≤ number) × (number < number_limit) }
    requires space { IsSpace (view_of frames.old t.0) at.0 (size_in classes.now shape) }
    ensures head { IfOk result (λ n. HasWords (view_of frames.new t.0) at.0 shape (Header.Number number) (8 * n)) }
    ensures all { IfOk result (λ n. (head_end shape ≤ 8 * n) × (8 * n ≤ size_in classes.now shape) × WritesWords frames.old frames.new t.0 at.0 n) }
    ensures some { OnErr result ((n : ℕ) × (8 * n ≤ size_in classes.now shape) × WritesWords frames.old frames.new t.0 at.0 n) }
    ensures reads { frames.new.reads ≡ frames.old.reads }
    ensures only { OnErr result (AreAlone frames.old t.0 (page_of at.0) (pages_in at.0 (at.0 + size_in classes.now shape)) → ⊥) }
    ensures sound { IsSound frames.new }
{
    write_word(frames, t, at, 0, head_of(classes, shape, number))?;
    match shape {
        Shape::Instance(_) => Ok(1),
        Shape::Array { count, .. } => {
            write_word(frames, t, at, 1, u64::from(count))?;
            Ok(2)
        }
    }
}

// Class word and lock word of a new object, as one number.
fn head_of(classes: &Classes, shape: Shape, number: u32) -> u64
    requires known { IsKnown classes.now shape }
    requires number { (1 ≤ number) × (number < number_limit) }
    ensures value { result ≡ class_word shape + lock_word (Header.Number number) * 2 ^ 32 }
    ensures small { class_word shape < 2 ^ 32 }
{
    let class_word = class_word(classes, shape);
    u64::from(class_word) + u64::from(lock_word(Header::Number(number))) * 0x1_0000_0000
}

// Writes word number `index` of those of 8 bytes that stand from `at` on.
#[inline]
fn write_word(
    frames: &mut Frames,
    t: TableNo,
    at: Addr,
    index: u32,
    word: u64,
) -> Result<(), AllocError>
    requires aligned { at.0 % 8 ≡ 0 }
    requires below { at.0 + 8 * index < 2 ^ 32 }
    requires mapped { IsTrue (is_mapped frames.old t.0 (page_of (at.0 + 8 * index))) }
    ensures bytes { OnOk result (WritesBytes (view_of frames.old t.0) (view_of frames.new t.0) (at.0 + 8 * index) (to_le_bytes w64 word)) }
    ensures span { OnOk result ((m : Memory) → WritesSpan m frames.old t.0 at.0 (at.0 + 8 * index) → WritesSpan m frames.new t.0 at.0 (at.0 + 8 * (index + 1))) }
    ensures reads { frames.new.reads ≡ frames.old.reads }
    ensures only { OnErr result (IsShared frames.old t.0 (page_of (at.0 + 8 * index))) }
    ensures err { OnErr result (frames.new ≡ frames.old) }
    ensures sound { IsSound frames.new }
{
    frames.write_u64(t, Addr(at.0 + 8 * index), word)
}

// Writes zeros in the words of 8 bytes from `at` on, from the first of these numbers up to the other.
fn write_zeros(
    frames: &mut Frames,
    t: TableNo,
    at: Addr,
    first: u32,
    words: u32,
) -> Result<(), AllocError>
    requires aligned { at.0 % 8 ≡ 0 }
    requires space { IsSpace (view_of frames.old t.0) at.0 (8 * words) }
    requires rising { first ≤ words }
    ensures zeros { OnOk result ((b : ℕ) → at.0 + 8 * first ≤ b → b < at.0 + 8 * words → byte_at frames.new t.0 b ≡ 0) }
    ensures bytes { ChangesWithin (view_of frames.old t.0) (view_of frames.new t.0) (at.0 + 8 * first) (at.0 + 8 * words) }
    ensures span { OnOk result ((m : Memory) → WritesSpan m frames.old t.0 at.0 (at.0 + 8 * first) → WritesSpan m frames.new t.0 at.0 (at.0 + 8 * words)) }
    ensures some { OnErr result ((m : Memory) → WritesWords m frames.old t.0 at.0 first → (n : ℕ) × (n ≤ words) × WritesWords m frames.new t.0 at.0 n) }
    ensures reads { frames.new.reads ≡ frames.old.reads }
    ensures only { OnErr result ((m : Memory) → WritesSpan m frames.old t.0 at.0 (at.0 + 8 * first) → AreAlone m t.0 (page_of at.0) (pages_in at.0 (at.0 + 8 * words)) → ⊥) }
    ensures sound { IsSound frames.old → IsSound frames.new }
{
    for i in first..words {
        write_word(frames, t, at, i, 0)?;
    }
    Ok(())
}

/// The bytes that an object of a shape takes, rounded up to a multiple of 8.
pub fn size_of(classes: &Classes, shape: Shape) -> u64
    requires { IsKnown classes.now shape }
    ensures { result ≡ size_in classes.now shape }
{
    match shape {
        Shape::Instance(class) => classes.size(class),
        Shape::Array { kind, count } => array_size(kind, count),
    }
}
