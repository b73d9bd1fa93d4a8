//! Segments, and when a new one begins.
ghost use Rattle.std.specs.Prelude.{◌≡◌, ℕ, ◌<◌, ◌≤◌, List, ◌++◌, true, OnOk, OnErr};
ghost use Rattle.ah_outside.specs.Outside.{FaultRose, Shelved};
ghost use Rattle.hprof_records.specs.Records.{bytes_of_record, bytes_of_records};
ghost use Rattle.hprof_write.specs.Outcomes.{AppendedPrefix, IfShelfFault};
ghost use Rattle.hprof_write.specs.Segments.{begun, closed, heap_name, heap_number, is_full, segment, with_heap, with_room, Filling, IsCurrent, IsFilled};

use crate::DumpError;
use crate::fields::put_words;
use crate::pieces::put_piece;
use crate::strings::string_id;
use ah_outside::Shelf;
use class_layout::Name;
use hprof_records::put_u8;
use indexmap::IndexSet;
use object_view::Heap;
use std::alloc::{AllocError, Global};

// A segment of as many bytes or objects takes no more.
const FULL_BYTES: usize = 4096;

const FULL_OBJECTS: u32 = 128;

/// The segment that is being filled: the bytes of its parts, how many objects they are, and the heap that was told last.
#[derive(Drop)]
pub(crate) struct Current {
    pub(crate) body: Vec<u8>,
    pub(crate) objects: u32,
    pub(crate) heap: u32,
}

impl Current {
    /// A segment with no parts.
    pub(crate) fn new(alloc: Global) -> Current
        ensures { (done : _) → IsCurrent (begun done) result.body.items result.objects result.heap }
    {
        Current {
            body: Vec::new(alloc),
            objects: 0,
            heap: 0,
        }
    }

    // Whether the segment takes no more.
    fn is_full(&self) -> bool
        ensures { (f : Filling) → IsCurrent f self.now.body.items self.now.objects self.now.heap → result ≡ is_full f }
    {
        self.body.len() >= FULL_BYTES || self.objects == FULL_OBJECTS
    }

    // Takes all parts away.
    fn clear(&mut self)
        ensures { (done : _) → IsCurrent (begun done) self.new.body.items self.new.objects self.new.heap }
    {
        self.body.clear();
        self.objects = 0;
        self.heap = 0;
    }

    /// Tells the heap of the objects that follow, where it is another than before.
    pub(crate) fn put_heap(
        &mut self,
        strings: &IndexSet<Name>,
        heap: Heap,
    ) -> Result<(), AllocError>
        ensures told { OnOk result ((f : Filling) → IsCurrent f self.old.body.items self.old.objects self.old.heap
            → IsCurrent (with_heap strings.now.keys heap f) self.new.body.items self.new.objects self.new.heap) }
        ensures objects { self.new.objects ≡ self.old.objects }
    {
        let number = heap_number(heap);
        if self.heap != number {
            let name = string_id(strings, &heap_name(heap))?;
            put_u8(&mut self.body, 0xfe)?;
            put_words(&mut self.body, &[number, name])?;
            self.heap = number;
        }
        Ok(())
    }
}

// The number of a heap.
fn heap_number(heap: Heap) -> u32
    ensures { result ≡ heap_number heap }
{
    match heap {
        Heap::Image => 73,
        Heap::Zygote => 90,
        Heap::App => 65,
    }
}

// The name of a heap.
fn heap_name(heap: Heap) -> Name
    ensures { result ≡ heap_name heap }
{
    match heap {
        Heap::Image => Name::of(b"image").unwrap(),
        Heap::Zygote => Name::of(b"zygote").unwrap(),
        Heap::App => Name::of(b"app").unwrap(),
    }
}

/// Appends the record of the current segment to what waits.
fn put_segment(out: &mut Vec<u8>, current: &Current) -> Result<(), AllocError>
    ensures { OnOk result ((f : Filling) → IsCurrent f current.now.body.items current.now.objects current.now.heap → out.new.items ≡ out.old.items ++ bytes_of_record (segment f.parts)) }
{
    let length = u32::try_from(current.body.len()).map_err(|_| AllocError)?;
    put_u8(out, 0x1c)?;
    put_words(out, &[0, length])?;
    out.extend_from_slice(&current.body)?;
    Ok(())
}

/// Ends the current segment and begins another one.
pub(crate) fn close<F: Shelf>(
    shelf: &mut F,
    waiting: &mut Vec<u8>,
    current: &mut Current,
) -> Result<(), DumpError>
    requires { (F.shelved shelf.old).unfinished ≡ true }
    ensures ok { OnOk result ((start : Shelved) (front : List ℕ) (f : Filling) → IsFilled start front f waiting.old.items (F.shelved shelf.old)
        → IsCurrent f current.old.body.items current.old.objects current.old.heap
        → IsFilled start front (begun (closed f)) waiting.new.items (F.shelved shelf.new)) }
    ensures begun { OnOk result ((done : _) → IsCurrent (begun done) current.new.body.items current.new.objects current.new.heap) }
    ensures failed { OnErr result ((start : Shelved) (front : List ℕ) (f : Filling) → IsFilled start front f waiting.old.items (F.shelved shelf.old)
        → IsCurrent f current.old.body.items current.old.objects current.old.heap
        → AppendedPrefix start (front ++ bytes_of_records (closed f)) (F.shelved shelf.new)) }
    ensures unfinished { OnOk result ((F.shelved shelf.new).unfinished ≡ true) }
    ensures cause { IfShelfFault result (FaultRose (F.fault_count shelf.old) (F.fault_count shelf.new)) }
    ensures never_falls { F.fault_count shelf.old ≤ F.fault_count shelf.new }
{
    put_segment(waiting, current)?;
    put_piece(shelf, waiting)?;
    current.clear();
    Ok(())
}

/// Begins another segment exactly where the current one takes no more.
pub(crate) fn make_room<F: Shelf>(
    shelf: &mut F,
    waiting: &mut Vec<u8>,
    current: &mut Current,
) -> Result<(), DumpError>
    requires { (F.shelved shelf.old).unfinished ≡ true }
    ensures ok { OnOk result ((start : Shelved) (front : List ℕ) (f : Filling) → IsFilled start front f waiting.old.items (F.shelved shelf.old)
        → IsCurrent f current.old.body.items current.old.objects current.old.heap
        → IsFilled start front (with_room f) waiting.new.items (F.shelved shelf.new)
        × IsCurrent (with_room f) current.new.body.items current.new.objects current.new.heap) }
    ensures failed { OnErr result ((start : Shelved) (front : List ℕ) (f : Filling) → IsFilled start front f waiting.old.items (F.shelved shelf.old)
        → IsCurrent f current.old.body.items current.old.objects current.old.heap
        → AppendedPrefix start (front ++ bytes_of_records (with_room f).done) (F.shelved shelf.new)) }
    ensures unfinished { OnOk result ((F.shelved shelf.new).unfinished ≡ true) }
    ensures cause { IfShelfFault result (FaultRose (F.fault_count shelf.old) (F.fault_count shelf.new)) }
    ensures never_falls { F.fault_count shelf.old ≤ F.fault_count shelf.new }
{
    if current.is_full() {
        close(shelf, waiting, current)?;
    }
    Ok(())
}
