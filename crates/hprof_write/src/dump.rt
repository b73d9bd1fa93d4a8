//! A whole dump.
ghost use Rattle.std.specs.Prelude.{◌≡◌, ℕ, ◌+◌, ◌<◌, ◌≤◌, List, ◌++◌, None, Some, fold, length, map, slice_get, true, IsSomeAnd, OnOk, OnErr};
ghost use Rattle.ah_outside.specs.Outside.{Appended, FaultRose, Shelved};
ghost use Rattle.hprof_records.specs.Records.{bytes_of_record, bytes_of_records, dump_bytes};
ghost use Rattle.heap_graph.specs.declared.names.Held.{Held};
ghost use Rattle.hprof_records.specs.Parts.{bytes_of_part};
ghost use Rattle.hprof_records.specs.declared.sub_record.SubRecord.{SubRecord};
ghost use Rattle.object_view.specs.Seen.{root_address, step_reads, RoseBy};
ghost use Rattle.hprof_write.specs.Classes.{array_class_dump, class_dump, class_dumps, class_dumps_from, load_records};
ghost use Rattle.hprof_write.specs.Objects.{held_parts, root_parts};
ghost use Rattle.hprof_write.specs.Outcomes.{AppendedBut, AppendedPrefix, IfShelfFault};
ghost use Rattle.hprof_write.specs.Reads.{dump_reads, object_values};
ghost use Rattle.hprof_write.specs.Segments.{segments, with_item, with_room, Bare, Filling, IsCurrent, IsFilled};
ghost use Rattle.hprof_write.specs.Strings.{text_records};
ghost use Rattle.hprof_write.specs.Written.{dump_end, front_of, items, object_item, written};

use crate::DumpError;
use crate::class_dump::{ARRAY_CLASS, class_id, put_array_class, put_class};
use crate::fields::put_words;
use crate::front::{put_header, put_load, put_text, put_trace};
use crate::objects::put_object;
use crate::pieces::{put_piece, put_rest};
use crate::segment::{Current, close, make_room};
use crate::strings::strings_of;
use crate::table_text::next_seen;
use ah_outside::Shelf;
use class_layout::{Classes, Name};
use cow_pages::Addr;
use hprof_records::put_u8;
use indexmap::IndexSet;
use object_view::HeapView;
use std::alloc::{AllocError, Global};

/// Appends the dump of what the view shows to the unfinished entry, with the time in milliseconds. After an error some
/// first bytes of the dump may have been appended.
pub fn write_dump<V: HeapView, F: Shelf>(
    alloc: Global,
    view: &mut V,
    time: u64,
    shelf: &mut F,
) -> Result<(), DumpError>
    requires { (F.shelved shelf.old).unfinished ≡ true }
    ensures ok { OnOk result (Appended (F.shelved shelf.old) (dump_bytes time (written (V.graph view.old) (V.table view.old))) (F.shelved shelf.new)) }
    ensures failed { OnErr result (AppendedPrefix (F.shelved shelf.old) (dump_bytes time (written (V.graph view.old) (V.table view.old))) (F.shelved shelf.new)) }
    ensures cause { IfShelfFault result (FaultRose (F.fault_count shelf.old) (F.fault_count shelf.new)) }
    ensures never_falls { F.fault_count shelf.old ≤ F.fault_count shelf.new }
    ensures same { V.same view.old view.new }
    ensures reads { RoseBy (dump_reads (V.graph view.old)) (V.read_count view.old) (V.read_count view.new) }
{
    let strings = strings_of(alloc, view.classes())?;
    let mut waiting = Vec::new(alloc);
    put_header(&mut waiting, time)?;
    put_front(view.classes(), &strings, shelf, &mut waiting)?;
    put_segments(alloc, view, &strings, shelf, &mut waiting)?;
    put_end(&mut waiting)?;
    put_rest(shelf, &waiting)?;
    Ok(())
}

// The end of a dump.
fn put_end(out: &mut Vec<u8>) -> Result<(), AllocError>
    ensures { OnOk result (out.new.items ≡ out.old.items ++ bytes_of_record dump_end) }
{
    put_u8(out, 0x2c)?;
    put_words(out, &[0, 0])
}

// What stands between the header and the segments.
fn put_front<F: Shelf>(
    classes: &Classes,
    strings: &IndexSet<Name>,
    shelf: &mut F,
    waiting: &mut Vec<u8>,
) -> Result<(), DumpError>
    requires { (F.shelved shelf.old).unfinished ≡ true }
    ensures ok { OnOk result ((start : Shelved) (bytes : List ℕ) → AppendedBut start bytes waiting.old.items (F.shelved shelf.old)
        → AppendedBut start (bytes ++ bytes_of_records (front_of strings.now.keys classes.now)) waiting.new.items (F.shelved shelf.new)) }
    ensures failed { OnErr result ((start : Shelved) (bytes : List ℕ) → AppendedBut start bytes waiting.old.items (F.shelved shelf.old)
        → AppendedPrefix start (bytes ++ bytes_of_records (front_of strings.now.keys classes.now)) (F.shelved shelf.new)) }
    ensures unfinished { OnOk result ((F.shelved shelf.new).unfinished ≡ true) }
    ensures cause { IfShelfFault result (FaultRose (F.fault_count shelf.old) (F.fault_count shelf.new)) }
    ensures never_falls { F.fault_count shelf.old ≤ F.fault_count shelf.new }
{
    put_texts(strings, shelf, waiting)?;
    put_loads(classes, strings, shelf, waiting)?;
    put_trace(waiting)?;
    Ok(())
}

// The strings.
fn put_texts<F: Shelf>(
    strings: &IndexSet<Name>,
    shelf: &mut F,
    waiting: &mut Vec<u8>,
) -> Result<(), DumpError>
    requires { (F.shelved shelf.old).unfinished ≡ true }
    ensures ok { OnOk result ((start : Shelved) (bytes : List ℕ) → AppendedBut start bytes waiting.old.items (F.shelved shelf.old)
        → AppendedBut start (bytes ++ bytes_of_records (text_records 1 strings.now.keys)) waiting.new.items (F.shelved shelf.new)) }
    ensures failed { OnErr result ((start : Shelved) (bytes : List ℕ) → AppendedBut start bytes waiting.old.items (F.shelved shelf.old)
        → AppendedPrefix start (bytes ++ bytes_of_records (text_records 1 strings.now.keys)) (F.shelved shelf.new)) }
    ensures unfinished { OnOk result ((F.shelved shelf.new).unfinished ≡ true) }
    ensures cause { IfShelfFault result (FaultRose (F.fault_count shelf.old) (F.fault_count shelf.new)) }
    ensures never_falls { F.fault_count shelf.old ≤ F.fault_count shelf.new }
{
    if strings.len() >= u32::MAX as usize {
        return Err(DumpError::OutOfMemory);
    }
    for k in 0..strings.len() {
        let text = strings.get_index(k).unwrap();
        put_text(waiting, k as u32 + 1, text)?;
        put_piece(shelf, waiting)?;
    }
    Ok(())
}

// The classes that were loaded.
fn put_loads<F: Shelf>(
    classes: &Classes,
    strings: &IndexSet<Name>,
    shelf: &mut F,
    waiting: &mut Vec<u8>,
) -> Result<(), DumpError>
    requires { (F.shelved shelf.old).unfinished ≡ true }
    ensures ok { OnOk result ((start : Shelved) (bytes : List ℕ) → AppendedBut start bytes waiting.old.items (F.shelved shelf.old)
        → AppendedBut start (bytes ++ bytes_of_records (load_records strings.now.keys classes.now)) waiting.new.items (F.shelved shelf.new)) }
    ensures failed { OnErr result ((start : Shelved) (bytes : List ℕ) → AppendedBut start bytes waiting.old.items (F.shelved shelf.old)
        → AppendedPrefix start (bytes ++ bytes_of_records (load_records strings.now.keys classes.now)) (F.shelved shelf.new)) }
    ensures unfinished { OnOk result ((F.shelved shelf.new).unfinished ≡ true) }
    ensures cause { IfShelfFault result (FaultRose (F.fault_count shelf.old) (F.fault_count shelf.new)) }
    ensures never_falls { F.fault_count shelf.old ≤ F.fault_count shelf.new }
{
    let count = classes.count();
    for class in 0..count {
        put_load(
            waiting,
            strings,
            class + 1,
            class_id(class),
            &classes.name(class),
        )?;
        put_piece(shelf, waiting)?;
    }
    let name = Name::of(b"java.lang.Object[]").unwrap();
    put_load(waiting, strings, count + 1, ARRAY_CLASS, &name)?;
    Ok(())
}

// The segments: the roots, the classes, the objects.
fn put_segments<V: HeapView, F: Shelf>(
    alloc: Global,
    view: &mut V,
    strings: &IndexSet<Name>,
    shelf: &mut F,
    waiting: &mut Vec<u8>,
) -> Result<(), DumpError>
    requires { (F.shelved shelf.old).unfinished ≡ true }
    ensures ok { OnOk result ((start : Shelved) (bytes : List ℕ) → AppendedBut start bytes waiting.old.items (F.shelved shelf.old)
        → AppendedBut start (bytes ++ bytes_of_records (segments strings.now.keys (items strings.now.keys (V.graph view.old) (V.table view.old)))) waiting.new.items (F.shelved shelf.new)) }
    ensures failed { OnErr result ((start : Shelved) (bytes : List ℕ) → AppendedBut start bytes waiting.old.items (F.shelved shelf.old)
        → AppendedPrefix start (bytes ++ bytes_of_records (segments strings.now.keys (items strings.now.keys (V.graph view.old) (V.table view.old)))) (F.shelved shelf.new)) }
    ensures unfinished { OnOk result ((F.shelved shelf.new).unfinished ≡ true) }
    ensures cause { IfShelfFault result (FaultRose (F.fault_count shelf.old) (F.fault_count shelf.new)) }
    ensures never_falls { F.fault_count shelf.old ≤ F.fault_count shelf.new }
    ensures same { V.same view.old view.new }
    ensures reads { RoseBy (dump_reads (V.graph view.old)) (V.read_count view.old) (V.read_count view.new) }
{
    let mut current = Current::new(alloc);
    put_roots(view, shelf, waiting, &mut current)?;
    put_classes(view.classes(), strings, shelf, waiting, &mut current)?;
    put_objects(alloc, view, strings, shelf, waiting, &mut current)?;
    close(shelf, waiting, &mut current)?;
    Ok(())
}

// The roots that aren't null.
fn put_roots<V: HeapView, F: Shelf>(
    view: &V,
    shelf: &mut F,
    waiting: &mut Vec<u8>,
    current: &mut Current,
) -> Result<(), DumpError>
    requires { (F.shelved shelf.old).unfinished ≡ true }
    ensures ok { OnOk result ((ss : List (List ℕ)) (start : Shelved) (front : List ℕ) (f : Filling) → IsFilled start front f waiting.old.items (F.shelved shelf.old)
        → IsCurrent f current.old.body.items current.old.objects current.old.heap
        → let filled = fold (with_item ss) f (map Bare (root_parts (V.table view.now) (V.graph view.now).roots)) in
        IsFilled start front filled waiting.new.items (F.shelved shelf.new) × IsCurrent filled current.new.body.items current.new.objects current.new.heap) }
    ensures failed { OnErr result ((ss : List (List ℕ)) (start : Shelved) (front : List ℕ) (f : Filling) → IsFilled start front f waiting.old.items (F.shelved shelf.old)
        → IsCurrent f current.old.body.items current.old.objects current.old.heap
        → AppendedPrefix start (front ++ bytes_of_records (fold (with_item ss) f (map Bare (root_parts (V.table view.now) (V.graph view.now).roots))).done) (F.shelved shelf.new)) }
    ensures unfinished { OnOk result ((F.shelved shelf.new).unfinished ≡ true) }
    ensures cause { IfShelfFault result (FaultRose (F.fault_count shelf.old) (F.fault_count shelf.new)) }
    ensures never_falls { F.fault_count shelf.old ≤ F.fault_count shelf.new }
{
    for k in 0..view.root_count() {
        put_root(shelf, waiting, current, view.root_at(k))?;
    }
    Ok(())
}

// A root that isn't null.
fn put_root<F: Shelf>(
    shelf: &mut F,
    waiting: &mut Vec<u8>,
    current: &mut Current,
    at: Addr,
) -> Result<(), DumpError>
    requires { (F.shelved shelf.old).unfinished ≡ true }
    ensures ok { OnOk result ((ss : List (List ℕ)) (table : ℕ → ℕ) (held : Held) (start : Shelved) (front : List ℕ) (f : Filling)
        → (at.0 ≡ 0 → held ≡ Held.Null) → at.0 ≡ root_address table held
        → IsFilled start front f waiting.old.items (F.shelved shelf.old) → IsCurrent f current.old.body.items current.old.objects current.old.heap
        → let filled = fold (with_item ss) f (map Bare (held_parts table held)) in
        IsFilled start front filled waiting.new.items (F.shelved shelf.new) × IsCurrent filled current.new.body.items current.new.objects current.new.heap) }
    ensures failed { OnErr result ((ss : List (List ℕ)) (table : ℕ → ℕ) (held : Held) (start : Shelved) (front : List ℕ) (f : Filling)
        → (at.0 ≡ 0 → held ≡ Held.Null) → at.0 ≡ root_address table held
        → IsFilled start front f waiting.old.items (F.shelved shelf.old) → IsCurrent f current.old.body.items current.old.objects current.old.heap
        → AppendedPrefix start (front ++ bytes_of_records (fold (with_item ss) f (map Bare (held_parts table held))).done) (F.shelved shelf.new)) }
    ensures unfinished { OnOk result ((F.shelved shelf.new).unfinished ≡ true) }
    ensures cause { IfShelfFault result (FaultRose (F.fault_count shelf.old) (F.fault_count shelf.new)) }
    ensures never_falls { F.fault_count shelf.old ≤ F.fault_count shelf.new }
{
    if at.0 == 0 {
        return Ok(());
    }
    make_room(shelf, waiting, current)?;
    put_root_part(&mut current.body, at.0)?;
    Ok(())
}

// The part for a root that holds an object.
fn put_root_part(out: &mut Vec<u8>, at: u32) -> Result<(), AllocError>
    ensures { OnOk result (out.new.items ≡ out.old.items ++ bytes_of_part (SubRecord.Root 0xff at None None)) }
{
    put_u8(out, 0xff)?;
    put_words(out, &[at])
}

// The classes.
fn put_classes<F: Shelf>(
    classes: &Classes,
    strings: &IndexSet<Name>,
    shelf: &mut F,
    waiting: &mut Vec<u8>,
    current: &mut Current,
) -> Result<(), DumpError>
    requires { (F.shelved shelf.old).unfinished ≡ true }
    ensures ok { OnOk result ((start : Shelved) (front : List ℕ) (f : Filling) → IsFilled start front f waiting.old.items (F.shelved shelf.old)
        → IsCurrent f current.old.body.items current.old.objects current.old.heap
        → let filled = fold (with_item strings.now.keys) f (map Bare (class_dumps strings.now.keys classes.now)) in
        IsFilled start front filled waiting.new.items (F.shelved shelf.new) × IsCurrent filled current.new.body.items current.new.objects current.new.heap) }
    ensures failed { OnErr result ((start : Shelved) (front : List ℕ) (f : Filling) → IsFilled start front f waiting.old.items (F.shelved shelf.old)
        → IsCurrent f current.old.body.items current.old.objects current.old.heap
        → AppendedPrefix start (front ++ bytes_of_records (fold (with_item strings.now.keys) f (map Bare (class_dumps strings.now.keys classes.now))).done) (F.shelved shelf.new)) }
    ensures unfinished { OnOk result ((F.shelved shelf.new).unfinished ≡ true) }
    ensures cause { IfShelfFault result (FaultRose (F.fault_count shelf.old) (F.fault_count shelf.new)) }
    ensures never_falls { F.fault_count shelf.old ≤ F.fault_count shelf.new }
{
    put_own_classes(classes, strings, shelf, waiting, current)?;
    put_array_class_item(strings, shelf, waiting, current)?;
    Ok(())
}

// The classes of the process, by number.
fn put_own_classes<F: Shelf>(
    classes: &Classes,
    strings: &IndexSet<Name>,
    shelf: &mut F,
    waiting: &mut Vec<u8>,
    current: &mut Current,
) -> Result<(), DumpError>
    requires { (F.shelved shelf.old).unfinished ≡ true }
    ensures ok { OnOk result ((start : Shelved) (front : List ℕ) (f : Filling) → IsFilled start front f waiting.old.items (F.shelved shelf.old)
        → IsCurrent f current.old.body.items current.old.objects current.old.heap
        → let filled = fold (with_item strings.now.keys) f (map Bare (class_dumps_from strings.now.keys classes.now 0 classes.now)) in
        IsFilled start front filled waiting.new.items (F.shelved shelf.new) × IsCurrent filled current.new.body.items current.new.objects current.new.heap) }
    ensures failed { OnErr result ((start : Shelved) (front : List ℕ) (f : Filling) → IsFilled start front f waiting.old.items (F.shelved shelf.old)
        → IsCurrent f current.old.body.items current.old.objects current.old.heap
        → AppendedPrefix start (front ++ bytes_of_records (fold (with_item strings.now.keys) f (map Bare (class_dumps_from strings.now.keys classes.now 0 classes.now))).done) (F.shelved shelf.new)) }
    ensures unfinished { OnOk result ((F.shelved shelf.new).unfinished ≡ true) }
    ensures cause { IfShelfFault result (FaultRose (F.fault_count shelf.old) (F.fault_count shelf.new)) }
    ensures never_falls { F.fault_count shelf.old ≤ F.fault_count shelf.new }
{
    for class in 0..classes.count() {
        put_class_item(classes, class, strings, shelf, waiting, current)?;
    }
    Ok(())
}

// One class.
fn put_class_item<F: Shelf>(
    classes: &Classes,
    class: u32,
    strings: &IndexSet<Name>,
    shelf: &mut F,
    waiting: &mut Vec<u8>,
    current: &mut Current,
) -> Result<(), DumpError>
    requires known { class < length classes.now }
    requires unfinished { (F.shelved shelf.old).unfinished ≡ true }
    ensures ok { OnOk result ((start : Shelved) (front : List ℕ) (f : Filling) → IsFilled start front f waiting.old.items (F.shelved shelf.old)
        → IsCurrent f current.old.body.items current.old.objects current.old.heap
        → IsSomeAnd (slice_get classes.now class) (λ c. let filled = with_item strings.now.keys f (Bare (class_dump strings.now.keys classes.now class c)) in
        IsFilled start front filled waiting.new.items (F.shelved shelf.new) × IsCurrent filled current.new.body.items current.new.objects current.new.heap)) }
    ensures failed { OnErr result ((start : Shelved) (front : List ℕ) (f : Filling) → IsFilled start front f waiting.old.items (F.shelved shelf.old)
        → IsCurrent f current.old.body.items current.old.objects current.old.heap
        → AppendedPrefix start (front ++ bytes_of_records (with_room f).done) (F.shelved shelf.new)) }
    ensures unfinished { OnOk result ((F.shelved shelf.new).unfinished ≡ true) }
    ensures cause { IfShelfFault result (FaultRose (F.fault_count shelf.old) (F.fault_count shelf.new)) }
    ensures never_falls { F.fault_count shelf.old ≤ F.fault_count shelf.new }
{
    make_room(shelf, waiting, current)?;
    put_class(&mut current.body, strings, classes, class)?;
    Ok(())
}

// The class of arrays of references.
fn put_array_class_item<F: Shelf>(
    strings: &IndexSet<Name>,
    shelf: &mut F,
    waiting: &mut Vec<u8>,
    current: &mut Current,
) -> Result<(), DumpError>
    requires { (F.shelved shelf.old).unfinished ≡ true }
    ensures ok { OnOk result ((start : Shelved) (front : List ℕ) (f : Filling) → IsFilled start front f waiting.old.items (F.shelved shelf.old)
        → IsCurrent f current.old.body.items current.old.objects current.old.heap
        → let filled = with_item strings.now.keys f (Bare array_class_dump) in
        IsFilled start front filled waiting.new.items (F.shelved shelf.new) × IsCurrent filled current.new.body.items current.new.objects current.new.heap) }
    ensures failed { OnErr result ((start : Shelved) (front : List ℕ) (f : Filling) → IsFilled start front f waiting.old.items (F.shelved shelf.old)
        → IsCurrent f current.old.body.items current.old.objects current.old.heap
        → AppendedPrefix start (front ++ bytes_of_records (with_item strings.now.keys f (Bare array_class_dump)).done) (F.shelved shelf.new)) }
    ensures unfinished { OnOk result ((F.shelved shelf.new).unfinished ≡ true) }
    ensures cause { IfShelfFault result (FaultRose (F.fault_count shelf.old) (F.fault_count shelf.new)) }
    ensures never_falls { F.fault_count shelf.old ≤ F.fault_count shelf.new }
{
    make_room(shelf, waiting, current)?;
    put_array_class(&mut current.body)?;
    Ok(())
}

// The objects, by rising number.
fn put_objects<V: HeapView, F: Shelf>(
    alloc: Global,
    view: &mut V,
    strings: &IndexSet<Name>,
    shelf: &mut F,
    waiting: &mut Vec<u8>,
    current: &mut Current,
) -> Result<(), DumpError>
    requires { (F.shelved shelf.old).unfinished ≡ true }
    ensures ok { OnOk result ((start : Shelved) (front : List ℕ) (f : Filling) → IsFilled start front f waiting.old.items (F.shelved shelf.old)
        → IsCurrent f current.old.body.items current.old.objects current.old.heap
        → let filled = fold (with_item strings.now.keys) f (map (object_item (V.graph view.old).classes (V.table view.old)) (V.graph view.old).objects) in
        IsFilled start front filled waiting.new.items (F.shelved shelf.new) × IsCurrent filled current.new.body.items current.new.objects current.new.heap) }
    ensures failed { OnErr result ((start : Shelved) (front : List ℕ) (f : Filling) → IsFilled start front f waiting.old.items (F.shelved shelf.old)
        → IsCurrent f current.old.body.items current.old.objects current.old.heap
        → AppendedPrefix start (front ++ bytes_of_records (fold (with_item strings.now.keys) f (map (object_item (V.graph view.old).classes (V.table view.old)) (V.graph view.old).objects)).done) (F.shelved shelf.new)) }
    ensures unfinished { OnOk result ((F.shelved shelf.new).unfinished ≡ true) }
    ensures cause { IfShelfFault result (FaultRose (F.fault_count shelf.old) (F.fault_count shelf.new)) }
    ensures never_falls { F.fault_count shelf.old ≤ F.fault_count shelf.new }
    ensures same { V.same view.old view.new }
    ensures reads { RoseBy (dump_reads (V.graph view.old)) (V.read_count view.old) (V.read_count view.new) }
{
    view.rewind();
    for _k in 0..view.object_count() {
        put_next(alloc, view, strings, shelf, waiting, current)?;
    }
    Ok(())
}

// The object that comes next.
fn put_next<V: HeapView, F: Shelf>(
    alloc: Global,
    view: &mut V,
    strings: &IndexSet<Name>,
    shelf: &mut F,
    waiting: &mut Vec<u8>,
    current: &mut Current,
) -> Result<(), DumpError>
    requires left { V.given view.old < length (V.graph view.old).objects }
    requires unfinished { (F.shelved shelf.old).unfinished ≡ true }
    ensures ok { OnOk result ((start : Shelved) (front : List ℕ) (f : Filling) → IsFilled start front f waiting.old.items (F.shelved shelf.old)
        → IsCurrent f current.old.body.items current.old.objects current.old.heap
        → IsSomeAnd (slice_get (V.graph view.old).objects (V.given view.old)) (λ o. let filled = with_item strings.now.keys f (object_item (V.graph view.old).classes (V.table view.old) o) in
        IsFilled start front filled waiting.new.items (F.shelved shelf.new) × IsCurrent filled current.new.body.items current.new.objects current.new.heap)) }
    ensures failed { OnErr result ((start : Shelved) (front : List ℕ) (f : Filling) → IsFilled start front f waiting.old.items (F.shelved shelf.old)
        → IsCurrent f current.old.body.items current.old.objects current.old.heap
        → AppendedPrefix start (front ++ bytes_of_records (with_room f).done) (F.shelved shelf.new)) }
    ensures unfinished { OnOk result ((F.shelved shelf.new).unfinished ≡ true) }
    ensures cause { IfShelfFault result (FaultRose (F.fault_count shelf.old) (F.fault_count shelf.new)) }
    ensures never_falls { F.fault_count shelf.old ≤ F.fault_count shelf.new }
    ensures given { V.given view.new ≡ V.given view.old + 1 }
    ensures same { V.same view.old view.new }
    ensures reads { IsSomeAnd (slice_get (V.graph view.old).objects (V.given view.old))
        (λ o. RoseBy (step_reads (Some o) + object_values (V.graph view.old).classes o) (V.read_count view.old) (V.read_count view.new)) }
{
    let seen = next_seen(view);
    make_room(shelf, waiting, current)?;
    // What is shown has the classes of its objects, and fits its table.
    let _shown = view.classes();
    put_object(alloc, view, strings, current, &seen)?;
    Ok(())
}
