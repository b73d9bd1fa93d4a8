//! Laws above the definitions: what they say, in other words.
ghost use Rattle.std.specs.Prelude.{◌≡◌, ◌≢◌, ◌⊎◌, ℕ, ◌+◌, ◌≤◌, ◌%◌, ◌^◌, ◌<◌, ◌++◌, Some, None, IsTrue, ℤ, List, length};
ghost use Rattle.std.specs.List.{count_by};
ghost use Rattle.class_layout.specs.declared.kind.FieldAt.{FieldAt};
ghost use Rattle.class_layout.specs.declared.kind.Kind.{Kind};
ghost use Rattle.class_layout.specs.ClassList.{Class, layout_of};
ghost use Rattle.class_layout.specs.Kinds.{kind_bytes};
ghost use Rattle.class_layout.specs.Layout.{field_named};
ghost use Rattle.class_layout.specs.Placing.{IsIn};
ghost use Rattle.page_tables.specs.declared.address.Addr.{Addr};
ghost use Rattle.page_tables.specs.Address.{page_of, is_immune};
ghost use Rattle.cow_pages.specs.Memory.{frame_at, is_mapped, is_written, HasOneSharer, IsSound, Memory};
ghost use Rattle.cow_pages.specs.Only.{OnlyTable};
ghost use Rattle.cow_pages.specs.View.{view_of, SameView, View};
ghost use Rattle.heap_graph.specs.declared.names.Shape.{Shape};
ghost use Rattle.heap_graph.specs.Sizes.{size_in};
ghost use Rattle.object_view.specs.declared.names.Header.{Header};
ghost use Rattle.object_view.specs.declared.names.Header.TheVariants.{Forward};
ghost use Rattle.object_view.specs.Changes.{reads_after_all, ChangesPages, ChangesWithin, HasBytes, PutsNumber};
ghost use Rattle.heap_graph.specs.Places.{element, places_of};
ghost use Rattle.object_view.specs.Objects.{reference_count, reference_place, HasHeader, HasShape, IsKnown, IsPlace, IsSpace, Stands};
ghost use Rattle.object_view.specs.Seen.{is_in_window, RoseBy};
ghost use Rattle.object_view.specs.Values.{is_value, number_at, number_of, value_of, with_value, AreBytes};
ghost use Rattle.object_view.specs.Words.{head_end, lock_word};

/// An object has its shape and its header, and no other.
pub fn headers_read_back()
    ensures shape { (cs : List Class) (v : View) (at : ℕ) (shape : Shape) (header : Header) (values : FieldAt → ℤ) → Stands cs v at shape header values → HasShape v at shape }
    ensures header { (cs : List Class) (v : View) (at : ℕ) (shape : Shape) (header : Header) (values : FieldAt → ℤ) → Stands cs v at shape header values → HasHeader v at header }
    ensures one_shape { (v : View) (at : ℕ) (a b : Shape) → HasShape v at a → HasShape v at b → a ≡ b }
    ensures one_header { (v : View) (at : ℕ) (a b : Header) → HasHeader v at a → HasHeader v at b → a ≡ b }
{}

/// A value of a kind is what its number stands for.
pub fn values_read_back()
    ensures { (kind : Kind) (z : ℤ) → IsTrue (is_value kind z) → value_of kind (number_of kind z) ≡ z }
{}

/// Fields that a name finds and elements are places. Each place lies in the object behind its words, at a multiple of its size.
pub fn places_lie_in_objects()
    ensures field { (cs : List Class) (class : ℕ) (name : List ℕ) (place : FieldAt) → field_named (layout_of cs class) name ≡ Some place → IsIn place (places_of cs (Shape.Instance class)) }
    ensures element { (cs : List Class) (kind : Kind) (count i : ℕ) → i < count → IsIn (element kind i) (places_of cs (Shape.Array kind count)) }
    ensures reference { (cs : List Class) (shape : Shape) (k : ℕ) (place : FieldAt) → reference_place cs shape k ≡ Some place → IsPlace cs shape Kind.Ref place.offset place }
    ensures within { (cs : List Class) (shape : Shape) (kind : Kind) (offset : ℕ) (place : FieldAt) → IsPlace cs shape kind offset place
        → (head_end shape ≤ offset) × (offset % kind_bytes kind ≡ 0) × (offset + kind_bytes kind ≤ size_in cs shape) }
{}

/// The references of a shape stand by rising offset.
pub fn references_rise()
    ensures { (cs : List Class) (shape : Shape) (j k : ℕ) (a b : FieldAt) → j < k → reference_place cs shape j ≡ Some a → reference_place cs shape k ≡ Some b → a.offset + 4 ≤ b.offset }
{}

/// The indices of references are those below their count: each place of a reference is found by one of them, each of them
/// finds one, and no other index does.
pub fn all_references()
    ensures found { (cs : List Class) (shape : Shape) (place : FieldAt) → IsIn place (places_of cs shape) → place.kind ≡ Kind.Ref
        → (k : ℕ) × (k < reference_count cs shape) × (reference_place cs shape k ≡ Some place) }
    ensures each { (cs : List Class) (shape : Shape) (k : ℕ) → k < reference_count cs shape → (place : FieldAt) × (reference_place cs shape k ≡ Some place) }
    ensures none_after { (cs : List Class) (shape : Shape) (k : ℕ) → reference_count cs shape ≤ k → reference_place cs shape k ≡ None }
{}

/// What stands at a place of an object is its value there.
pub fn values_stand()
    ensures number { (cs : List Class) (v : View) (at : ℕ) (shape : Shape) (header : Header) (values : FieldAt → ℤ) (kind : Kind) (offset : ℕ) (place : FieldAt)
        → Stands cs v at shape header values → IsPlace cs shape kind offset place → number_at v kind (at + offset) ≡ number_of kind (values place) }
    ensures value { (cs : List Class) (v : View) (at : ℕ) (shape : Shape) (header : Header) (values : FieldAt → ℤ) (kind : Kind) (offset : ℕ) (place : FieldAt)
        → Stands cs v at shape header values → IsPlace cs shape kind offset place → IsTrue (is_value kind (values place))
        → value_of kind (number_at v kind (at + offset)) ≡ values place }
{}

/// An object has the values of its places alone: it stands also with others that are the same there.
pub fn same_values_stand()
    ensures { (cs : List Class) (v : View) (at : ℕ) (shape : Shape) (header : Header) (values others : FieldAt → ℤ) → Stands cs v at shape header values
        → ((place : FieldAt) → IsIn place (places_of cs shape) → others place ≡ values place) → Stands cs v at shape header others }
{}

/// Classes that come later change nothing of an object whose class is there.
pub fn more_classes_stand()
    ensures known { (cs more : List Class) (shape : Shape) → IsKnown cs shape → IsKnown (cs ++ more) shape }
    ensures size { (cs more : List Class) (shape : Shape) → IsKnown cs shape → size_in (cs ++ more) shape ≡ size_in cs shape }
    ensures places { (cs more : List Class) (shape : Shape) → IsKnown cs shape → places_of (cs ++ more) shape ≡ places_of cs shape }
    ensures references { (cs more : List Class) (shape : Shape) (k : ℕ) → IsKnown cs shape → reference_place (cs ++ more) shape k ≡ reference_place cs shape k }
    ensures object { (cs more : List Class) (v : View) (at : ℕ) (shape : Shape) (header : Header) (values : FieldAt → ℤ) → IsKnown cs shape
        → Stands cs v at shape header values → Stands (cs ++ more) v at shape header values }
    ensures before { (cs more : List Class) (v : View) (at : ℕ) (shape : Shape) (header : Header) (values : FieldAt → ℤ) → IsKnown cs shape
        → Stands (cs ++ more) v at shape header values → Stands cs v at shape header values }
{}

/// An object with one value stored has that value there, and every other one as before.
pub fn stored_values_stand()
    ensures { (cs : List Class) (old new : View) (at : ℕ) (shape : Shape) (header : Header) (values : FieldAt → ℤ) (kind : Kind) (offset : ℕ) (place : FieldAt) (z : ℤ)
        → Stands cs old at shape header values → IsPlace cs shape kind offset place → PutsNumber old new kind (at + offset) (number_of kind z)
        → Stands cs new at shape header (with_value values offset z) }
{}

/// An object that is forwarded has its values.
pub fn forwarded_objects_stand()
    ensures { (cs : List Class) (old new : View) (at : ℕ) (shape : Shape) (header : Header) (values : FieldAt → ℤ) (to : Addr)
        → Stands cs old at shape header values → to.0 % 8 ≡ 0 → to.0 < 2 ^ 32 → PutsNumber old new Kind.Int (at + 4) (lock_word (Forward to))
        → Stands cs new at shape (Forward to) values }
{}

/// An object whose bytes were copied stands at the new address too.
pub fn copies_stand()
    ensures { (cs : List Class) (old new : View) (from to : ℕ) (shape : Shape) (header : Header) (values : FieldAt → ℤ)
        → Stands cs old from shape header values → to % 8 ≡ 0 → IsSpace new to (size_in cs shape) → HasBytes old new from to (size_in cs shape)
        → Stands cs new to shape header values }
{}

/// An object stands as it stood where bytes beside it changed.
pub fn others_stand()
    ensures { (cs : List Class) (old new : View) (at from to : ℕ) (shape : Shape) (header : Header) (values : FieldAt → ℤ)
        → Stands cs old at shape header values → ChangesWithin old new from to → (at + size_in cs shape ≤ from) ⊎ (to ≤ at)
        → Stands cs new at shape header values }
{}

/// An object stands as it stood where a table has the same bytes and the same mapped addresses, as after a read.
pub fn seen_objects_stand()
    ensures object { (cs : List Class) (old new : View) (at : ℕ) (shape : Shape) (header : Header) (values : FieldAt → ℤ)
        → Stands cs old at shape header values → SameView old new → Stands cs new at shape header values }
    ensures reads { (m : Memory) (t n : ℕ) → SameView (view_of m t) (view_of (record m { reads = n }) t) }
{}

/// What stands for an object is each of its bytes: where the same object stands twice, the bytes are the same.
pub fn objects_are_their_bytes()
    ensures bytes { (cs : List Class) (v w : View) (from to : ℕ) (shape : Shape) (header : Header) (values : FieldAt → ℤ) → AreBytes v → AreBytes w → Stands cs v from shape header values
        → Stands cs w to shape header values → HasBytes v w from to (size_in cs shape) }
    ensures small { (m : Memory) (t : ℕ) → IsSound m → AreBytes (view_of m t) }
{}

/// What is mapped lies below 0xa0000000, where the last window ends.
pub fn mapped_is_below()
    ensures { (m : Memory) (t at : ℕ) → IsSound m → IsTrue (is_mapped m t (page_of at)) → at < 0xa0000000 }
{}

/// Where some pages changed, each other page keeps its frame and its flag, and a page that had its frame alone keeps it alone.
pub fn alone_stays()
    ensures others { (old new : Memory) (t first n u q : ℕ) → ChangesPages old new t first n → (u ≢ t) ⊎ ((q < first) ⊎ (first + n ≤ q))
        → (frame_at new u q ≡ frame_at old u q) × (is_written new u q ≡ is_written old u q) }
    ensures alone { (old new : Memory) (t first n u q : ℕ) → ChangesPages old new t first n → IsTrue (is_mapped old u q) → IsTrue (is_mapped new u q)
        → HasOneSharer old u q → (frame_at new u q ≡ frame_at old u q) × HasOneSharer new u q }
{}

/// Where some pages of a table changed, this table alone did: each page of it has the frame that it had, or one of its own.
pub fn pages_are_of_one_table()
    ensures { (old new : Memory) (t first n : ℕ) → ChangesPages old new t first n → IsSound new → OnlyTable old new t }
{}

/// Counts of reads add up: no read is a rise by 0, a rise after a rise is a rise by both, and what rose by at most so many
/// rose by at most more.
pub fn reads_add_up()
    ensures none { (now : ℕ) → RoseBy 0 now now }
    ensures both { (a b before mid now : ℕ) → RoseBy a before mid → RoseBy b mid now → RoseBy (a + b) before now }
    ensures more { (a b before now : ℕ) → a ≤ b → RoseBy a before now → RoseBy b before now }
{}

/// After reads at a list of addresses the count has risen by at most the number of those in the image or in the zygote
/// window. It stands still at the last value of 64 bits.
pub fn reads_are_counted()
    ensures sound { (m : Memory) (ats : List ℕ) → IsSound m → RoseBy (count_by is_immune ats) m.reads (reads_after_all m.reads ats) }
    ensures rise { (reads : ℕ) (ats : List ℕ) → reads < 2 ^ 64 → RoseBy (count_by is_immune ats) reads (reads_after_all reads ats) }
    ensures fit { (reads : ℕ) (ats : List ℕ) → reads < 2 ^ 64 → reads_after_all reads ats < 2 ^ 64 }
    ensures joined { (reads : ℕ) (first then : List ℕ) → reads_after_all reads (first ++ then) ≡ reads_after_all (reads_after_all reads first) then }
    ensures windows { (at : ℕ) → is_immune at ≡ is_in_window at }
{}
