ghost use Rattle.std.specs.Prelude.{◌≡◌, ℕ, ◌+◌, ◌<◌, ◌≤◌, None, length, slice_get, IsTrue, IsSomeAnd, MatchOption};
ghost use Rattle.class_layout.specs.declared.kind.FieldAt.{FieldAt};
ghost use Rattle.heap_graph.specs.declared.names.Held.{Held};
ghost use Rattle.heap_graph.specs.Graph.{Graph, Object};
ghost use Rattle.object_view.specs.Seen.{count_if, has_spots, is_in_window, root_address, seen_of, step_reads, value_in, HasValue, IsShown, RoseBy};
ghost use Rattle.object_view.specs.Values.{is_value};

use crate::Heap;
use class_layout::{Classes, Kind, Name};
use cow_pages::Addr;
use heap_graph::Shape;

/// An object as a dump sees it.
#[derive(Clone, Copy, Debug, PartialEq, Eq)]
pub struct Seen {
    /// The allocation number.
    pub number: u32,
    pub at: Addr,
    /// The heap in which a dump shows the object.
    pub heap: Heap,
    pub shape: Shape,
}

/// What a dump sees of a process: its classes, its roots, and its objects by rising number. Roots and references are
/// addresses, and null is 0.
pub trait HeapView {
    /// The graph that is seen.
    ghost graph: { Self → Graph };

    /// Where its objects stand, by their numbers.
    ghost table: { Self → ℕ → ℕ };

    /// How many objects the walk has given.
    ghost given: { Self → ℕ };

    /// How many reads of the image and of the zygote window there have been. The count stands still at the last value of 64 bits.
    ghost read_count: { Self → ℕ };

    /// Nothing of what is seen has changed.
    ghost same: { Self → Self → Type 0 };

    /// The classes.
    fn classes(&self) -> &Classes
        ensures value { result.now ≡ (graph self.now).classes }
        ensures shown { IsShown (graph self.now) (table self.now) };

    /// How many roots there are.
    fn root_count(&self) -> usize
        ensures { result ≡ length (graph self.now).roots };

    /// The name of a root, by its place in the order of the roots.
    fn root_name(&self, k: usize) -> Name
        requires { k < length (graph self.now).roots }
        ensures { IsSomeAnd (slice_get (graph self.now).roots k) (λ r. result ≡ r.name) };

    /// What a root holds. The address 0 is null, and no object stands there.
    fn root_at(&self, k: usize) -> Addr
        requires { k < length (graph self.now).roots }
        ensures null { IsSomeAnd (slice_get (graph self.now).roots k) (λ r. result.0 ≡ 0 → r.holds ≡ Held.Null) }
        ensures value { IsSomeAnd (slice_get (graph self.now).roots k) (λ r. result.0 ≡ root_address (table self.now) r.holds) };

    /// What holds a class's static fields. No class has any.
    fn holder_at(&self, class: u32) -> Option<Addr>
        requires { class < length (graph self.now).classes }
        ensures { result ≡ None };

    /// How many objects there are.
    fn object_count(&self) -> usize
        ensures { result ≡ length (graph self.now).objects };

    /// Begins the walk over the objects again.
    fn rewind(&mut self)
        ensures given { given self.new ≡ 0 }
        ensures same { same self.old self.new }
        ensures reads { RoseBy (count_if (has_spots (graph self.old).objects) 3) (read_count self.old) (read_count self.new) };

    /// The object that comes next in the walk, or `None` where all were given.
    fn next_object(&mut self) -> Option<Seen>
        ensures next { MatchOption result
            ((length (graph self.old).objects ≤ given self.old) × (given self.new ≡ given self.old))
            (λ seen. (given self.new ≡ given self.old + 1) × IsSomeAnd (slice_get (graph self.old).objects (given self.old)) (λ o. seen ≡ seen_of (table self.old) o)) }
        ensures same { same self.old self.new }
        ensures reads { RoseBy (step_reads (slice_get (graph self.old).objects (given self.old))) (read_count self.old) (read_count self.new) };

    /// A value of the object at an address: a field or an element of the kind, so many bytes behind the object's start.
    fn value(&mut self, at: Addr, kind: Kind, offset: u32) -> i64
        requires { (o : Object) × (place : FieldAt) × HasValue (graph self.old) (table self.old) at.0 kind offset o place }
        ensures value { (o : Object) (place : FieldAt) → HasValue (graph self.old) (table self.old) at.0 kind offset o place → result ≡ value_in (table self.old) o place }
        ensures range { IsTrue (is_value kind result) }
        ensures given { given self.new ≡ given self.old }
        ensures same { same self.old self.new }
        ensures reads { RoseBy (count_if (is_in_window at.0) 1) (read_count self.old) (read_count self.new) };

    /// The count of reads.
    fn reads(&self) -> u64
        ensures { result ≡ read_count self.now };

    /// Each state is the same as itself.
    ghost same_self: { (a : Self) → same a a };

    /// What is the same as the same is the same.
    ghost same_as_same: { (a b c : Self) → same a b → same b c → same a c };

    /// States that are the same have one graph.
    ghost same_graph: { (a b : Self) → same a b → graph b ≡ graph a };

    /// States that are the same have one table.
    ghost same_table: { (a b : Self) → same a b → table b ≡ table a };
}
