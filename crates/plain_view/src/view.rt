ghost use Rattle.std.specs.Prelude.{◌≡◌, ◌<◌, ℕ, IfOk, IsTrue, length, nat_eq, slice_index};
ghost use Rattle.std.specs.List.{position};
ghost use Rattle.heap_graph.specs.Formed.{IsFormed};
ghost use Rattle.object_view.specs.Seen.{heap_of, seen_value, value_in, HasValue};
ghost use Rattle.object_view.specs.Values.{is_value};
ghost use Rattle.class_layout.specs.declared.kind.FieldAt as fields;
ghost use Rattle.heap_graph.specs.Graph as graphs;
ghost use Rattle.plain_view.specs.Viewed.{address_at, first_table};

use crate::addresses::addresses_of;
use class_layout::{Classes, FieldAt, Kind, Name};
use cow_pages::Addr;
use heap_graph::{Content, Held, Place};
use object_view::{Heap, HeapView, Seen};
use plain_graph::{Graph, Object};
use std::alloc::{AllocError, Global};
use std::marker::Model;

/// What a dump sees of a plain graph. Its objects stand in the first regions of the window and in the first slots.
#[derive(Drop)]
pub struct View<'a> {
    graph: &'a Graph,
    addresses: Vec<u64>,
    given: usize,
}

impl<'a> Model for View<'a> {
    ghost use Rattle.std.specs.Prelude.{◌≡◌, ◌≤◌, length, map};
    ghost use Rattle.heap_graph.specs.Formed.{IsFormed};
    ghost use Rattle.plain_view.specs.Viewed.{first_table, Viewed};

    ghost Value = { Viewed };

    ghost view = { λ v. record { graph = v.graph.now; given = v.given } };

    ghost invariant = { λ v. IsFormed v.graph.now
        × (v.addresses.items ≡ map (λ o. first_table v.graph.now o.number) v.graph.now.objects)
        × (v.given ≤ length v.graph.now.objects) };
}

/// The heap in which a dump shows an object of the place.
fn heap_of(place: Place) -> Heap
    ensures { result ≡ heap_of place }
{
    match place {
        Place::Image(_) => Heap::Image,
        Place::Zygote(_) | Place::Promoted => Heap::Zygote,
        Place::Young | Place::Large => Heap::App,
    }
}

/// The place of the object of a number among objects.
fn place_of(objects: &[Object], number: u32) -> Option<usize>
    ensures { result ≡ position (λ o. nat_eq o.number number) objects.now }
{
    objects.iter().position(|o| o.number() == number)
}

/// The place of an address in a list that has it.
fn index_of(addresses: &[u64], at: u32) -> usize
    requires { (k : ℕ) × ((k < length addresses.now) × (slice_index addresses.now k ≡ at)) }
    ensures { (result < length addresses.now) × (slice_index addresses.now result ≡ at) }
{
    for (i, address) in addresses.iter().enumerate() {
        if *address == u64::from(at) {
            return i;
        }
    }
    unreachable!()
}

impl<'a> View<'a> {
    /// The view of a graph, before its walk.
    pub fn new(alloc: Global, graph: &'a Graph) -> Result<View<'a>, AllocError>
        requires formed { IsFormed graph.now }
        ensures { IfOk result (λ v. v ≡ record { graph = graph.now; given = 0 }) }
    {
        let addresses = addresses_of(alloc, graph.classes(), graph.budget(), graph.objects())?;
        Ok(View {
            graph,
            addresses,
            given: 0,
        })
    }

    /// Where the object of a number stands, or `None` where no object has the number.
    pub fn address_of(&self, number: u32) -> Option<Addr>
        ensures { result ≡ address_at self.now.graph number }
    {
        let i = place_of(self.graph.objects(), number)?;
        Some(Addr(self.addresses[i] as u32))
    }

    /// Where the object of a number stands, or at null where no object has the number.
    fn stands_at(&self, number: u32) -> Addr
        ensures { result.0 ≡ first_table self.now.graph number }
    {
        self.address_of(number).unwrap_or(Addr(0))
    }

    /// What a slot holds as a number: a reference is an address, and null is 0.
    fn seen_value(&self, content: Content) -> i64
        ensures { result ≡ seen_value (first_table self.now.graph) content }
    {
        match content {
            Content::Number(number) => number,
            Content::Null => 0,
            Content::Object(number) => i64::from(self.stands_at(number).0),
        }
    }

    /// What stands at a place of the object at an address, as a number.
    fn value_of(&self, at: Addr, kind: Kind, offset: u32) -> i64
        requires { (o : graphs.Object) × (place : fields.FieldAt) × HasValue self.now.graph (first_table self.now.graph) at.0 kind offset o place }
        ensures value { (o : graphs.Object) (place : fields.FieldAt) → HasValue self.now.graph (first_table self.now.graph) at.0 kind offset o place
            → result ≡ value_in (first_table self.now.graph) o place }
        ensures range { IsTrue (is_value kind result) }
    {
        let i = index_of(&self.addresses, at.0);
        let place = FieldAt {
            kind,
            offset,
            weak: false,
        };
        self.seen_value(self.graph.objects()[i].value_at(&place))
    }
}

impl<'a> HeapView for View<'a> {
    ghost use Rattle.std.specs.Prelude.{◌≡◌, refl};
    ghost use Rattle.std.proofs.Common.{ap, ◌∙◌};
    ghost use Rattle.plain_view.specs.Viewed.{first_table};

    ghost graph = { λ v. v.graph };

    ghost table = { λ v. first_table v.graph };

    ghost given = { λ v. v.given };

    ghost read_count = { λ v. 0 };

    ghost same = { λ a b. b.graph ≡ a.graph };

    fn classes(&self) -> &Classes {
        self.graph.classes()
    }

    fn root_count(&self) -> usize {
        self.graph.roots().len()
    }

    fn root_name(&self, k: usize) -> Name {
        self.graph.roots()[k].name
    }

    fn root_at(&self, k: usize) -> Addr {
        match self.graph.roots()[k].holds {
            Held::Null => Addr(0),
            Held::Object(number) => self.stands_at(number),
        }
    }

    fn holder_at(&self, _class: u32) -> Option<Addr> {
        None
    }

    fn object_count(&self) -> usize {
        self.graph.objects().len()
    }

    fn rewind(&mut self) {
        self.given = 0;
    }

    fn next_object(&mut self) -> Option<Seen> {
        let o = self.graph.objects().get(self.given)?;
        self.given += 1;
        Some(Seen {
            number: o.number(),
            at: self.stands_at(o.number()),
            heap: heap_of(o.place()),
            shape: o.shape(),
        })
    }

    fn value(&mut self, at: Addr, kind: Kind, offset: u32) -> i64 {
        self.value_of(at, kind, offset)
    }

    fn reads(&self) -> u64 {
        0
    }

    ghost same_self = { λ a. refl };

    ghost same_as_same = { λ a b c h i. i ∙ h };

    ghost same_graph = { λ a b h. h };

    ghost same_table = { λ a b h. ap first_table h };
}
