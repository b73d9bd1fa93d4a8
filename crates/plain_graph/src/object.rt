use crate::values;
use class_layout::FieldAt;
use heap_graph::{Content, Place, Shape, Stored};
use std::alloc::AllocError;
use std::marker::Model;

/// An object: its allocation number, its shape, the slots that were stored to, and its place.
#[derive(Drop)]
pub struct Object {
    pub(crate) number: u32,
    pub(crate) shape: Shape,
    pub(crate) slots: Vec<Stored>,
    pub(crate) place: Place,
}

impl Model for Object {
    ghost use Rattle.heap_graph.specs.Graph as graphs;

    ghost Value = { graphs.Object };

    ghost view = { λ o. record { number = o.number; shape = o.shape; slots = o.slots.items; place = o.place } };
}

impl Object {
    ghost use Rattle.std.specs.Prelude.{◌≡◌, IfOk, nat_eq};
    ghost use Rattle.heap_graph.specs.Graph.{is_immune, is_young};
    ghost use Rattle.heap_graph.specs.Values.{value_at};
    ghost use Rattle.heap_world.specs.Acts.{stored_in_if};

    /// The allocation number: the objects of a process have different ones, the first object the lowest.
    pub fn number(&self) -> u32
        ensures { result ≡ self.now.number }
    {
        self.number
    }

    /// What the object is.
    pub fn shape(&self) -> Shape
        ensures { result ≡ self.now.shape }
    {
        self.shape
    }

    /// Where the object stands.
    pub fn place(&self) -> Place
        ensures { result ≡ self.now.place }
    {
        self.place
    }

    /// The slots that were stored to, in the order of their first stores, with what they hold.
    pub fn slots(&self) -> &[Stored]
        ensures { result.now ≡ self.now.slots }
    {
        &self.slots
    }

    /// Whether no collection removes or moves the object: in the zygote's places, and in the image once that is sealed.
    pub fn is_immune(&self, sealed: bool) -> bool
        ensures { result ≡ is_immune sealed self.now.place }
    {
        match self.place {
            Place::Image(_) => sealed,
            Place::Zygote(_) | Place::Promoted => true,
            Place::Young | Place::Large => false,
        }
    }

    /// Whether the object stands in a region.
    pub(crate) fn is_young(&self) -> bool
        ensures { result ≡ is_young self.now.place }
    {
        self.place == Place::Young
    }

    /// What a field or an element holds: null or 0 where nothing was stored.
    pub fn value_at(&self, at: &FieldAt) -> Content
        ensures { result ≡ value_at self.now.slots at.now }
    {
        values::value_at(&self.slots, at)
    }

    /// The same object again.
    pub fn copied(&self) -> Result<Object, AllocError>
        ensures { IfOk result (λ o. o ≡ self.now) }
    {
        Ok(Object {
            number: self.number,
            shape: self.shape,
            slots: self.slots.clone()?,
            place: self.place,
        })
    }

    /// The same object again, with the store where it has this number.
    pub(crate) fn stored_in(&self, number: u32, new: &Stored) -> Result<Object, AllocError>
        ensures { IfOk result (λ o. o ≡ stored_in_if (nat_eq self.now.number number) self.now new.now) }
    {
        if self.number != number {
            return self.copied();
        }
        Ok(Object {
            number: self.number,
            shape: self.shape,
            slots: values::with_stored(*self.slots.allocator(), &self.slots, new)?,
            place: self.place,
        })
    }
}
