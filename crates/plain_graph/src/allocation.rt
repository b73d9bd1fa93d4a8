ghost use Rattle.std.specs.Prelude.{◌≡◌, ◌+◌, ◌≤◌, true, false, IfOk, nat_le};
ghost use Rattle.model_numbers.specs.Numbers.{image_length, number_limit};
ghost use Rattle.heap_graph.specs.Allocation.{has_room, heap_place, make, make_collected, make_in_image, make_sealed, needs, with_heap_object, with_object};
ghost use Rattle.heap_graph.specs.Graph.{image_fill};
ghost use Rattle.heap_graph.specs.Sizes.{is_too_large, size_in};
ghost use Rattle.heap_graph.specs.Formed.{IsFormed};
ghost use Rattle.plain_graph.specs.Allocated.{allocated_of};
ghost use Rattle.plain_graph.specs.Shapes.{HasClass};

use crate::packing::after;
use crate::sizes::{is_large, parts_for, size_in, unrounded};
use crate::{Graph, Object};
use heap_graph::{Place, Shape, Stored};
use model_numbers::{IMAGE_BASE, IMAGE_LENGTH, REGION_BYTES};
use std::alloc::AllocError;

/// How the making of an object ends.
#[derive(Drop)]
pub enum Allocated {
    /// It was made, maybe after a collection.
    Made {
        graph: Graph,
        collected: bool,
    },
    /// The image is full: the bytes of its objects, and those of the object that it had no room for.
    ImageFull {
        fill: u64,
        size: u64,
    },
    /// The heap is full, also after a collection: the collected graph, the free regions, and those that the object
    /// needs.
    HeapFull {
        graph: Graph,
        free: u64,
        needed: u64,
    },
}

impl Graph {
    /// Makes an object under the next number. It stands in the image before the seal, and after it in a region or in a
    /// slot of its own; where the heap has no room the process collects first.
    #[tactic(auto, using(crate::proofs::Collected::collected))]
    pub fn make(&self, shape: Shape, slots: &[Stored]) -> Result<Allocated, AllocError>
        requires formed { IsFormed self.now }
        requires class { HasClass self.now.classes shape }
        requires small { is_too_large self.now.classes shape ≡ false }
        ensures { IfOk result (λ a. allocated_of a ≡ make self.now shape slots.now) }
    {
        if !self.is_sealed() {
            self.make_in_image(shape, slots)
        } else if self.has_room(shape) {
            let graph = self.with_heap_object(shape, slots)?;
            Ok(Allocated::Made {
                graph,
                collected: false,
            })
        } else {
            self.collect()?.make_collected(shape, slots)
        }
    }

    // Makes an object in the image, where there is room for it.
    fn make_in_image(&self, shape: Shape, slots: &[Stored]) -> Result<Allocated, AllocError>
        requires formed { IsFormed self.now }
        requires class { HasClass self.now.classes shape }
        ensures { IfOk result (λ a. allocated_of a ≡ make_in_image (nat_le (image_fill self.now + size_in self.now.classes shape) image_length) self.now shape slots.now) }
    {
        let fill = self.image_fill();
        let size = size_in(self.classes(), shape);
        if u64::from(IMAGE_LENGTH) < fill + size {
            return Ok(Allocated::ImageFull { fill, size });
        }
        let place = Place::Image(IMAGE_BASE + fill as u32);
        let graph = self.with_object(shape, slots, place)?;
        Ok(Allocated::Made {
            graph,
            collected: false,
        })
    }

    // Makes an object after a collection, where there is room for it now.
    fn make_collected(self, shape: Shape, slots: &[Stored]) -> Result<Allocated, AllocError>
        requires formed { IsFormed self }
        requires class { HasClass self.classes shape }
        requires small { is_too_large self.classes shape ≡ false }
        ensures { IfOk result (λ a. allocated_of a ≡ make_collected self shape slots.now) }
    {
        let needed = self.needs(shape);
        let free = self.free();
        if free < needed {
            return Ok(Allocated::HeapFull {
                graph: self,
                free,
                needed,
            });
        }
        let graph = self.with_heap_object(shape, slots)?;
        Ok(Allocated::Made {
            graph,
            collected: true,
        })
    }

    /// The regions that a new object needs: its cost where it is large, else those that the young objects grow by.
    #[tactic(auto, using(crate::proofs::FormedObjects::size_in_le))]
    pub(crate) fn needs(&self, shape: Shape) -> u64
        requires formed { IsFormed self.now }
        requires class { HasClass self.now.classes shape }
        requires small { is_too_large self.now.classes shape ≡ false }
        ensures { result ≡ needs self.now shape }
    {
        let classes = self.classes();
        if is_large(classes, shape) {
            return parts_for(REGION_BYTES, unrounded(classes, shape));
        }
        let end = after(self.end_of(), size_in(classes, shape));
        parts_for(REGION_BYTES, end) - self.used()
    }

    /// Whether the free regions are as many as the object needs.
    pub(crate) fn has_room(&self, shape: Shape) -> bool
        requires formed { IsFormed self.now }
        requires class { HasClass self.now.classes shape }
        requires small { is_too_large self.now.classes shape ≡ false }
        ensures { result ≡ has_room self.now shape }
    {
        self.needs(shape) <= self.free()
    }

    // The graph with one more object, in a region or in a slot of its own.
    fn with_heap_object(&self, shape: Shape, slots: &[Stored]) -> Result<Graph, AllocError>
        requires few { self.now.next ≤ number_limit }
        requires class { HasClass self.now.classes shape }
        ensures { IfOk result (λ g. g ≡ with_heap_object self.now shape slots.now) }
    {
        let place = if is_large(self.classes(), shape) {
            Place::Large
        } else {
            Place::Young
        };
        self.with_object(shape, slots, place)
    }

    // The graph with one more object, under the next number.
    fn with_object(&self, shape: Shape, slots: &[Stored], place: Place) -> Result<Graph, AllocError>
        requires few { self.now.next ≤ number_limit }
        ensures { IfOk result (λ g. g ≡ with_object self.now shape slots.now place) }
    {
        let object = Object {
            number: self.next,
            shape,
            slots: Vec::from_slice(self.alloc, slots)?,
            place,
        };
        let mut graph = self.copied()?;
        graph.objects.push(object)?;
        graph.next += 1;
        Ok(graph)
    }
}
