//! Commands that define classes and make objects.
ghost use Rattle.std.specs.Prelude.{◌≡◌, ◌+◌, ◌<◌, ◌≤◌, ◌^◌, false, length, IfOk, OnOk};
ghost use Rattle.model_numbers.specs.Numbers.{page_bytes, field_limit};
ghost use Rattle.class_layout.specs.ClassList.{define_class, number_of};
ghost use Rattle.heap_graph.specs.declared.names.Held.TheVariants as held;
ghost use Rattle.heap_graph.specs.declared.names.Shape.TheVariants as shape;
ghost use Rattle.heap_graph.specs.Allocation as allocated;
ghost use Rattle.heap_graph.specs.Sizes.{is_too_large, parts_for};
ghost use Rattle.heap_world.specs.Acts.{after_define, after_make, make_shape, make_slots, make_weak, new_of_class, pages_of_new};
ghost use Rattle.heap_world.specs.Part.{with_collected};
ghost use Rattle.heap_world.specs.Slots.{held_by_root};
ghost use Rattle.heap_world.specs.Sound.{IsSound};
ghost use Rattle.plain_graph.specs.Shapes.{HasClass};
ghost use Rattle.plain_machine.specs.Outcomes.{IsOutcome};

use crate::cards::held_cards;
use crate::outcome::Outcome;
use crate::pages::{image_pages, large_pages};
use crate::part::Part;
use crate::slots::slot_of;
use class_layout::{DefineError, FieldAt, FieldDecl, Kind, Name};
use heap_graph::{Held, Shape, Stored};
use heap_world::{PageName, Refusal, Reply, sizes_are_bounded};
use model_numbers::{NUMBER_LIMIT, PAGE_BYTES};
use plain_graph::{Allocated, Graph, is_large, is_too_large, size_in, unrounded};
use std::alloc::AllocError;

/// Where the referent of a weak reference stands.
const REFERENT: FieldAt = FieldAt {
    kind: Kind::Ref,
    offset: 8,
    weak: true,
};

/// How many pages so many bytes take.
pub(crate) fn pages_for(bytes: u64) -> u32
    requires { bytes < 2 ^ 40 }
    ensures value { result ≡ parts_for page_bytes bytes }
    ensures small { result ≤ 2 ^ 28 }
{
    bytes.div_ceil(u64::from(PAGE_BYTES)) as u32
}

impl Part {
    /// Defines a class.
    pub(crate) fn define(
        &self,
        name: Name,
        parent: &Name,
        fields: &[FieldDecl],
    ) -> Result<Outcome, AllocError>
        requires few { length fields.now ≤ field_limit }
        ensures { IfOk result (λ out. IsOutcome self.now out (after_define self.now (define_class self.now.graph.classes name parent.now fields.now))) }
    {
        match self.graph.with_class(name, parent, fields) {
            Ok(graph) => self.becomes(graph, Reply::Class(self.graph.classes().count())),
            Err(DefineError::Taken) => Ok(self.refuses(Refusal::ClassTaken)),
            Err(DefineError::NoSuper) => Ok(self.refuses(Refusal::NoClass)),
            Err(DefineError::Limit) => Ok(self.refuses(Refusal::ClassLimit)),
            Err(DefineError::FieldTaken) => Ok(self.refuses(Refusal::FieldTaken)),
            Err(DefineError::OutOfMemory) => Err(AllocError),
        }
    }

    /// Makes an object of a class.
    pub(crate) fn new_object(&self, root: Name, class: &Name) -> Result<Outcome, AllocError>
        requires sound { IsSound self.now }
        ensures { IfOk result (λ out. IsOutcome self.now out (new_of_class self.now root (number_of self.now.graph.classes class.now))) }
    {
        match self.graph.classes().find(class) {
            Some(class) => self.make_shape(root, Shape::Instance(class)),
            None => Ok(self.refuses(Refusal::NoClass)),
        }
    }

    /// Makes an object of a shape, unless it would be too large.
    pub(crate) fn make_shape(&self, root: Name, shape: Shape) -> Result<Outcome, AllocError>
        requires sound { IsSound self.now }
        requires class { HasClass self.now.graph.classes shape }
        ensures { IfOk result (λ out. IsOutcome self.now out (make_shape self.now root shape)) }
    {
        if is_too_large(self.graph.classes(), shape) {
            return Ok(self.refuses(Refusal::TooLarge));
        }
        self.make_slots(root, shape, &[])
    }

    /// Makes a weak reference to what a root holds.
    pub(crate) fn new_weak(&self, root: Name, referent: &Name) -> Result<Outcome, AllocError>
        requires sound { IsSound self.now }
        ensures { IfOk result (λ out. IsOutcome self.now out (make_weak self.now root (held_by_root self.now.graph referent.now))) }
    {
        match self.graph.held_by_root(referent) {
            Ok(held) => self.make_slots(
                root,
                Shape::Instance(1),
                &[Stored {
                    at: REFERENT,
                    value: slot_of(held),
                }],
            ),
            Err(why) => Ok(self.refuses(why)),
        }
    }

    // Makes an object of a shape that is not too large, with some slots stored to.
    fn make_slots(&self, root: Name, shape: Shape, slots: &[Stored]) -> Result<Outcome, AllocError>
        requires sound { IsSound self.now }
        requires class { HasClass self.now.graph.classes shape }
        requires small { is_too_large self.now.graph.classes shape ≡ false }
        ensures { IfOk result (λ out. IsOutcome self.now out (make_slots self.now root shape slots.now)) }
    {
        if self.graph.next() >= NUMBER_LIMIT {
            return Ok(self.refuses(Refusal::NumberLimit));
        }
        match self.graph.make(shape, slots)? {
            Allocated::Made { graph, collected } => self.made(root, shape, graph, collected),
            Allocated::ImageFull { fill, size } => {
                sizes_are_bounded();
                Ok(self.refuses(Refusal::ImageFull {
                    fill: fill as u32,
                    size: size as u32,
                }))
            }
            Allocated::HeapFull {
                graph,
                free,
                needed,
            } => self.heap_full(graph, free as u32, needed as u32),
        }
    }

    // The object was made: the root is written.
    fn made(
        &self,
        root: Name,
        shape: Shape,
        graph: Graph,
        collected: bool,
    ) -> Result<Outcome, AllocError>
        requires sound { IsSound self.now }
        requires class { HasClass self.now.graph.classes shape }
        ensures { IfOk result (λ out. IsOutcome self.now out (after_make self.now root shape (allocated.Made graph collected))) }
    {
        let number = self.graph.next();
        let graph = graph.with_root(root, Held::Object(number))?;
        let next = if collected {
            self.with_collected(graph)?
        } else {
            self.with_graph(graph)?
        };
        Ok(Outcome {
            next: Some(next),
            reply: Reply::Made { number, collected },
            made: self.pages_of_new(shape)?,
            first: Vec::new(self.alloc),
        })
    }

    // The heap is full, also after a collection.
    fn heap_full(&self, graph: Graph, free: u32, needed: u32) -> Result<Outcome, AllocError>
        ensures { (root : _) (shape : _) → IfOk result (λ out. IsOutcome self.now out (after_make self.now root shape (allocated.HeapFull graph free needed))) }
    {
        Ok(Outcome {
            next: Some(self.with_collected(graph)?),
            reply: Reply::Refused(Refusal::HeapFull { free, needed }),
            made: Vec::new(self.alloc),
            first: Vec::new(self.alloc),
        })
    }

    /// The part after a collection to a graph: it looks at the cards first.
    pub(crate) fn with_collected(&self, graph: Graph) -> Result<Part, AllocError>
        ensures { IfOk result (λ p. p ≡ with_collected self.now graph) }
    {
        Ok(Part {
            alloc: self.alloc,
            graph,
            exited: self.exited,
            touched: self.touched.clone()?,
            stored: Vec::new(self.alloc),
            held: held_cards(self.alloc, &self.graph)?,
        })
    }

    // The shared pages that the next object makes.
    fn pages_of_new(&self, shape: Shape) -> Result<Vec<PageName>, AllocError>
        requires sound { IsSound self.now }
        requires class { HasClass self.now.graph.classes shape }
        ensures { IfOk result (λ pages. pages.items ≡ pages_of_new self.now.graph.sealed self.now.graph shape) }
    {
        let classes = self.graph.classes();
        if !self.graph.is_sealed() {
            sizes_are_bounded();
            let fill = self.graph.image_fill();
            let start = pages_for(fill);
            let end = pages_for(fill + size_in(classes, shape));
            image_pages(self.alloc, start, end - start)
        } else if is_large(classes, shape) {
            let pages = pages_for(unrounded(classes, shape));
            large_pages(self.alloc, self.graph.next(), pages)
        } else {
            Ok(Vec::new(self.alloc))
        }
    }
}
