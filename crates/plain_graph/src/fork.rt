//! What a fork does to the graph of the process that forks.
ghost use Rattle.std.specs.Prelude.{◌≡◌, ◌+◌, ◌^◌, ◌<◌, ◌≤◌, true, IfOk};
ghost use Rattle.model_numbers.specs.Numbers.{zygote_length};
ghost use Rattle.heap_graph.specs.Fork as fork;
ghost use Rattle.heap_graph.specs.Graph.{size_of_object};
ghost use Rattle.heap_graph.specs.Formed.{IsFormed};
ghost use Rattle.plain_graph.specs.Shapes.{AreSmall, HasClass};
ghost use Rattle.plain_graph.specs.Spots.{young_bytes};

use crate::sizes::size_in;
use crate::{Graph, Object};
use class_layout::Classes;
use heap_graph::Place;
use model_numbers::{PAGE_BYTES, ZYGOTE_BASE, ZYGOTE_LENGTH};
use std::alloc::{AllocError, Global};

impl Graph {
    /// Where the first object that a fork promotes will stand, in bytes from the start of the zygote window: the first
    /// whole page behind the window's objects.
    pub fn promotion_start(&self) -> u64
        requires formed { IsFormed self.now }
        ensures value { result ≡ fork.promotion_start self.now }
        ensures small { result < 2 ^ 40 }
    {
        self.zygote_fill().next_multiple_of(u64::from(PAGE_BYTES))
    }

    /// The bytes that a fork promotes to the zygote window: those of the young objects.
    #[tactic(auto, using(crate::proofs::FormedObjects::small_objects))]
    pub fn promotion_bytes(&self) -> u64
        requires formed { IsFormed self.now }
        ensures value { result ≡ fork.promotion_bytes self.now }
        ensures small { result ≤ 2 ^ 48 }
    {
        young_bytes(&self.classes, &self.objects)
    }

    /// Whether the zygote window has room for what a fork promotes.
    pub fn has_zygote_room(&self) -> bool
        requires formed { IsFormed self.now }
        ensures { result ≡ fork.has_zygote_room self.now }
    {
        self.promotion_start() + self.promotion_bytes() <= u64::from(ZYGOTE_LENGTH)
    }

    /// The graph of the process that forks, after the fork: its young objects stand in the zygote window, by rising
    /// number, one directly behind the other, and its large ones are promoted where they stand.
    #[tactic(auto, using(crate::proofs::FormedObjects::small_objects))]
    pub fn promoted(&self) -> Result<Graph, AllocError>
        requires formed { IsFormed self.now }
        requires room { fork.has_zygote_room self.now ≡ true }
        ensures { IfOk result (λ g. g ≡ fork.promoted self.now) }
    {
        let start = self.promotion_start();
        self.with_objects(promoted_from(self.alloc, &self.classes, start, &self.objects)?)
    }
}

impl Object {
    // The object after a fork, with this spot of the zygote window where it was young.
    fn promoted(&self, at: u64) -> Result<Object, AllocError>
        requires { at ≤ zygote_length }
        ensures { IfOk result (λ o. o ≡ record self.now { place = fork.promoted_place at self.now.place }) }
    {
        let mut object = self.copied()?;
        object.place = match self.place {
            Place::Young => Place::Zygote(ZYGOTE_BASE + at as u32),
            Place::Large => Place::Promoted,
            place => place,
        };
        Ok(object)
    }
}

// The bytes of the young objects.
#[tactic(auto, using(crate::proofs::FormedObjects::small_objects))]
fn young_bytes(classes: &Classes, objects: &[Object]) -> u64
    requires { AreSmall classes.now objects.now }
    ensures value { result ≡ young_bytes classes.now objects.now }
    ensures small { result ≤ 2 ^ 48 }
{
    let mut bytes = 0;
    for o in objects {
        bytes = next_spot(classes, bytes, o);
    }
    bytes
}

// The objects after a fork, the young ones from a spot of the zygote window on.
#[tactic(auto, using(crate::proofs::FormedObjects::small_objects))]
fn promoted_from(
    alloc: Global,
    classes: &Classes,
    start: u64,
    objects: &[Object],
) -> Result<Vec<Object>, AllocError>
    requires small { AreSmall classes.now objects.now }
    requires room { start + young_bytes classes.now objects.now ≤ zygote_length }
    ensures { IfOk result (λ os. os.items ≡ fork.promoted_from classes.now start objects.now) }
{
    let mut at = start;
    let mut promoted = Vec::with_capacity(alloc, objects.len())?;
    for o in objects {
        promoted.push(o.promoted(at)?)?;
        at = next_spot(classes, at, o);
    }
    Ok(promoted)
}

// The spot behind an object that gets this one where it is young.
fn next_spot(classes: &Classes, at: u64, o: &Object) -> u64
    requires class { HasClass classes.now o.now.shape }
    requires near { at < 2 ^ 60 }
    ensures { result ≡ fork.next_spot at (size_of_object classes.now o.now) o.now.place }
{
    match o.place {
        Place::Young => at + size_in(classes, o.shape),
        Place::Image(_) | Place::Zygote(_) | Place::Large | Place::Promoted => at,
    }
}
