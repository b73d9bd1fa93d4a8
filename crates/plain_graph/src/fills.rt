ghost use Rattle.std.specs.Prelude.{◌≡◌, ◌*◌, ◌^◌, ◌<◌, ◌≤◌, length, map, sum};
ghost use Rattle.model_numbers.specs.Numbers.{most_array_bytes, number_limit};
ghost use Rattle.heap_graph.specs.Graph.{greatest, image_fill, image_size, zygote_end, zygote_fill};
ghost use Rattle.heap_graph.specs.Formed.{IsFormed};
ghost use Rattle.plain_graph.specs.Shapes.{AreSmall, HasClass};

use crate::sizes::size_in;
use crate::{Graph, Object};
use class_layout::Classes;
use heap_graph::Place;
use model_numbers::ZYGOTE_BASE;

impl Graph {
    /// The bytes of the image's objects.
    #[tactic(auto, using(crate::proofs::FormedObjects::small_objects))]
    pub fn image_fill(&self) -> u64
        requires formed { IsFormed self.now }
        ensures value { result ≡ image_fill self.now }
        ensures small { result ≤ most_array_bytes * number_limit }
    {
        image_bytes(self.classes(), self.objects())
    }

    /// The greatest end of an object of the zygote window, in bytes from the window's start.
    #[tactic(auto, using(crate::proofs::FormedObjects::small_objects))]
    pub fn zygote_fill(&self) -> u64
        requires formed { IsFormed self.now }
        ensures value { result ≡ zygote_fill self.now }
        ensures small { result < 2 ^ 38 }
    {
        greatest_end(self.classes(), self.objects())
    }
}

#[tactic(auto, using(crate::proofs::FormedObjects::small_objects))]
fn image_bytes(classes: &Classes, objects: &[Object]) -> u64
    requires { AreSmall classes.now objects.now }
    ensures value { result ≡ sum (map (λ o. image_size classes.now o o.place) objects.now) }
    ensures small { result ≤ most_array_bytes * length objects.now }
{
    let mut fill = 0;
    for o in objects {
        fill += image_size(classes, o);
    }
    fill
}

#[tactic(auto, using(crate::proofs::FormedObjects::small_objects))]
fn greatest_end(classes: &Classes, objects: &[Object]) -> u64
    requires { AreSmall classes.now objects.now }
    ensures value { result ≡ greatest (map (λ o. zygote_end classes.now o o.place) objects.now) }
    ensures small { result < 2 ^ 38 }
{
    let mut fill = 0;
    for o in objects {
        fill = zygote_end(classes, o).max(fill);
    }
    fill
}

// The bytes that an object takes in the image.
fn image_size(classes: &Classes, o: &Object) -> u64
    requires { HasClass classes.now o.now.shape }
    ensures value { result ≡ image_size classes.now o.now o.now.place }
    ensures small { result < 2 ^ 37 }
{
    match o.place {
        Place::Image(_) => size_in(classes, o.shape),
        _ => 0,
    }
}

// Where an object of the zygote window ends, in bytes from the window's start; 0 for others.
fn zygote_end(classes: &Classes, o: &Object) -> u64
    requires { HasClass classes.now o.now.shape }
    ensures value { result ≡ zygote_end classes.now o.now o.now.place }
    ensures small { result < 2 ^ 38 }
{
    match o.place {
        Place::Zygote(spot) => {
            (u64::from(spot) + size_in(classes, o.shape)).saturating_sub(u64::from(ZYGOTE_BASE))
        }
        _ => 0,
    }
}
