//! Where the objects of a graph stand.
ghost use Rattle.std.specs.Prelude.{◌≡◌, ◌*◌, ◌^◌, ◌<◌, ◌≤◌, ℕ, IfOk, map};
ghost use Rattle.address_table.specs.Computed.{address_in, addresses_from, end_behind, first_homes, large_behind, large_count, table_of};
ghost use Rattle.address_table.proofs.Behind.{last_end};
ghost use Rattle.heap_graph.specs.Formed.{AreObjects, IsFormed, IsShape};
ghost use Rattle.model_numbers.specs.Numbers.{large_slot_count, most_regions, region_bytes};

use class_layout::Classes;
use heap_graph::Place;
use model_numbers::{LARGE_BASE, LARGE_SLOT_BYTES, REGION_BASE};
use plain_graph::{Graph, Object, after, place, size_in};
use std::alloc::{AllocError, Global};

/// The address of an object behind young ones that end there and behind so many large ones.
fn address_in(classes: &Classes, end: u64, large: u64, o: &Object) -> u64
    requires shape { IsShape classes.now o.now.shape }
    requires end { end < 2 ^ 32 }
    requires large { large ≤ large_slot_count }
    ensures { (budget : ℕ) → end_behind classes.now end o.now o.now.place ≤ region_bytes * budget → large_behind large o.now.place ≤ large_slot_count →
        result ≡ address_in (first_homes budget) classes.now end large o.now o.now.place }
{
    match o.place() {
        Place::Image(spot) | Place::Zygote(spot) => u64::from(spot),
        Place::Young => u64::from(REGION_BASE) + place(end, size_in(classes, o.shape())),
        Place::Large | Place::Promoted => {
            u64::from(LARGE_BASE) + large * u64::from(LARGE_SLOT_BYTES)
        }
    }
}

/// Where the young objects end behind an object.
fn end_behind(classes: &Classes, end: u64, o: &Object) -> u64
    requires shape { IsShape classes.now o.now.shape }
    requires end { end < 2 ^ 32 }
    ensures { result ≡ end_behind classes.now end o.now o.now.place }
{
    match o.place() {
        Place::Young => after(end, size_in(classes, o.shape())),
        _ => end,
    }
}

/// How many large objects there are behind an object.
fn large_behind(large: u64, o: &Object) -> u64
    requires few { large ≤ large_slot_count }
    ensures { result ≡ large_behind large o.now.place }
{
    match o.place() {
        Place::Large | Place::Promoted => large + 1,
        _ => large,
    }
}

/// The addresses of objects, in their order.
pub(crate) fn addresses_of(
    alloc: Global,
    classes: &Classes,
    budget: u32,
    objects: &[Object],
) -> Result<Vec<u64>, AllocError>
    requires objects { AreObjects classes.now objects.now }
    requires few_regions { budget ≤ most_regions }
    requires young { last_end classes.now 0 objects.now ≤ region_bytes * budget }
    requires large { large_count 0 objects.now ≤ large_slot_count }
    ensures { IfOk result (λ v. v.items ≡ addresses_from (first_homes budget) classes.now 0 0 objects.now) }
{
    let mut addresses = Vec::with_capacity(alloc, objects.len())?;
    let mut end = 0;
    let mut large = 0;
    let mut rest = objects;
    while let Some((o, more)) = rest.split_first() {
        addresses.push(address_in(classes, end, large, o))?;
        end = end_behind(classes, end, o);
        large = large_behind(large, o);
        rest = more;
    }
    Ok(addresses)
}
