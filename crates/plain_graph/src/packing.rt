ghost use Rattle.std.specs.Prelude.{◌≡◌, ◌+◌, ◌-◌, ◌*◌, ◌^◌, ◌<◌, ◌≤◌, ◌++◌, IfOk, OnOk, filter, length, map, sum};
ghost use Rattle.std.specs.List.{All};
ghost use Rattle.model_numbers.specs.Numbers.{region_bytes, most_array_bytes, number_limit};
ghost use Rattle.heap_graph.specs.Graph.{is_young, size_of_object};
ghost use Rattle.heap_graph.specs.Packing.{after, cost, costs, end_from, end_of, free, place, places_from, used, young_sizes};
ghost use Rattle.heap_graph.specs.Formed.{IsFormed};
ghost use Rattle.heap_world.specs.Pages.{all_covered, covered};
ghost use Rattle.plain_graph.specs.Shapes.{AreSmall, HasClass};

use crate::sizes::{parts_for, size_in, unrounded};
use crate::{Graph, Object};
use class_layout::Classes;
use heap_graph::Place;
use model_numbers::{PAGE_BYTES, REGION_BYTES};
use std::alloc::{AllocError, Global};

impl Graph {
    /// The regions that the young objects use.
    pub fn used(&self) -> u64
        requires formed { IsFormed self.now }
        ensures { result ≡ used self.now }
    {
        parts_for(REGION_BYTES, self.end_of())
    }

    /// The regions that the large objects cost, promoted or not.
    #[tactic(auto, using(crate::proofs::FormedObjects::small_objects))]
    pub fn costs(&self) -> u64
        requires formed { IsFormed self.now }
        ensures { result ≡ costs self.now }
    {
        sum_of_costs(self.classes(), self.objects())
    }

    /// The regions that the process may still use: its budget without those that are used and cost.
    pub fn free(&self) -> u64
        requires formed { IsFormed self.now }
        ensures { result ≡ free self.now }
    {
        u64::from(self.budget())
            .saturating_sub(self.used())
            .saturating_sub(self.costs())
    }

    /// The pages that the young objects cover, object by object, counted from the start of the first region. A page
    /// comes again for each object that covers a part of it.
    pub fn young_pages(&self) -> Result<Vec<u64>, AllocError>
        requires formed { IsFormed self.now }
        ensures { IfOk result (λ v. v.items ≡ all_covered (places_from 0 (young_sizes self.now)) (young_sizes self.now)) }
    {
        covered_pages(self.alloc, &self.young_sizes()?)
    }

    /// The sizes of the young objects, in bytes, by rising number.
    #[tactic(auto, using(crate::proofs::FormedObjects::small_objects))]
    pub(crate) fn young_sizes(&self) -> Result<Vec<u64>, AllocError>
        requires formed { IsFormed self.now }
        ensures value { IfOk result (λ v. v.items ≡ young_sizes self.now) }
        ensures small { IfOk result (λ v. All (λ s. s ≤ most_array_bytes) v.items) }
        ensures few { IfOk result (λ v. length v.items ≤ number_limit) }
    {
        sizes_of_young(self.alloc, self.classes(), self.objects())
    }

    /// Where the young objects end, in bytes from the start of the first region.
    #[tactic(auto, using(crate::proofs::FormedObjects::small_objects))]
    pub(crate) fn end_of(&self) -> u64
        requires formed { IsFormed self.now }
        ensures value { result ≡ end_of self.now }
        ensures small { result ≤ (most_array_bytes + region_bytes) * number_limit }
    {
        end_of_young(self.classes(), self.objects())
    }
}

/// Where so many bytes stand behind an end: directly there where they lie in one region, else in the next one.
pub fn place(from: u64, size: u64) -> u64
    requires { from + size < 2 ^ 63 }
    ensures value { result ≡ place from size }
    ensures behind { from ≤ result }
    ensures near { result ≤ from + (region_bytes - 1) }
{
    let region = u64::from(REGION_BYTES);
    if from / region == (from + size).saturating_sub(1) / region {
        from
    } else {
        from.next_multiple_of(region)
    }
}

/// The end of so many bytes that stand behind an end.
pub fn after(from: u64, size: u64) -> u64
    requires { from + size < 2 ^ 63 }
    ensures value { result ≡ after from size }
    ensures behind { from ≤ result }
    ensures near { result ≤ from + (region_bytes - 1) + size }
{
    place(from, size) + size
}

// The sizes of the young ones among the objects.
#[tactic(auto, using(crate::proofs::FormedObjects::small_objects))]
fn sizes_of_young(
    alloc: Global,
    classes: &Classes,
    objects: &[Object],
) -> Result<Vec<u64>, AllocError>
    requires { AreSmall classes.now objects.now }
    ensures value { IfOk result (λ v. v.items ≡ map (size_of_object classes.now) (filter (λ o. is_young o.place) objects.now)) }
    ensures small { IfOk result (λ v. All (λ s. s ≤ most_array_bytes) v.items) }
    ensures few { IfOk result (λ v. length v.items ≤ number_limit) }
{
    let mut sizes = Vec::new(alloc);
    for o in objects {
        if o.is_young() {
            sizes.push(size_in(classes, o.shape()))?;
        }
    }
    Ok(sizes)
}

// The end of the young ones among the objects.
#[tactic(auto, using(crate::proofs::FormedObjects::small_objects))]
fn end_of_young(classes: &Classes, objects: &[Object]) -> u64
    requires { AreSmall classes.now objects.now }
    ensures value { result ≡ end_from 0 (map (size_of_object classes.now) (filter (λ o. is_young o.place) objects.now)) }
    ensures small { result ≤ (most_array_bytes + region_bytes) * length objects.now }
{
    let mut end = 0;
    for o in objects {
        if o.is_young() {
            end = after(end, size_in(classes, o.shape()));
        }
    }
    end
}

#[tactic(auto, using(crate::proofs::FormedObjects::small_objects))]
fn sum_of_costs(classes: &Classes, objects: &[Object]) -> u64
    requires { AreSmall classes.now objects.now }
    ensures { result ≡ sum (map (λ o. cost classes.now o o.place) objects.now) }
{
    let mut regions = 0;
    for o in objects {
        regions += cost(classes, o);
    }
    regions
}

// The regions that a large object costs; 0 for others.
fn cost(classes: &Classes, o: &Object) -> u64
    requires { HasClass classes.now o.now.shape }
    ensures value { result ≡ cost classes.now o.now o.now.place }
    ensures small { result < 2 ^ 36 }
{
    match o.place() {
        Place::Large | Place::Promoted => parts_for(REGION_BYTES, unrounded(classes, o.shape())),
        _ => 0,
    }
}

// The pages that packed sizes cover, size by size.
fn covered_pages(alloc: Global, sizes: &[u64]) -> Result<Vec<u64>, AllocError>
    requires small { All (λ s. s ≤ most_array_bytes) sizes.now }
    requires few { length sizes.now ≤ number_limit }
    ensures { IfOk result (λ v. v.items ≡ all_covered (places_from 0 sizes.now) sizes.now) }
{
    let mut pages = Vec::new(alloc);
    let mut end = 0;
    for size in sizes {
        let at = place(end, *size);
        add_covered(&mut pages, at, *size)?;
        end = at + *size;
    }
    Ok(pages)
}

// Adds the pages that so many bytes at a place cover.
fn add_covered(pages: &mut Vec<u64>, at: u64, size: u64) -> Result<(), AllocError>
    requires { at + size < 2 ^ 63 }
    ensures { OnOk result (pages.new.items ≡ pages.old.items ++ covered at size) }
{
    let first = at / PAGE_BYTES as u64;
    let end = (at + size).saturating_sub(1) / PAGE_BYTES as u64 + 1;
    for page in first..end {
        pages.push(page)?;
    }
    Ok(())
}
