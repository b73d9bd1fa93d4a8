//! The regions in use in their order, and the packing places in them.
ghost use Rattle.std.specs.Prelude.{◌≡◌, ◌*◌, ◌%◌, ◌<◌, ◌≤◌, All, EachIndex, IfOk, length, map, slice_index, true};
ghost use Rattle.std.specs.List.{IsDistinct};
ghost use Rattle.std.specs.Prelude.{nat_eq};
ghost use Rattle.model_numbers.specs.Numbers.{region_bytes, region_count};
ghost use Rattle.heap_graph.specs.Reach.{is_among};
ghost use Rattle.raw_objects.specs.References.{in_regions};
ghost use Rattle.live_objects.specs.Marks.{AreIndexed, IsAddress, address_at, place_of, region_of};

use cow_pages::Addr;
use model_numbers::{REGION_BASE, REGION_BYTES, REGION_COUNT};
use region_space::Regions;
use std::alloc::{AllocError, Global};
use std::marker::Model;

/// The numbers of the regions in use, in the order in which they were opened, and by region where it stands in that order.
#[derive(Drop)]
pub struct RegionOrder {
    in_use: Vec<u32>,
    index: Vec<u32>,
}

impl Model for RegionOrder {
    ghost use Rattle.std.specs.Prelude.{List, ℕ};
    ghost use Rattle.live_objects.specs.Marks.{IsOrder};

    ghost Value = { List ℕ };

    ghost view = { λ s. s.in_use.items };

    ghost invariant = { λ s. IsOrder s.in_use.items s.index.items };
}

impl RegionOrder {
    /// The order of the regions in use.
    pub fn new(alloc: Global, regions: &Regions) -> Result<RegionOrder, AllocError>
        ensures { IfOk result (λ s. s ≡ map (λ row. row.region) regions.now.in_use) }
    {
        let in_use = numbers_of(alloc, regions)?;
        let index = index_of(alloc, &in_use)?;
        Ok(RegionOrder { in_use, index })
    }

    /// How many bytes the regions in use have.
    pub fn bytes(&self) -> u32
        ensures bytes { result ≡ region_bytes * length self.now }
        ensures few { length self.now ≤ region_count }
    {
        self.in_use.len() as u32 * REGION_BYTES
    }

    /// The packing place of an address in a region in use.
    pub fn place(&self, at: Addr) -> Addr
        requires inside { in_regions at.0 ≡ true }
        requires in_use { is_among self.now (region_of at.0) ≡ true }
        ensures { result.0 ≡ place_of self.now at.0 }
    {
        let offset = at.0 - REGION_BASE;
        let index = self.index[(offset / REGION_BYTES) as usize];
        Addr(index * REGION_BYTES + offset % REGION_BYTES)
    }

    /// The address of a packing place in the regions in use.
    pub fn address(&self, place: Addr) -> Addr
        requires { place.0 < region_bytes * length self.now }
        ensures value { result.0 ≡ address_at self.now place.0 }
        ensures is { IsAddress self.now place.0 }
    {
        let region = self.in_use[(place.0 / REGION_BYTES) as usize];
        Addr(REGION_BASE + region * REGION_BYTES + place.0 % REGION_BYTES)
    }
}

/// The numbers of the regions in use, in their order.
fn numbers_of(alloc: Global, regions: &Regions) -> Result<Vec<u32>, AllocError>
    ensures numbers { IfOk result (λ s. s.items ≡ map (λ row. row.region) regions.now.in_use) }
    ensures few { IfOk result (λ s. length s.items ≤ region_count) }
    ensures within { IfOk result (λ s. All (λ n. n < region_count) s.items) }
    ensures apart { IfOk result (λ s. IsDistinct nat_eq s.items) }
{
    let mut numbers = Vec::with_capacity(alloc, regions.used() as usize)?;
    let mut next = regions.first_region();
    while let Some(region) = next {
        numbers.push(region)?;
        next = regions.region_behind(region);
    }
    Ok(numbers)
}

/// By region, where it stands among these numbers, if it does.
fn index_of(alloc: Global, numbers: &[u32]) -> Result<Vec<u32>, AllocError>
    requires few { length numbers.now ≤ region_count }
    requires within { All (λ n. n < region_count) numbers.now }
    requires apart { IsDistinct nat_eq numbers.now }
    ensures count { IfOk result (λ s. length s.items ≡ region_count) }
    ensures found { IfOk result (λ s. AreIndexed numbers.now s.items (length numbers.now)) }
{
    let mut index = Vec::new(alloc);
    index.resize(REGION_COUNT as usize, 0)?;
    for i in 0..numbers.len() {
        index[numbers[i] as usize] = i as u32;
    }
    Ok(index)
}
