//! Marks, and the marked objects whose references are still to be looked at.
ghost use Rattle.std.specs.Prelude.{◌≡◌, ◌≢◌, ℕ, ◌+◌, ◌++◌, ◌==◌, ◌||◌, ◌∷◌, [], not, true, false, filter, map, is_some, IsTrue, IfOk, OnOk, MatchOption, List};
ghost use Rattle.std.specs.List.{Contains};
ghost use Rattle.large_objects.specs.Rows.{AreRows, row_at};
ghost use Rattle.raw_objects.specs.References.{in_regions};
ghost use Rattle.region_lists.specs.Rows.{Row};
ghost use Rattle.live_objects.specs.Live.{HasLarge, ListsYoung, addresses};
ghost use Rattle.live_objects.specs.Marks.{CanConsider, HeldIn, Takes, has_mark, marked};
ghost use Rattle.live_objects.specs.Reach.{in_large, is_mortal, is_strong};

use crate::order::RegionOrder;
use bit_set::BitSet;
use cow_pages::Addr;
use large_objects::Larges;
use mark_bitmap::Bitmap;
use model_numbers::{
    LARGE_BASE, LARGE_SLOT_BYTES, LARGE_SLOT_COUNT, PAGE_BYTES, REGION_BASE, REGION_BYTES,
    REGION_COUNT,
};
use object_view::Slot;
use region_space::Regions;
use std::alloc::{AllocError, Global};
use std::marker::Model;

/// The marks: of objects in the regions by their packing places, and of large ones by their slots. And the addresses of
/// the marked objects whose references are still to be looked at.
#[derive(Drop)]
pub struct Marks {
    order: RegionOrder,
    young: Bitmap,
    large: BitSet,
    waiting: Vec<Addr>,
}

impl Model for Marks {
    ghost use Rattle.live_objects.specs.Live.{addresses};
    ghost use Rattle.live_objects.specs.Marks.{HasRoom, State};

    ghost Value = { State };

    ghost view = { λ s. record { numbers = s.order; young = s.young; large = s.large; waiting = addresses s.waiting.items } };

    ghost invariant = { λ s. HasRoom s.order s.young s.large };
}

impl Marks {
    /// No marks, for the objects of the regions in use and of all slots.
    pub fn new(alloc: Global, regions: &Regions) -> Result<Marks, AllocError>
        ensures numbers { IfOk result (λ s. s.numbers ≡ map (λ row. row.region) regions.now.in_use) }
        ensures clear { IfOk result (λ s. (a : ℕ) → marked s a ≡ false) }
        ensures none { IfOk result (λ s. s.waiting ≡ []) }
    {
        let order = RegionOrder::new(alloc, regions)?;
        let young = Bitmap::new(alloc, Addr(0), order.bytes())?;
        let mut large = BitSet::new(alloc);
        large.grow(LARGE_SLOT_COUNT as usize)?;
        Ok(Marks {
            order,
            young,
            large,
            waiting: Vec::new(alloc),
        })
    }

    /// Marks what stands at an address, and answers whether it was new to the marks.
    fn set(&mut self, at: Addr) -> bool
        requires { has_mark self.old.numbers at.0 ≡ true }
        ensures new { result ≡ not (marked self.old at.0) }
        ensures sets { (a : ℕ) → marked self.new a ≡ (a == at.0 || marked self.old a) }
        ensures rest { (self.new.numbers ≡ self.old.numbers) × (self.new.waiting ≡ self.old.waiting) }
    {
        if in_regions(at) {
            let place = self.order.place(at);
            let new = !self.young.test(place);
            self.young.set(place);
            return new;
        }
        let slot = ((at.0 - LARGE_BASE) / LARGE_SLOT_BYTES) as usize;
        let new = !self.large.contains(slot);
        self.large.insert(slot);
        new
    }

    /// Lets a marked object wait.
    fn push(&mut self, at: Addr) -> Result<(), AllocError>
        ensures { OnOk result (self.new ≡ record self.old { waiting = self.old.waiting ++ at.0 ∷ [] }) }
    {
        self.waiting.push(at)?;
        Ok(())
    }

    /// Marks an object once, and lets it wait.
    fn mark(&mut self, at: Addr) -> Result<(), AllocError>
        requires { has_mark self.old.numbers at.0 ≡ true }
        ensures { OnOk result (Takes (λ a. at.0 ≡ a) self.old self.new) }
    {
        if self.set(at) {
            self.push(at)?;
        }
        Ok(())
    }

    /// Marks what stands at an address, if it isn't immune.
    pub fn consider(&mut self, larges: &Larges, at: Addr) -> Result<(), AllocError>
        requires rows { AreRows larges.now }
        requires can { CanConsider larges.now self.old.numbers at.0 }
        ensures { OnOk result (Takes (HeldIn larges.now (at.0 ∷ [])) self.old self.new) }
    {
        if is_mortal(larges, at) {
            self.mark(at)?;
        }
        Ok(())
    }

    /// Marks what the roots hold.
    pub fn mark_roots(&mut self, larges: &Larges, roots: &[Addr]) -> Result<(), AllocError>
        requires rows { AreRows larges.now }
        requires can { (n : ℕ) → Contains (addresses roots.now) n → CanConsider larges.now self.old.numbers n }
        ensures { OnOk result (Takes (HeldIn larges.now (addresses roots.now)) self.old self.new) }
    {
        for root in roots {
            self.consider(larges, *root)?;
        }
        Ok(())
    }

    /// Marks what the slots hold that aren't weak.
    pub fn mark_slots(&mut self, larges: &Larges, slots: &[Slot]) -> Result<(), AllocError>
        requires rows { AreRows larges.now }
        requires can { (n : ℕ) → Contains (map (λ slot. slot.target.0) (filter is_strong slots.now)) n → CanConsider larges.now self.old.numbers n }
        ensures { OnOk result (Takes (HeldIn larges.now (map (λ slot. slot.target.0) (filter is_strong slots.now))) self.old self.new) }
    {
        for slot in slots {
            if !slot.weak {
                self.consider(larges, slot.target)?;
            }
        }
        Ok(())
    }

    /// The object that is looked at next, if one waits.
    pub fn next(&mut self) -> Option<Addr>
        ensures waiting { MatchOption result ((self.old.waiting ≡ []) × (self.new.waiting ≡ [])) (λ at. self.old.waiting ≡ self.new.waiting ++ at.0 ∷ []) }
        ensures rest { self.new ≡ record self.old { waiting = self.new.waiting } }
    {
        self.waiting.pop()
    }

    /// The marked objects of the regions, in the order of their packing places.
    pub fn list_young(&self, alloc: Global) -> Result<Vec<Addr>, AllocError>
        ensures { IfOk result (λ young. (in_use : List Row) → self.now.numbers ≡ map (λ row. row.region) in_use → ListsYoung in_use (λ a. marked self.now a ≡ true) young.items) }
    {
        let mut young = Vec::new(alloc);
        let mut from = Addr(0);
        while let Some(place) = self.young.next_from(from) {
            young.push(self.order.address(place))?;
            from = Addr(place.0 + 1);
        }
        Ok(young)
    }

    /// The slots of the marked large objects.
    pub fn into_large(self) -> BitSet
        ensures { HasLarge (λ a. marked self a ≡ true) result }
    {
        self.large
    }
}

/// Whether what stands at an address isn't immune.
fn is_mortal(larges: &Larges, at: Addr) -> bool
    requires rows { AreRows larges.now }
    requires row { in_large at.0 ≡ true → IsTrue (is_some (row_at larges.now at.0)) }
    ensures { result ≡ is_mortal larges.now at.0 }
{
    in_regions(at) || in_large(at) && !larges.is_promoted(at)
}

/// Whether an address lies in the window of regions.
fn in_regions(at: Addr) -> bool
    ensures { result ≡ in_regions at.0 }
{
    let first = REGION_BASE / PAGE_BYTES;
    let count = REGION_COUNT * REGION_BYTES / PAGE_BYTES;
    (first..first + count).contains(&at.page().0)
}

/// Whether an address lies in the window of large objects.
fn in_large(at: Addr) -> bool
    ensures { result ≡ in_large at.0 }
{
    let first = LARGE_BASE / PAGE_BYTES;
    let count = LARGE_SLOT_COUNT * LARGE_SLOT_BYTES / PAGE_BYTES;
    (first..first + count).contains(&at.page().0)
}
