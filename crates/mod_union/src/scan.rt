//! The scan of cards for outward slots.
ghost use Rattle.std.specs.Prelude.{◌≡◌, ℕ, ◌+◌, ◌*◌, ◌-◌, ◌/◌, ◌%◌, ◌^◌, ◌<◌, ◌≤◌, true, is_some, IsTrue, IfOk, OnOk, length};
ghost use Rattle.class_layout.specs.Placing.{IsIn};
ghost use Rattle.model_numbers.specs.Numbers.{card_bytes};
ghost use Rattle.card_table.specs.CardSet.{card_of};
ghost use Rattle.page_tables.specs.declared.address.Window.TheVariants.{Large};
ghost use Rattle.page_tables.specs.Address.{is_in, page_of};
ghost use Rattle.cow_pages.specs.Memory.{is_mapped, IsSound};
ghost use Rattle.cow_pages.specs.Change.{reads_after};
ghost use Rattle.cow_pages.specs.View.{u32_at, view_of};
ghost use Rattle.large_objects.specs.Rows.{row_at};
ghost use Rattle.object_view.specs.declared.names.Slot.{Slot};
ghost use Rattle.raw_objects.specs.Raws.{raw_size, Raws};
ghost use Rattle.mod_union.specs.Lists.{itself, AreCards, AreRising};
ghost use Rattle.mod_union.specs.ModUnion.{card_reads, is_outside, HoldsSpace, IsOutwardSlot};
ghost use Rattle.mod_union.specs.Scans.{begin_on, end_on, space_in, with_outward, AreBelow, IsEdge, IsObjectOf, Reads};

use crate::search::first_reference;
use class_layout::Classes;
use cow_pages::{Addr, Frames, TableNo};
use heap_graph::Shape;
use large_objects::Larges;
use mark_bitmap::Bitmap;
use model_numbers::{CARD_BYTES, LARGE_BASE, LARGE_SLOT_BYTES, LARGE_SLOT_COUNT, PAGE_BYTES};
use object_view::{Slot, read_shape, reference_at, size_of};
use raw_objects::in_regions;
use std::alloc::{AllocError, Global};

/// What is scanned: a table's objects that begin at the members of `starts`.
#[derive(Clone, Copy)]
pub struct Scan<'a> {
    pub t: TableNo,
    pub classes: &'a Classes,
    pub starts: &'a Bitmap,
    pub larges: &'a Larges,
}

impl Scan<'_> {
    /// The outward slots on cards by rising number. No other card has any.
    pub fn outward_slots(
        &self,
        alloc: Global,
        frames: &mut Frames,
        cards: &[u32],
    ) -> Result<Vec<Slot>, AllocError>
        requires cards { AreCards cards.now }
        requires held { (raws : Raws) × HoldsSpace (space_in self.now frames.old) raws }
        ensures found { IfOk result (λ found. (raws : Raws) → HoldsSpace (space_in self.now frames.old) raws
            → ((slot : Slot) → IsOutwardSlot self.now.classes.now raws self.now.larges.now slot → IsIn (card_of slot.at.0) cards.now)
            → AreBelow self.now raws (2 ^ 32) found.items) }
        ensures reads { Reads (card_reads * length cards.now) frames.old frames.new }
    {
        let mut found = Vec::new(alloc);
        for &card in cards {
            self.scan_card(frames, card, &mut found)?;
        }
        Ok(found)
    }

    /// Adds the outward slots of a card to those before it.
    fn scan_card(
        &self,
        frames: &mut Frames,
        card: u32,
        found: &mut Vec<Slot>,
    ) -> Result<(), AllocError>
        requires within { card_bytes * (card + 1) ≤ 2 ^ 32 }
        requires held { (raws : Raws) × HoldsSpace (space_in self.now frames.old) raws }
        ensures found { OnOk result ((raws : Raws) → HoldsSpace (space_in self.now frames.old) raws
            → AreBelow self.now raws (card_bytes * card) found.old.items → AreBelow self.now raws (card_bytes * (card + 1)) found.new.items) }
        ensures reads { Reads card_reads frames.old frames.new }
    {
        let next = self.scan_before(frames, card, found)?;
        self.scan_from(frames, next, card, found)
    }

    /// Adds the outward slots that the object which begins before a card has there, and tells from which address on the
    /// objects begin that are left.
    fn scan_before(
        &self,
        frames: &mut Frames,
        card: u32,
        found: &mut Vec<Slot>,
    ) -> Result<u64, AllocError>
        requires within { card_bytes * (card + 1) ≤ 2 ^ 32 }
        requires held { (raws : Raws) × HoldsSpace (space_in self.now frames.old) raws }
        ensures behind { IfOk result (λ next. card_bytes * card ≤ next) }
        ensures edge { IfOk result (λ next. (raws : Raws) → HoldsSpace (space_in self.now frames.old) raws → IsEdge self.now.classes.now raws next) }
        ensures found { IfOk result (λ next. (raws : Raws) → HoldsSpace (space_in self.now frames.old) raws
            → AreBelow self.now raws (card_bytes * card) found.old.items → AreBelow self.now raws (end_on card next) found.new.items) }
        ensures reads { Reads (2 + card_bytes / 4) frames.old frames.new }
        ensures fewer { IfOk result (λ next. Reads (2 + (end_on card next - card_bytes * card) / 4) frames.old frames.new) }
    {
        let from = card * CARD_BYTES;
        let Some(at) = self.starts.last_before(Addr(from)) else {
            return Ok(u64::from(from));
        };
        let end = self.scan_object(frames, at, card, found)?;
        Ok(end.max(u64::from(from)))
    }

    /// Adds the outward slots on a card of the objects that begin at `next` or behind it.
    fn scan_from(
        &self,
        frames: &mut Frames,
        next: u64,
        card: u32,
        found: &mut Vec<Slot>,
    ) -> Result<(), AllocError>
        requires within { card_bytes * (card + 1) ≤ 2 ^ 32 }
        requires behind { card_bytes * card ≤ next }
        requires held { (raws : Raws) × HoldsSpace (space_in self.now frames.old) raws }
        ensures found { OnOk result ((raws : Raws) → HoldsSpace (space_in self.now frames.old) raws → IsEdge self.now.classes.now raws next
            → AreBelow self.now raws (end_on card next) found.old.items → AreBelow self.now raws (card_bytes * (card + 1)) found.new.items) }
        ensures reads { Reads ((card_bytes * (card + 1) - next) / 2) frames.old frames.new }
    {
        let last = card * CARD_BYTES + (CARD_BYTES - 1);
        let mut next = next;
        while next <= u64::from(last) {
            let Some(at) = self.starts.next_from(Addr(next as u32)) else {
                return Ok(());
            };
            if at.0 > last {
                return Ok(());
            }
            next = self.scan_object(frames, at, card, found)?;
        }
        Ok(())
    }

    /// Adds the outward slots that an object has on a card, and tells where the object ends.
    fn scan_object(
        &self,
        frames: &mut Frames,
        at: Addr,
        card: u32,
        found: &mut Vec<Slot>,
    ) -> Result<u64, AllocError>
        requires within { card_bytes * (card + 1) ≤ 2 ^ 32 }
        requires before { at.0 < card_bytes * (card + 1) }
        requires held { (raws : Raws) × HoldsSpace (space_in self.now frames.old) raws × (raws.has at.0 ≡ true) }
        ensures end { IfOk result (λ end. (raws : Raws) → HoldsSpace (space_in self.now frames.old) raws → raws.has at.0 ≡ true
            → end ≡ at.0 + raw_size self.now.classes.now raws at.0) }
        ensures found { IfOk result (λ end. (raws : Raws) → HoldsSpace (space_in self.now frames.old) raws → raws.has at.0 ≡ true
            → AreBelow self.now raws (begin_on card at.0) found.old.items → AreBelow self.now raws (end_on card end) found.new.items) }
        ensures reads { (raws : Raws) → HoldsSpace (space_in self.now frames.old) raws → raws.has at.0 ≡ true
            → Reads (2 + (end_on card (at.0 + raw_size self.now.classes.now raws at.0) - begin_on card at.0) / 4) frames.old frames.new }
    {
        let shape = read_shape(frames, self.t, at);
        self.scan_references(frames, at, shape, card, found)?;
        Ok(u64::from(at.0) + size_of(self.classes, shape))
    }

    /// Adds the outward slots that an object of a shape has on a card.
    fn scan_references(
        &self,
        frames: &mut Frames,
        at: Addr,
        shape: Shape,
        card: u32,
        found: &mut Vec<Slot>,
    ) -> Result<(), AllocError>
        requires within { card_bytes * (card + 1) ≤ 2 ^ 32 }
        requires before { at.0 < card_bytes * (card + 1) }
        requires held { (raws : Raws) × IsObjectOf (space_in self.now frames.old) raws at.0 shape }
        ensures found { OnOk result ((raws : Raws) → IsObjectOf (space_in self.now frames.old) raws at.0 shape
            → AreBelow self.now raws (begin_on card at.0) found.old.items → AreBelow self.now raws (end_on card (at.0 + raw_size self.now.classes.now raws at.0)) found.new.items) }
        ensures reads { (raws : Raws) → IsObjectOf (space_in self.now frames.old) raws at.0 shape
            → Reads ((end_on card (at.0 + raw_size self.now.classes.now raws at.0) - begin_on card at.0) / 4) frames.old frames.new }
    {
        let from = card * CARD_BYTES;
        let last = from + (CARD_BYTES - 1);
        let first = first_reference(self.classes, shape, from.saturating_sub(at.0));
        for k in first..usize::MAX {
            let Some((offset, weak)) = reference_at(self.classes, shape, k) else {
                return Ok(());
            };
            let slot = Addr(at.0 + offset);
            if slot.0 > last {
                return Ok(());
            }
            self.scan_slot(frames, slot, weak, found)?;
        }
        Ok(())
    }

    /// Adds a slot, where it is outward.
    fn scan_slot(
        &self,
        frames: &mut Frames,
        at: Addr,
        weak: bool,
        found: &mut Vec<Slot>,
    ) -> Result<(), AllocError>
        requires aligned { at.0 % 4 ≡ 0 }
        requires mapped { IsTrue (is_mapped frames.old self.now.t.0 (page_of at.0)) }
        requires known { is_in Large (page_of (u32_at (view_of frames.old self.now.t.0) at.0)) ≡ true
            → IsTrue (is_some (row_at self.now.larges.now (u32_at (view_of frames.old self.now.t.0) at.0))) }
        ensures found { OnOk result (found.new.items ≡ with_outward self.now.larges.now found.old.items
            (record { at = at; target = record { 0 = u32_at (view_of frames.old self.now.t.0) at.0 }; weak = weak })) }
        ensures frames { frames.new ≡ record frames.old { reads = reads_after frames.old.reads at.0 } }
        ensures sound { IsSound frames.new }
    {
        let target = Addr(frames.read_u32(self.t, at));
        if is_outside(self.larges, target) {
            found.push(Slot { at, target, weak })?;
        }
        Ok(())
    }
}

// Whether no immune object stands at an address.
fn is_outside(larges: &Larges, at: Addr) -> bool
    requires { is_in Large (page_of at.0) ≡ true → IsTrue (is_some (row_at larges.now at.0)) }
    ensures { result ≡ is_outside larges.now at.0 }
{
    in_regions(at) || in_large(at) && !larges.is_promoted(at)
}

// Whether an address lies in the window of large objects.
fn in_large(at: Addr) -> bool
    ensures { result ≡ is_in Large (page_of at.0) }
{
    let first = LARGE_BASE / PAGE_BYTES;
    let count = LARGE_SLOT_COUNT * LARGE_SLOT_BYTES / PAGE_BYTES;
    (first..first + count).contains(&at.page().0)
}
