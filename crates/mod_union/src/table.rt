use crate::noted::{cards_of, noted_cards};
use crate::scan::Scan;
use card_table::Cards;
use class_layout::Classes;
use cow_pages::{Frames, TableNo};
use large_objects::Larges;
use mark_bitmap::Bitmap;
use object_view::Slot;
use std::alloc::{AllocError, Global};
use std::marker::Model;

/// A mod-union table: the cards of an immune space that hold a reference out of it. A card's number is its first
/// address, divided by 1,024.
#[derive(Drop)]
pub struct ModUnion {
    records: Vec<u32>,
}

impl Model for ModUnion {
    ghost use Rattle.std.specs.Prelude.{ℕ, List};
    ghost use Rattle.mod_union.specs.Lists.{AreCards};

    ghost Value = { List ℕ };

    ghost view = { λ m. m.records.items };

    ghost invariant = { λ m. AreCards m.records.items };
}

impl ModUnion {
    ghost use Rattle.std.specs.Prelude.{◌≡◌, ℕ, ◌*◌, true, IsFalse, IfOk, OnOk, OnErr, List, length};
    ghost use Rattle.class_layout.specs.Placing.{IsIn};
    ghost use Rattle.card_table.specs.CardSet.{is_dirty, SameSpan};
    ghost use Rattle.cow_pages.specs.Memory.{IsSound};
    ghost use Rattle.cow_pages.specs.View.{view_of};
    ghost use Rattle.object_view.specs.Seen.{RoseBy};
    ghost use Rattle.raw_objects.specs.Raws.{Raws};
    ghost use Rattle.mod_union.specs.ModUnion.{card_reads, has_slot_on, is_noted, is_recorded, space_of, AreOutward, CanUpdate};

    /// A table that records no card. It takes no memory.
    pub fn new(alloc: Global) -> ModUnion
        ensures { (card : ℕ) → IsFalse (is_recorded result card) }
    {
        ModUnion {
            records: Vec::new(alloc),
        }
    }

    /// Finds the outward slots of an immune space: the references of the objects that begin at the members of `starts`
    /// which lead into the regions or to a large object that isn't promoted. They come by rising address. Only cards that
    /// are dirty or recorded are scanned. Afterwards exactly the cards with an outward slot are recorded, and every card
    /// is clean. After `AllocError` cards and records are as before; the count of reads may have risen.
    pub fn update(
        &mut self,
        frames: &mut Frames,
        t: TableNo,
        classes: &Classes,
        cards: &mut Cards,
        starts: &Bitmap,
        larges: &Larges,
    ) -> Result<Vec<Slot>, AllocError>
        requires { (raws : Raws) × CanUpdate (space_of classes.now (view_of frames.old t.0) starts.now larges.now) self.old cards.old raws }
        ensures slots { IfOk result (λ found. (raws : Raws) → CanUpdate (space_of classes.now (view_of frames.old t.0) starts.now larges.now) self.old cards.old raws
            → AreOutward classes.now raws larges.now found.items) }
        ensures records { IfOk result (λ found. (card : ℕ) → is_recorded self.new card ≡ has_slot_on found.items card) }
        ensures clean { OnOk result ((card : ℕ) → IsFalse (is_dirty cards.new card)) }
        ensures span { SameSpan cards.old cards.new }
        ensures err { OnErr result ((self.new ≡ self.old) × (cards.new ≡ cards.old)) }
        ensures frames { frames.new ≡ record frames.old { reads = frames.new.reads } }
        ensures reads { (noted : List ℕ) → ((card : ℕ) → is_noted self.old cards.old card ≡ true → IsIn card noted) → RoseBy (card_reads * length noted) frames.old.reads frames.new.reads }
        ensures sound { IsSound frames.old → IsSound frames.new }
    {
        // says that the count of reads has 64 bits
        let _ = frames.immune_reads();
        let alloc = *self.records.allocator();
        let scan = Scan {
            t,
            classes,
            starts,
            larges,
        };
        let noted = noted_cards(alloc, &self.records, cards)?;
        let found = scan.outward_slots(alloc, frames, &noted)?;
        let records = cards_of(alloc, &found)?;
        self.records = records;
        cards.clean_all();
        Ok(found)
    }

    /// Removes all records.
    pub fn clear(&mut self)
        ensures { (card : ℕ) → IsFalse (is_recorded self.new card) }
    {
        self.records.clear();
    }

    /// An equal table.
    pub fn copied(&self) -> Result<ModUnion, AllocError>
        ensures { IfOk result (λ copy. copy ≡ self.now) }
    {
        let records = self.records.clone()?;
        Ok(ModUnion { records })
    }
}
