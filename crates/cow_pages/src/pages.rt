//! Pages of a table: mapped, written and released.
ghost use Rattle.std.specs.Prelude.{◌≡◌, ◌≢◌, ◌⊎◌, ℕ, ◌+◌, ◌<◌, ◌≤◌, ◌/◌, ◌%◌, length, IsOk, IfOk, OnOk, OnErr, Some, None, true, false, IsTrue, is_some, slice_index_or};
ghost use Rattle.model_numbers.specs.Numbers.{page_bytes};
ghost use Rattle.page_tables.specs.Address.{page_of, offset_of, is_in_window, leaf_index, leaf_slot};
ghost use Rattle.cow_pages.specs.Memory.{is_live, is_mapped, page_at, HasOneSharer, IsShared, used_frames};
ghost use Rattle.cow_pages.specs.Change.{ChangesPage, FreesFrames, KeepsRoom, LeavesLeaf, MapsZeros, OwnsLeaf, TakesFrame, TakesOnCopy, TakesOne, WritesPage};
ghost use Rattle.page_tables.specs.Frame.{part_of};
ghost use Rattle.cow_pages.specs.View.{bytes_at, view_of};
ghost use Rattle.cow_pages.specs.Store.{shown, bytes_of, spare_of, entry_at, place_at, frame_sharers, leaf_sharers, pages_kept, IsStore, IsReady};
ghost use Rattle.cow_pages.specs.Steps.{IsCountedAt, KeepsCounts, LeavesPlace, Recounts, OwnsEntry, PutsBytes, Maps, Marks, Unmaps};

use crate::store::Store;
use page_tables::{Addr, Entry, LEAF_PAGES, copy_part, put, window_of};
use std::alloc::AllocError;

impl Store {
    /// Counts for a table that of a page one entry went and another came.
    #[inline]
    fn recount(&mut self, t: usize, page: u32, gone: Option<Entry>, came: Option<Entry>)
        requires counted { IsCountedAt self.old t page gone }
        requires window { IsTrue (is_in_window page) }
        ensures recounts { Recounts self.old self.new t page gone came }
        ensures rest { self.new ≡ record self.old { tables = self.new.tables } }
    {
        let window = window_of(page);
        match &mut self.tables[t] {
            Some(table) => {
                table.uncount(window, gone);
                table.count(window, came);
            }
            None => unreachable!(),
        }
    }

    pub fn map_zero(&mut self, t: usize, page: u32) -> Result<(), AllocError>
        requires store { IsStore self.old }
        requires live { IsTrue (is_live (shown self.old) t) }
        requires window { IsTrue (is_in_window page) }
        requires unmapped { page_at (shown self.old) t page ≡ None }
        ensures store { IsStore self.new }
        ensures zeros { OnOk result (MapsZeros (shown self.old) (shown self.new) t page) }
        ensures rest { OnOk result (ChangesPage (shown self.old) (shown self.new) t page) }
        ensures takes { OnOk result (TakesFrame (shown self.old) (shown self.new)) }
        ensures one { OnOk result (TakesOne (shown self.old) (shown self.new)) }
        ensures leaf { OnOk result (OwnsLeaf (shown self.old) (shown self.new) t (leaf_index page)) }
        ensures succeeds { spare_of self.old ≢ 0 → IsOk result }
        ensures err { OnErr result (shown self.new ≡ shown self.old) }
    {
        self.reserve(1)?;
        let leaf = self.own_leaf(t, page as usize / LEAF_PAGES);
        self.map(t, page, leaf);
        Ok(())
    }

    /// Maps a page of zeros in a leaf of the table's own.
    fn map(&mut self, t: usize, page: u32, leaf: usize)
        requires ready { IsReady self.old t (leaf_index page) leaf }
        requires window { IsTrue (is_in_window page) }
        requires unmapped { entry_at self.old t page ≡ None }
        requires spare { 0 < self.old.frame_counts.spare }
        ensures store { IsStore self.new }
        ensures maps { Maps self.old self.new t page }
    {
        let number = self.take_zeros();
        let entry = Some(Entry::new(number));
        self.set_slot(leaf, page as usize % LEAF_PAGES, entry);
        self.recount(t, page, None, entry);
    }

    /// Writes the bytes in a frame that no other entry has, and sets the page's flag. A page whose flag is set has
    /// such a frame.
    #[inline]
    pub fn write(&mut self, t: usize, at: Addr, bytes: &[u8]) -> Result<(), AllocError>
        requires store { IsStore self.old }
        requires mapped { IsTrue (is_mapped (shown self.old) t (page_of at.0)) }
        requires room { offset_of at.0 + length bytes.now ≤ page_bytes }
        ensures store { IsStore self.new }
        ensures page { OnOk result (WritesPage (shown self.old) (shown self.new) t at.0 bytes.now) }
        ensures takes { OnOk result (TakesOnCopy (shown self.old) (shown self.new) t (page_of at.0)) }
        ensures leaf { OnOk result (OwnsLeaf (shown self.old) (shown self.new) t (leaf_index (page_of at.0))) }
        ensures succeeds { HasOneSharer (shown self.old) t (page_of at.0) ⊎ (spare_of self.old ≢ 0) → IsOk result }
        ensures only { OnErr result (IsShared (shown self.old) t (page_of at.0) × (spare_of self.old ≡ 0)) }
        ensures err { OnErr result (shown self.new ≡ shown self.old) }
    {
        let entry = self.mapped_entry(t, at.page().0);
        if entry.written {
            self.put(entry.frame as usize, at.offset(), bytes);
            return Ok(());
        }
        self.write_first(t, at, bytes)
    }

    /// Writes the bytes where the page's flag may not be set yet.
    #[inline(never)]
    fn write_first(&mut self, t: usize, at: Addr, bytes: &[u8]) -> Result<(), AllocError>
        requires store { IsStore self.old }
        requires mapped { IsTrue (is_mapped (shown self.old) t (page_of at.0)) }
        requires room { offset_of at.0 + length bytes.now ≤ page_bytes }
        ensures store { IsStore self.new }
        ensures page { OnOk result (WritesPage (shown self.old) (shown self.new) t at.0 bytes.now) }
        ensures takes { OnOk result (TakesOnCopy (shown self.old) (shown self.new) t (page_of at.0)) }
        ensures leaf { OnOk result (OwnsLeaf (shown self.old) (shown self.new) t (leaf_index (page_of at.0))) }
        ensures succeeds { HasOneSharer (shown self.old) t (page_of at.0) ⊎ (spare_of self.old ≢ 0) → IsOk result }
        ensures only { OnErr result (IsShared (shown self.old) t (page_of at.0) × (spare_of self.old ≡ 0)) }
        ensures err { OnErr result (shown self.new ≡ shown self.old) }
    {
        let page = at.page().0;
        let entry = self.mapped_entry(t, page);
        let own = self.own(t, page, entry)?;
        self.mark(t, page, own);
        self.put(own.frame as usize, at.offset(), bytes);
        Ok(())
    }

    /// Gives an entry a frame with the same bytes that no other entry has, in a leaf of its own.
    #[inline]
    fn own(&mut self, t: usize, page: u32, entry: Entry) -> Result<Entry, AllocError>
        requires store { IsStore self.old }
        requires there { entry_at self.old t page ≡ Some entry }
        ensures store { IsStore self.new }
        ensures owns { IfOk result (λ it. OwnsEntry self.old self.new t page entry it) }
        ensures takes { OnOk result (TakesOnCopy (shown self.old) (shown self.new) t page) }
        ensures leaf { OnOk result (OwnsLeaf (shown self.old) (shown self.new) t (leaf_index page)) }
        ensures succeeds { HasOneSharer (shown self.old) t page ⊎ (spare_of self.old ≢ 0) → IsOk result }
        ensures only { OnErr result (IsShared (shown self.old) t page × (spare_of self.old ≡ 0)) }
        ensures err { OnErr result (shown self.new ≡ shown self.old) }
    {
        let Some(leaf) = self.place(t, page as usize / LEAF_PAGES) else {
            unreachable!()
        };
        if self.leaf_counts.holders(leaf as usize) == 1
            && self.frame_counts.holders(entry.frame as usize) == 1
        {
            return Ok(entry);
        }
        self.copy(t, page, entry)
    }

    /// Gives an entry whose leaf or frame has another sharer a copy of them.
    #[inline(never)]
    fn copy(&mut self, t: usize, page: u32, entry: Entry) -> Result<Entry, AllocError>
        requires store { IsStore self.old }
        requires there { entry_at self.old t page ≡ Some entry }
        requires shared { IsShared (shown self.old) t page }
        ensures store { IsStore self.new }
        ensures owns { IfOk result (λ it. OwnsEntry self.old self.new t page entry it) }
        ensures takes { OnOk result (TakesOnCopy (shown self.old) (shown self.new) t page) }
        ensures leaf { OnOk result (OwnsLeaf (shown self.old) (shown self.new) t (leaf_index page)) }
        ensures succeeds { spare_of self.old ≢ 0 → IsOk result }
        ensures only { OnErr result (IsShared (shown self.old) t page × (spare_of self.old ≡ 0)) }
        ensures err { OnErr result (shown self.new ≡ shown self.old) }
    {
        self.reserve(1)?;
        let leaf = self.own_leaf(t, page as usize / LEAF_PAGES);
        let number = self.take_copy(entry.frame as usize);
        let own = Entry::new(number);
        self.set_slot(leaf, page as usize % LEAF_PAGES, Some(own));
        Ok(own)
    }

    /// Sets the flag of an entry whose frame no other entry has.
    #[inline]
    fn mark(&mut self, t: usize, page: u32, entry: Entry)
        requires store { IsStore self.old }
        requires there { entry_at self.old t page ≡ Some entry }
        requires alone { HasOneSharer (shown self.old) t page }
        ensures store { IsStore self.new }
        ensures marks { Marks self.old self.new t page entry }
    {
        if entry.written {
            return;
        }
        let Some(leaf) = self.place(t, page as usize / LEAF_PAGES) else {
            unreachable!()
        };
        let marked = Some(entry.with_flag());
        self.set_slot(leaf as usize, page as usize % LEAF_PAGES, marked);
        self.recount(t, page, Some(entry), marked);
    }

    /// Puts bytes into a frame.
    #[inline]
    fn put(&mut self, number: usize, offset: usize, bytes: &[u8])
        requires store { IsStore self.old }
        requires within { number < length self.old.frames.items }
        requires room { offset + length bytes.now ≤ page_bytes }
        ensures store { IsStore self.new }
        ensures puts { PutsBytes self.old self.new number offset bytes.now }
    {
        put(&mut self.frames[number].bytes, offset, bytes);
    }

    /// Copies bytes of one page into another, which is written as `write` does.
    pub fn copy_slice(
        &mut self,
        t: usize,
        from: Addr,
        to: Addr,
        count: usize,
    ) -> Result<(), AllocError>
        requires store { IsStore self.old }
        requires from_mapped { IsTrue (is_mapped (shown self.old) t (page_of from.0)) }
        requires mapped { IsTrue (is_mapped (shown self.old) t (page_of to.0)) }
        requires apart { page_of from.0 ≢ page_of to.0 }
        requires from_room { offset_of from.0 + count ≤ page_bytes }
        requires room { offset_of to.0 + count ≤ page_bytes }
        ensures store { IsStore self.new }
        ensures page { OnOk result (WritesPage (shown self.old) (shown self.new) t to.0 (bytes_at (view_of (shown self.old) t) from.0 count)) }
        ensures takes { OnOk result (TakesOnCopy (shown self.old) (shown self.new) t (page_of to.0)) }
        ensures leaf { OnOk result (OwnsLeaf (shown self.old) (shown self.new) t (leaf_index (page_of to.0))) }
        ensures succeeds { HasOneSharer (shown self.old) t (page_of to.0) ⊎ (spare_of self.old ≢ 0) → IsOk result }
        ensures only { OnErr result (IsShared (shown self.old) t (page_of to.0) × (spare_of self.old ≡ 0)) }
        ensures err { OnErr result (shown self.new ≡ shown self.old) }
    {
        let page = to.page().0;
        let entry = self.mapped_entry(t, page);
        let own = self.own(t, page, entry)?;
        self.mark(t, page, own);
        let source = self.mapped_entry(t, from.page().0).frame as usize;
        let start = from.offset();
        let offset = to.offset();
        self.put_part(source, start, own.frame as usize, offset, count);
        Ok(())
    }

    /// Puts bytes of one frame into another.
    fn put_part(&mut self, source: usize, start: usize, number: usize, offset: usize, count: usize)
        requires store { IsStore self.old }
        requires source_within { source < length self.old.frames.items }
        requires within { number < length self.old.frames.items }
        requires apart { source ≢ number }
        requires source_room { start + count ≤ page_bytes }
        requires room { offset + count ≤ page_bytes }
        ensures store { IsStore self.new }
        ensures puts { PutsBytes self.old self.new number offset (part_of (bytes_of self.old source) start count) }
    {
        copy_part(
            self.frames.as_mut_slice(),
            source,
            start,
            number,
            offset,
            count,
        );
    }

    pub fn release(&mut self, t: usize, page: u32)
        requires store { IsStore self.old }
        requires mapped { IsTrue (is_mapped (shown self.old) t page) }
        requires alone { HasOneSharer (shown self.old) t page }
        ensures store { IsStore self.new }
        ensures unmapped { page_at (shown self.new) t page ≡ None }
        ensures rest { ChangesPage (shown self.old) (shown self.new) t page }
        ensures leaf { LeavesLeaf (shown self.old) (shown self.new) t (leaf_index page) }
        ensures room { FreesFrames (shown self.old) (shown self.new) }
        ensures freed { used_frames (shown self.new) + 1 ≡ used_frames (shown self.old) }
    {
        let index = page as usize / LEAF_PAGES;
        let Some(leaf) = self.place(t, index) else {
            unreachable!()
        };
        let entry = self.mapped_entry(t, page);
        self.unmap(t, page, leaf as usize, entry);
        if self.leaves[leaf as usize].mapped() == 0 {
            self.leave(t, index, leaf as usize);
        }
    }

    /// Takes an entry from a leaf of the table's own, and its frame from the entry.
    fn unmap(&mut self, t: usize, page: u32, leaf: usize, entry: Entry)
        requires store { IsStore self.old }
        requires there { entry_at self.old t page ≡ Some entry }
        requires place { place_at self.old t (leaf_index page) ≡ Some leaf }
        requires own { leaf_sharers self.old leaf ≡ 1 }
        requires alone { frame_sharers self.old entry.frame ≡ 1 }
        ensures ready { IsReady self.new t (leaf_index page) leaf }
        ensures unmaps { Unmaps self.old self.new t page }
    {
        self.frame_counts.unshare(entry.frame as usize);
        self.set_slot(leaf, page as usize % LEAF_PAGES, None);
        self.recount(t, page, Some(entry), None);
    }

    /// Takes a leaf without a mapped page from its table.
    fn leave(&mut self, t: usize, index: usize, leaf: usize)
        requires ready { IsReady self.old t index leaf }
        requires empty { pages_kept self.old leaf ≡ 0 }
        ensures store { IsStore self.new }
        ensures leaves { LeavesPlace self.old self.new t index leaf }
        ensures spare { self.new.leaf_counts.spare ≡ self.old.leaf_counts.spare + 1 }
        ensures rest { self.new ≡ record self.old { tables = self.new.tables; leaf_counts = self.new.leaf_counts } }
        ensures counts { KeepsCounts self.old self.new }
    {
        self.leaf_counts.unshare(leaf);
        self.set_place(t, index, None);
    }
}
