//! All frames, leaves and tables, and how an entry is found.
ghost use Rattle.std.specs.Prelude.{◌≡◌, ◌<◌, [], length, IsTrue, is_some, slice_index_or};
ghost use Rattle.page_tables.specs.Address.{page_of, leaf_pages};
ghost use Rattle.cow_pages.specs.Memory.{is_live, is_mapped, frame_at, leaf_at};
ghost use Rattle.cow_pages.specs.Change.{reads_after};
ghost use Rattle.page_tables.specs.Grid.{cell};
ghost use Rattle.cow_pages.specs.Store.{shown, place_at, entry_at, leaf_grid, table_grid, IsStore};

use page_tables::{ALL_PAGES, Addr, Entry, Frame, LEAF_PAGES, Leaf, Table};
use sharers::Sharers;
use std::alloc::Global;

/// Each frame counts the slots of leaves that have it, and each leaf the tables that have it.
#[derive(Drop)]
pub struct Store {
    pub alloc: Global,
    pub frames: Vec<Frame>,
    pub frame_counts: Sharers,
    pub leaves: Vec<Leaf>,
    pub leaf_counts: Sharers,
    /// By number. A table that was dropped leaves its number to a later one.
    pub tables: Vec<Option<Table>>,
    /// Which numbers name a table.
    pub table_counts: Sharers,
    pub reads: u64,
}

impl Store {
    pub fn new(alloc: Global) -> Store
        ensures frames { (result.frames.items ≡ []) × (result.frame_counts.counts ≡ []) × (result.frame_counts.spare ≡ 0) }
        ensures leaves { (result.leaves.items ≡ []) × (result.leaf_counts.counts ≡ []) × (result.leaf_counts.spare ≡ 0) }
        ensures tables { (result.tables.items ≡ []) × (result.table_counts.counts ≡ []) × (result.table_counts.spare ≡ 0) }
        ensures reads { result.reads ≡ 0 }
    {
        Store {
            alloc,
            frames: Vec::new(alloc),
            frame_counts: Sharers::new(alloc),
            leaves: Vec::new(alloc),
            leaf_counts: Sharers::new(alloc),
            tables: Vec::new(alloc),
            table_counts: Sharers::new(alloc),
            reads: 0,
        }
    }

    /// The leaf that a table has at an index.
    #[inline]
    pub fn place(&self, t: usize, index: usize) -> Option<u32>
        requires live { IsTrue (is_some (slice_index_or self.now.tables.items t None)) }
        requires within { index < length (slice_index_or (table_grid self.now) t []) }
        ensures { result ≡ place_at self.now t index }
    {
        match &self.tables[t] {
            Some(table) => table.leaves[index],
            None => unreachable!(),
        }
    }

    /// The entry in a slot of a leaf.
    #[inline]
    fn slot(&self, leaf: usize, slot: usize) -> Option<Entry>
        requires leaf { leaf < length self.now.leaves.items }
        requires slot { slot < leaf_pages }
        ensures { result ≡ cell (leaf_grid self.now) leaf slot }
    {
        self.leaves[leaf].entry(slot)
    }

    /// The entry in a slot of a leaf, whose page is mapped.
    #[inline]
    fn mapped_slot(&self, leaf: usize, slot: usize) -> Entry
        requires leaf { leaf < length self.now.leaves.items }
        requires slot { slot < leaf_pages }
        requires mapped { IsTrue (is_some (cell (leaf_grid self.now) leaf slot)) }
        ensures { cell (leaf_grid self.now) leaf slot ≡ Some result }
    {
        self.leaves[leaf].mapped_entry(slot)
    }

    /// The entry of a page, if it is mapped.
    #[inline]
    pub fn entry(&self, t: usize, page: u32) -> Option<Entry>
        requires store { IsStore self.now }
        requires live { IsTrue (is_live (shown self.now) t) }
        ensures { result ≡ entry_at self.now t page }
    {
        if page >= ALL_PAGES {
            return None;
        }
        match self.place(t, page as usize / LEAF_PAGES) {
            Some(leaf) => self.slot(leaf as usize, page as usize % LEAF_PAGES),
            None => None,
        }
    }

    /// The leaf of a page, if the page is mapped.
    pub fn leaf(&self, t: usize, page: u32) -> Option<u32>
        requires store { IsStore self.now }
        requires live { IsTrue (is_live (shown self.now) t) }
        ensures { result ≡ leaf_at (shown self.now) t page }
    {
        match self.entry(t, page) {
            Some(_entry) => self.place(t, page as usize / LEAF_PAGES),
            None => None,
        }
    }

    /// The entry of a page that is mapped.
    #[inline]
    pub fn mapped_entry(&self, t: usize, page: u32) -> Entry
        requires store { IsStore self.now }
        requires mapped { IsTrue (is_mapped (shown self.now) t page) }
        ensures { entry_at self.now t page ≡ Some result }
    {
        let Some(leaf) = self.place(t, page as usize / LEAF_PAGES) else {
            unreachable!()
        };
        self.mapped_slot(leaf as usize, page as usize % LEAF_PAGES)
    }

    /// Counts a read, and finds the frame of the page.
    #[inline]
    pub fn read(&mut self, t: usize, at: Addr) -> usize
        requires store { IsStore self.old }
        requires mapped { IsTrue (is_mapped (shown self.old) t (page_of at.0)) }
        ensures number { frame_at (shown self.old) t (page_of at.0) ≡ Some result }
        ensures store { self.new ≡ record self.old { reads = reads_after self.old.reads at.0 } }
    {
        self.count_read(t, at);
        self.mapped_entry(t, at.page().0).frame as usize
    }

    /// Counts a read of a page where its address is in the image or zygote window, the lowest ones.
    #[inline]
    fn count_read(&mut self, t: usize, at: Addr)
        requires store { IsStore self.old }
        requires mapped { IsTrue (is_mapped (shown self.old) t (page_of at.0)) }
        ensures { self.new ≡ record self.old { reads = reads_after self.old.reads at.0 } }
    {
        if at.is_below_regions() {
            self.reads = self.reads.saturating_add(1);
        }
    }
}
