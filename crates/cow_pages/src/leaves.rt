//! The leaves of tables: shared from a fork to a write.
ghost use Rattle.std.specs.Prelude.{◌≡◌, ◌≢◌, ℕ, ◌+◌, ◌-◌, ◌<◌, ◌≤◌, ◌^◌, [], length, Some, None, IsTrue, is_some, slice_set, slice_index_or};
ghost use Rattle.sharers.specs.Shares.{AreTallied};
ghost use Rattle.page_tables.specs.Address.{leaf_pages, table_leaves};
ghost use Rattle.cow_pages.specs.Change.{OwnsLeaf};
ghost use Rattle.page_tables.specs.Grid.{held};
ghost use Rattle.page_tables.specs.Leaf.{Fits};
ghost use Rattle.cow_pages.specs.Store.{shown, frame_key, frame_sharers, leaf_sharers, leaf_grid, table_grid, place_at, pages_kept, CountsSlots, IsStore, IsReady};
ghost use Rattle.cow_pages.specs.Steps.{KeepsCounts, KeepsRoomOf, SetsFrameCounts, TakesLeaf, CopiesLeaf, Ready};

use crate::store::Store;
use page_tables::{Entry, LEAF_PAGES};

impl Store {
    /// Puts a leaf at an index of a table, or none.
    pub fn set_place(&mut self, t: usize, index: usize, leaf: Option<u32>)
        requires live { IsTrue (is_some (slice_index_or self.old.tables.items t None)) }
        requires within { index < length (slice_index_or (table_grid self.old) t []) }
        ensures grid { table_grid self.new ≡ slice_set (table_grid self.old) t (slice_set (slice_index_or (table_grid self.old) t []) index leaf) }
        ensures counts { KeepsCounts self.old self.new }
        ensures rest { self.new ≡ record self.old { tables = self.new.tables } }
    {
        match &mut self.tables[t] {
            Some(table) => table.leaves[index] = leaf,
            None => unreachable!(),
        }
    }

    /// Puts an entry into a slot of a leaf, or none.
    #[inline]
    pub fn set_slot(&mut self, leaf: usize, slot: usize, entry: Option<Entry>)
        requires within { leaf < length self.old.leaves.items }
        requires slot { slot < leaf_pages }
        requires fits { Fits entry }
        requires len { length (slice_index_or (leaf_grid self.old) leaf []) ≡ leaf_pages }
        requires slots { CountsSlots self.old }
        ensures grid { leaf_grid self.new ≡ slice_set (leaf_grid self.old) leaf (slice_set (slice_index_or (leaf_grid self.old) leaf []) slot entry) }
        ensures slots { CountsSlots self.new }
        ensures pages { (l : ℕ) → l ≢ leaf → pages_kept self.new l ≡ pages_kept self.old l }
        ensures rest { self.new ≡ record self.old { leaves = self.new.leaves } }
    {
        self.leaves[leaf].set(slot, entry);
    }

    /// Gives the frames of a leaf's entries one sharer more for each of them.
    fn share_row(&mut self, leaf: usize)
        requires within { leaf < length self.old.leaves.items }
        requires len { length (slice_index_or (leaf_grid self.old) leaf []) ≡ leaf_pages }
        requires frames { (a : ℕ) (e : Entry) → slice_index_or (slice_index_or (leaf_grid self.old) leaf []) a None ≡ Some e → (e.frame < length self.old.frame_counts.counts) × (0 < frame_sharers self.old e.frame) }
        requires fits { (f : ℕ) → frame_sharers self.old f + leaf_pages < 2 ^ 64 }
        requires tallied { AreTallied self.old.frame_counts }
        ensures sharers { (f : ℕ) → frame_sharers self.new f ≡ frame_sharers self.old f + held frame_key (slice_index_or (leaf_grid self.old) leaf []) f }
        ensures spare { self.new.frame_counts.spare ≡ self.old.frame_counts.spare }
        ensures counts { SetsFrameCounts self.old self.new }
        ensures rest { self.new ≡ record self.old { frame_counts = self.new.frame_counts } }
    {
        for i in 0..LEAF_PAGES {
            if let Some(entry) = self.leaves[leaf].entry(i) {
                self.frame_counts.share(entry.frame as usize);
            }
        }
    }

    /// Takes the frames of a leaf's entries from them.
    pub fn unshare_row(&mut self, leaf: usize)
        requires within { leaf < length self.old.leaves.items }
        requires len { length (slice_index_or (leaf_grid self.old) leaf []) ≡ leaf_pages }
        requires frames { (a : ℕ) (e : Entry) → slice_index_or (slice_index_or (leaf_grid self.old) leaf []) a None ≡ Some e → e.frame < length self.old.frame_counts.counts }
        requires held { (f : ℕ) → held frame_key (slice_index_or (leaf_grid self.old) leaf []) f ≤ frame_sharers self.old f }
        requires tallied { AreTallied self.old.frame_counts }
        ensures sharers { (f : ℕ) → frame_sharers self.new f + held frame_key (slice_index_or (leaf_grid self.old) leaf []) f ≡ frame_sharers self.old f }
        ensures spare { self.old.frame_counts.spare ≤ self.new.frame_counts.spare }
        ensures counts { SetsFrameCounts self.old self.new }
        ensures rest { self.new ≡ record self.old { frame_counts = self.new.frame_counts } }
    {
        for i in 0..LEAF_PAGES {
            if let Some(entry) = self.leaves[leaf].entry(i) {
                self.frame_counts.unshare(entry.frame as usize);
            }
        }
    }

    /// Gives a table a leaf of its own at an index, with the entries that it has there.
    #[inline]
    pub fn own_leaf(&mut self, t: usize, index: usize) -> usize
        requires store { IsStore self.old }
        requires live { IsTrue (is_some (slice_index_or self.old.tables.items t None)) }
        requires within { index < table_leaves }
        requires spare { 0 < self.old.leaf_counts.spare }
        ensures ready { IsReady self.new t index result }
        ensures same { Ready self.old self.new t index result }
        ensures leaf { OwnsLeaf (shown self.old) (shown self.new) t index }
        ensures room { KeepsRoomOf self.old self.new }
    {
        match self.place(t, index) {
            Some(leaf) => self.own_standing(t, index, leaf as usize),
            None => self.take_leaf(t, index),
        }
    }

    /// Gives a table a leaf of its own in place of one that it may share.
    #[inline]
    fn own_standing(&mut self, t: usize, index: usize, leaf: usize) -> usize
        requires store { IsStore self.old }
        requires place { place_at self.old t index ≡ Some leaf }
        requires spare { 0 < self.old.leaf_counts.spare }
        ensures ready { IsReady self.new t index result }
        ensures same { Ready self.old self.new t index result }
        ensures leaf { OwnsLeaf (shown self.old) (shown self.new) t index }
        ensures room { KeepsRoomOf self.old self.new }
    {
        if self.leaf_counts.holders(leaf) == 1 {
            return leaf;
        }
        self.copy_leaf(t, index, leaf)
    }

    /// Gives a table a free leaf at an index where it has none.
    #[inline(never)]
    fn take_leaf(&mut self, t: usize, index: usize) -> usize
        requires store { IsStore self.old }
        requires live { IsTrue (is_some (slice_index_or self.old.tables.items t None)) }
        requires within { index < table_leaves }
        requires absent { place_at self.old t index ≡ None }
        requires spare { 0 < self.old.leaf_counts.spare }
        ensures ready { IsReady self.new t index result }
        ensures same { Ready self.old self.new t index result }
        ensures leaf { OwnsLeaf (shown self.old) (shown self.new) t index }
        ensures room { KeepsRoomOf self.old self.new }
    {
        let leaf = self.leaf_counts.take();
        self.set_place(t, index, Some(leaf as u32));
        leaf
    }

    /// Gives a table a free leaf in place of one that it shares, with the same entries.
    #[inline(never)]
    fn copy_leaf(&mut self, t: usize, index: usize, from: usize) -> usize
        requires store { IsStore self.old }
        requires place { place_at self.old t index ≡ Some from }
        requires shared { leaf_sharers self.old from ≢ 1 }
        requires spare { 0 < self.old.leaf_counts.spare }
        ensures ready { IsReady self.new t index result }
        ensures same { Ready self.old self.new t index result }
        ensures leaf { OwnsLeaf (shown self.old) (shown self.new) t index }
        ensures room { KeepsRoomOf self.old self.new }
    {
        self.share_row(from);
        let to = self.leaf_counts.take();
        self.copy_entries(from, to);
        self.leaf_counts.unshare(from);
        self.set_place(t, index, Some(to as u32));
        to
    }

    /// Gives a leaf the entries of another.
    fn copy_entries(&mut self, from: usize, to: usize)
        requires from_within { from < length self.old.leaves.items }
        requires to_within { to < length self.old.leaves.items }
        ensures grid { leaf_grid self.new ≡ slice_set (leaf_grid self.old) to (slice_index_or (leaf_grid self.old) from []) }
        ensures slots { CountsSlots self.old → CountsSlots self.new }
        ensures pages { (l : ℕ) → l ≢ to → pages_kept self.new l ≡ pages_kept self.old l }
        ensures rest { self.new ≡ record self.old { leaves = self.new.leaves } }
    {
        let copy = self.leaves[from].copied();
        self.leaves[to] = copy;
    }
}
