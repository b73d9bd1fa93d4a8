//! Tables that begin and end, and the flags of one.
ghost use Rattle.std.specs.Prelude.{◌≡◌, ◌≢◌, ℕ, ◌+◌, ◌<◌, ◌≤◌, ◌^◌, [], length, replicate, IfOk, OnOk, OnErr, Some, None, false, IsTrue, is_some, slice_set, slice_index_or, vec_len, vec_capacity};
ghost use Rattle.sharers.specs.Shares.{Shares, AreTallied, count_of};
ghost use Rattle.page_tables.specs.Address.{leaf_pages, table_leaves};
ghost use Rattle.cow_pages.specs.Memory.{is_live, page_at, leaf_in, used_leaves, IsSettled};
ghost use Rattle.cow_pages.specs.Change.{ChangesTable, FreesFrames, KeepsRoom, OtherLeaves, SameLeaves, settled};
ghost use Rattle.page_tables.specs.Grid.{held};
ghost use Rattle.cow_pages.specs.Store.{shown, leaf_key, leaf_grid, leaf_sharers, frame_sharers, mapped_counts, written_counts, place_at, table_grid, IsKept, IsStore, HasRoom};
ghost use Rattle.cow_pages.specs.declared.store.Store.{Store};
ghost use Rattle.cow_pages.specs.Steps.{AddsTable, ClearsWritten, EmptiesLeaf, Ending, SeemsSame, SettlesLeaf};

use crate::store::Store;
use page_tables::{Counts, Leaf, TABLE_LEAVES, Table};
use sharers::Sharers;
use std::alloc::AllocError;

impl Store {
    pub fn new_table(&mut self) -> Result<usize, AllocError>
        requires { IsStore self.old }
        ensures store { IsStore self.new }
        ensures fresh { IfOk result (λ u. is_live (shown self.old) u ≡ false) }
        ensures live { IfOk result (λ u. IsTrue (is_live (shown self.new) u)) }
        ensures pages { IfOk result (λ u. (p : ℕ) → page_at (shown self.new) u p ≡ None) }
        ensures rest { IfOk result (λ u. ChangesTable (shown self.old) (shown self.new) u) }
        ensures leaves { IfOk result (λ u. OtherLeaves (shown self.old) (shown self.new) u × ((i : ℕ) → leaf_in (shown self.new) u i ≡ None)) }
        ensures used { used_leaves (shown self.new) ≡ used_leaves (shown self.old) }
        ensures room { KeepsRoom (shown self.old) (shown self.new) }
        ensures err { OnErr result (shown self.new ≡ shown self.old) }
    {
        let table = Table::new(self.alloc)?;
        self.reserve_table()?;
        Ok(self.add_table(table))
    }

    pub fn fork_table(&mut self, t: usize) -> Result<usize, AllocError>
        requires store { IsStore self.old }
        requires live { IsTrue (is_live (shown self.old) t) }
        requires settled { IsSettled (shown self.old) t }
        ensures store { IsStore self.new }
        ensures fresh { IfOk result (λ u. is_live (shown self.old) u ≡ false) }
        ensures live { IfOk result (λ u. IsTrue (is_live (shown self.new) u)) }
        ensures pages { IfOk result (λ u. (p : ℕ) → page_at (shown self.new) u p ≡ page_at (shown self.old) t p) }
        ensures rest { IfOk result (λ u. ChangesTable (shown self.old) (shown self.new) u) }
        ensures leaves { IfOk result (λ u. OtherLeaves (shown self.old) (shown self.new) u × ((i : ℕ) → leaf_in (shown self.new) u i ≡ leaf_in (shown self.old) t i)) }
        ensures used { used_leaves (shown self.new) ≡ used_leaves (shown self.old) }
        ensures room { KeepsRoom (shown self.old) (shown self.new) }
        ensures err { OnErr result (shown self.new ≡ shown self.old) }
    {
        let table = self.copy_table(t)?;
        self.reserve_table()?;
        share_all(&mut self.leaf_counts, table.leaves.as_slice());
        Ok(self.add_table(table))
    }

    fn copy_table(&self, t: usize) -> Result<Table, AllocError>
        requires { IsTrue (is_some (slice_index_or self.now.tables.items t None)) }
        ensures leaves { IfOk result (λ it. it.leaves.items ≡ slice_index_or (table_grid self.now) t []) }
        ensures mapped { IfOk result (λ it. it.mapped ≡ mapped_counts (slice_index_or self.now.tables.items t None)) }
        ensures written { IfOk result (λ it. it.written ≡ written_counts (slice_index_or self.now.tables.items t None)) }
    {
        match &self.tables[t] {
            Some(table) => table.copy(),
            None => unreachable!(),
        }
    }

    /// Makes sure that a number is free for a table.
    fn reserve_table(&mut self) -> Result<(), AllocError>
        requires { IsStore self.old }
        ensures store { IsStore self.new }
        ensures room { OnOk result (0 < self.new.table_counts.spare) }
        ensures same { SeemsSame self.old self.new }
        ensures err { OnErr result (self.new.tables.items ≡ self.old.tables.items) }
    {
        if self.table_counts.spare() > 0 {
            return Ok(());
        }
        self.table_counts.make_room(1)?;
        self.tables.reserve(1)?;
        self.table_counts.add(1);
        self.tables.push_reserved(None);
        Ok(())
    }

    /// Adds a table under a number that is free.
    fn add_table(&mut self, table: Table) -> usize
        requires spare { 0 < self.old.table_counts.spare }
        requires room { HasRoom self.old }
        ensures adds { AddsTable self.old self.new result table }
        ensures rest { self.new ≡ record self.old { tables = self.new.tables; table_counts = self.new.table_counts } }
    {
        let number = self.table_counts.take();
        self.tables[number] = Some(table);
        number
    }

    /// Clears the flags of the leaves that no other table has. One that another table has has none.
    pub fn settle(&mut self, t: usize)
        requires store { IsStore self.old }
        requires live { IsTrue (is_live (shown self.old) t) }
        ensures store { IsStore self.new }
        ensures live { IsTrue (is_live (shown self.new) t) }
        ensures pages { (p : ℕ) → page_at (shown self.new) t p ≡ settled (page_at (shown self.old) t p) }
        ensures rest { ChangesTable (shown self.old) (shown self.new) t }
        ensures leaves { SameLeaves (shown self.old) (shown self.new) }
        ensures used { used_leaves (shown self.new) ≡ used_leaves (shown self.old) }
        ensures room { KeepsRoom (shown self.old) (shown self.new) }
    {
        for i in 0..TABLE_LEAVES {
            if let Some(leaf) = self.place(t, i) {
                self.settle_leaf(leaf as usize);
            }
        }
        self.clear_written(t);
    }

    /// Clears the flags of a leaf that one table has.
    #[inline]
    fn settle_leaf(&mut self, leaf: usize)
        requires within { leaf < length self.old.leaves.items }
        requires len { length (slice_index_or (leaf_grid self.old) leaf []) ≡ leaf_pages }
        requires counts { leaf < length self.old.leaf_counts.counts }
        ensures { SettlesLeaf self.old self.new leaf }
    {
        if self.leaf_counts.holders(leaf) == 1 {
            self.leaves[leaf].settle();
        }
    }

    /// Counts no page of a table as written.
    fn clear_written(&mut self, t: usize)
        requires { IsTrue (is_some (slice_index_or self.old.tables.items t None)) }
        ensures { ClearsWritten self.old self.new t }
    {
        match &mut self.tables[t] {
            Some(table) => table.written = Counts::zero(),
            None => unreachable!(),
        }
    }

    pub fn drop_table(&mut self, t: usize)
        requires store { IsStore self.old }
        requires live { IsTrue (is_live (shown self.old) t) }
        ensures store { IsStore self.new }
        ensures ended { is_live (shown self.new) t ≡ false }
        ensures rest { ChangesTable (shown self.old) (shown self.new) t }
        ensures leaves { OtherLeaves (shown self.old) (shown self.new) t × ((i : ℕ) → leaf_in (shown self.new) t i ≡ None) }
        ensures used { used_leaves (shown self.new) ≤ used_leaves (shown self.old) }
        ensures room { FreesFrames (shown self.old) (shown self.new) }
    {
        for i in 0..TABLE_LEAVES {
            if let Some(leaf) = self.place(t, i) {
                self.drop_leaf(t, i, leaf as usize);
            }
        }
        self.tables[t] = None;
        self.table_counts.unshare(t);
    }

    /// Takes a leaf from a table, and from a leaf that no other table has its frames.
    #[inline]
    fn drop_leaf(&mut self, t: usize, index: usize, leaf: usize)
        requires kept { IsKept self.old }
        requires room { HasRoom self.old }
        requires place { place_at self.old t index ≡ Some leaf }
        ensures { (first : Store) → Ending first self.old t index → Ending first self.new t (index + 1) }
    {
        self.empty_own(leaf);
        self.leaf_counts.unshare(leaf);
        self.set_place(t, index, None);
    }

    /// Takes its frames from a leaf that one table has, and its entries.
    #[inline]
    fn empty_own(&mut self, leaf: usize)
        requires kept { IsKept self.old }
        requires tallied { AreTallied self.old.frame_counts }
        requires within { leaf < length self.old.leaves.items }
        requires counts { leaf < length self.old.leaf_counts.counts }
        ensures own { leaf_sharers self.old leaf ≡ 1 → EmptiesLeaf self.old self.new leaf }
        ensures shared { leaf_sharers self.old leaf ≢ 1 → self.new ≡ self.old }
        ensures rest { self.new ≡ record self.old { leaves = self.new.leaves; frame_counts = self.new.frame_counts } }
    {
        if self.leaf_counts.holders(leaf) == 1 {
            self.unshare_row(leaf);
            self.leaves[leaf] = Leaf::empty();
        }
    }
}

/// Gives each of these leaves one sharer more for each place that it has among them.
fn share_all(counts: &mut Sharers, leaves: &[Option<u32>])
    requires held { (i l : ℕ) → slice_index_or leaves.now i None ≡ Some l → (l < length counts.old.counts) × (0 < count_of counts.old l) }
    requires fits { (l : ℕ) → count_of counts.old l + length leaves.now < 2 ^ 64 }
    requires tallied { AreTallied counts.old }
    ensures sharers { (l : ℕ) → count_of counts.new l ≡ count_of counts.old l + held leaf_key leaves.now l }
    ensures spare { counts.new.spare ≡ counts.old.spare }
    ensures len { length counts.new.counts ≡ length counts.old.counts }
    ensures tallied { AreTallied counts.new }
{
    for leaf in leaves {
        if let Some(leaf) = leaf {
            counts.share(*leaf as usize);
        }
    }
}
