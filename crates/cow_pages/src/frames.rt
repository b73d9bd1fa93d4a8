//! All frames and all page tables, behind their public calls.
ghost use Rattle.std.specs.Prelude.{◌≡◌, ℕ, ◌≢◌, ◌⊎◌, ◌+◌, ◌≤◌, ◌%◌, max, [], ◌∷◌, true, false, IsTrue, IsOk, IfOk, OnOk, OnErr, Some, None, option_map};
ghost use Rattle.std.specs.Int.{w16, w32, w64};
ghost use Rattle.cow_pages.specs.Access.{ReadsNumber, WritesNumber};
ghost use Rattle.model_numbers.specs.Numbers.{page_bytes};
ghost use Rattle.page_tables.specs.Address.{page_of, offset_of, is_immune, is_in_window, leaf_index};
ghost use Rattle.cow_pages.specs.Memory.{is_live, page_at, frame_at, leaf_in, leaf_at, used_leaves, is_mapped, is_written, mapped_in, written_in, used_frames, IsSettled, HasOneSharer, IsShared, IsFree, IsSound};
ghost use Rattle.cow_pages.specs.View.{view_of, byte_at, bytes_at, u16_at, u32_at, u64_at, WritesBytes, SameView, OthersSeen, AllSeen, IsEmptyView, MapsPage, UnmapsPage};
ghost use Rattle.cow_pages.specs.Change.{ChangesPage, ChangesTable, KeepsRoom, LeavesLeaf, OtherLeaves, OwnsLeaf, SameLeaves, TakesFrame, TakesOnCopy, TakesOne, FreesFrames, WritesPage, reads_after, MapsZeros, settled};

use crate::store::Store;
use page_tables::{Addr, FrameNo, LeafNo, PageNo, TableNo, Window, u16_in, u32_in, u64_in};
use std::alloc::{AllocError, Global};
use std::marker::Model;

/// All frames and all page tables.
///
/// A table has, for each of its mapped pages, 4,096 bytes, a flag that tells whether the page was written since the
/// table was last settled, and the frame in which the bytes stand. Entries of several tables may share a frame, and
/// tables may share leaves, each the entries of 1,024 pages. A table takes its memory when it is made, a frame when it
/// is reserved, mapped or copied, and a leaf when it is reserved, or a page of it mapped or written.
#[derive(Drop)]
pub struct Frames {
    store: Store,
}

impl Model for Frames {
    ghost use Rattle.cow_pages.specs.Memory.{Memory};

    ghost Value = { Memory };

    ghost use Rattle.cow_pages.specs.Store.{shown, IsStore};

    ghost view = { λ f. shown f.store };

    ghost invariant = { λ f. IsStore f.store };
}

impl Frames {
    /// No table and no frame. Takes no memory.
    pub fn new(alloc: Global) -> Frames
        ensures tables { (t : ℕ) → is_live result t ≡ false }
        ensures frames { (result.frames ≡ 0) × (result.leaf_count ≡ 0) }
        ensures reads { result.reads ≡ 0 }
        ensures sound { IsSound result }
    {
        Frames {
            store: Store::new(alloc),
        }
    }

    /// Adds a table without pages.
    pub fn new_table(&mut self) -> Result<TableNo, AllocError>
        ensures fresh { IfOk result (λ u. is_live self.old u.0 ≡ false) }
        ensures live { IfOk result (λ u. IsTrue (is_live self.new u.0)) }
        ensures pages { IfOk result (λ u. (p : ℕ) → page_at self.new u.0 p ≡ None) }
        ensures rest { IfOk result (λ u. ChangesTable self.old self.new u.0) }
        ensures leaves { IfOk result (λ u. OtherLeaves self.old self.new u.0 × ((i : ℕ) → leaf_in self.new u.0 i ≡ None)) }
        ensures used { used_leaves self.new ≡ used_leaves self.old }
        ensures view { IfOk result (λ u. IsEmptyView (view_of self.new u.0)) }
        ensures others_seen { IfOk result (λ u. OthersSeen self.old self.new u.0) }
        ensures room { KeepsRoom self.old self.new }
        ensures err { OnErr result (self.new ≡ self.old) }
        ensures sound { IsSound self.new }
    {
        Ok(TableNo(self.store.new_table()?))
    }

    /// Makes at least `k` frames and `k` leaves free, as far as there are fewer.
    pub fn reserve(&mut self, k: usize) -> Result<(), AllocError>
        ensures room { OnOk result (k ≤ self.new.spare) }
        ensures no_more { OnOk result (self.new.spare ≡ max self.old.spare k) }
        ensures frames { OnOk result (self.new.frames ≡ max self.old.frames (used_frames self.old + k)) }
        ensures leaves { OnOk result (self.new.leaf_count ≡ max self.old.leaf_count (used_leaves self.old + k)) }
        ensures rest { self.new ≡ record self.old { frames = self.new.frames; leaf_count = self.new.leaf_count; spare = self.new.spare } }
        ensures all_seen { AllSeen self.old self.new }
        ensures enough { k ≤ self.old.spare → IsOk result × (self.new ≡ self.old) }
        ensures was_sound { IsSound self.old }
        ensures err { OnErr result (self.new ≡ self.old) }
        ensures sound { IsSound self.new }
    {
        self.store.reserve(k)
    }

    /// How many frames and leaves are free: the lesser of both.
    pub fn spare(&self) -> usize
        ensures value { result ≡ self.now.spare }
        ensures sound { IsSound self.now }
    {
        self.store.spare()
    }

    /// How many frames are not free: those that some entry has.
    pub fn used(&self) -> usize
        ensures value { result ≡ used_frames self.now }
        ensures sound { IsSound self.now }
    {
        self.store.frames.len() - self.store.frame_counts.spare()
    }

    /// How many leaves are not free: those that some table has.
    pub fn leaves_used(&self) -> usize
        ensures value { result ≡ used_leaves self.now }
        ensures sound { IsSound self.now }
    {
        self.store.leaves.len() - self.store.leaf_counts.spare()
    }

    /// How many reads there were in the image and zygote windows. It stays at `u64::MAX` once it is there.
    pub fn immune_reads(&self) -> u64
        ensures { result ≡ self.now.reads }
    {
        self.store.reads
    }

    /// Maps a page of zeros that is not written, in a frame that no entry had.
    pub fn map_zero(&mut self, t: TableNo, page: PageNo) -> Result<(), AllocError>
        requires live { IsTrue (is_live self.old t.0) }
        requires window { IsTrue (is_in_window page.0) }
        requires unmapped { page_at self.old t.0 page.0 ≡ None }
        ensures zeros { OnOk result (MapsZeros self.old self.new t.0 page.0) }
        ensures alone { OnOk result (HasOneSharer self.new t.0 page.0) }
        ensures rest { OnOk result (ChangesPage self.old self.new t.0 page.0) }
        ensures view { OnOk result (MapsPage (view_of self.old t.0) (view_of self.new t.0) page.0) }
        ensures others_seen { OnOk result (OthersSeen self.old self.new t.0) }
        ensures takes { OnOk result (TakesFrame self.old self.new) }
        ensures one { OnOk result (TakesOne self.old self.new) }
        ensures leaf { OnOk result (OwnsLeaf self.old self.new t.0 (leaf_index page.0)) }
        ensures succeeds { self.old.spare ≢ 0 → IsOk result }
        ensures err { OnErr result (self.new ≡ self.old) }
        ensures sound { IsSound self.new }
    {
        self.store.map_zero(t.0, page.0)
    }

    /// The byte at an address. Counts the read where the address lies in the image or zygote window.
    #[inline]
    pub fn read_u8(&mut self, t: TableNo, at: Addr) -> u8
        requires { IsTrue (is_mapped self.old t.0 (page_of at.0)) }
        ensures value { result ≡ byte_at self.old t.0 at.0 }
        ensures counts { self.new ≡ record self.old { reads = reads_after self.old.reads at.0 } }
        ensures sound { IsSound self.new }
    {
        let number = self.store.read(t.0, at);
        self.store.frames[number].bytes[at.offset()]
    }

    /// The number of two bytes at an address, the lowest byte first. Counts the read where the address lies in the image or zygote window.
    #[inline]
    pub fn read_u16(&mut self, t: TableNo, at: Addr) -> u16
        requires aligned { at.0 % 2 ≡ 0 }
        requires mapped { IsTrue (is_mapped self.old t.0 (page_of at.0)) }
        ensures { ReadsNumber u16_at w16 2 self.old self.new t.0 at.0 result }
    {
        let number = self.store.read(t.0, at);
        u16_in(&self.store.frames[number].bytes, at.offset())
    }

    /// The number of four bytes at an address, the lowest byte first. Counts the read where the address lies in the image or zygote window.
    #[inline]
    pub fn read_u32(&mut self, t: TableNo, at: Addr) -> u32
        requires aligned { at.0 % 4 ≡ 0 }
        requires mapped { IsTrue (is_mapped self.old t.0 (page_of at.0)) }
        ensures { ReadsNumber u32_at w32 4 self.old self.new t.0 at.0 result }
    {
        let number = self.store.read(t.0, at);
        u32_in(&self.store.frames[number].bytes, at.offset())
    }

    /// The number of eight bytes at an address, the lowest byte first. Counts the read where the address lies in the image or zygote window.
    #[inline]
    pub fn read_u64(&mut self, t: TableNo, at: Addr) -> u64
        requires aligned { at.0 % 8 ≡ 0 }
        requires mapped { IsTrue (is_mapped self.old t.0 (page_of at.0)) }
        ensures { ReadsNumber u64_at w64 8 self.old self.new t.0 at.0 result }
    {
        let number = self.store.read(t.0, at);
        u64_in(&self.store.frames[number].bytes, at.offset())
    }

    /// Writes the byte at an address, and sets the page's written flag.
    #[inline]
    pub fn write_u8(&mut self, t: TableNo, at: Addr, v: u8) -> Result<(), AllocError>
        requires { IsTrue (is_mapped self.old t.0 (page_of at.0)) }
        ensures page { OnOk result (WritesPage self.old self.new t.0 at.0 (v ∷ [])) }
        ensures view { OnOk result (WritesBytes (view_of self.old t.0) (view_of self.new t.0) at.0 (v ∷ [])) }
        ensures others_seen { OnOk result (OthersSeen self.old self.new t.0) }
        ensures reads_back { OnOk result (byte_at self.new t.0 at.0 ≡ v) }
        ensures takes { OnOk result (TakesOnCopy self.old self.new t.0 (page_of at.0)) }
        ensures leaf { OnOk result (OwnsLeaf self.old self.new t.0 (leaf_index (page_of at.0))) }
        ensures succeeds { HasOneSharer self.old t.0 (page_of at.0) ⊎ (self.old.spare ≢ 0) → IsOk result }
        ensures only { OnErr result (IsShared self.old t.0 (page_of at.0) × (self.old.spare ≡ 0)) }
        ensures err { OnErr result (self.new ≡ self.old) }
        ensures sound { IsSound self.new }
    {
        self.store.write(t.0, at, &[v])
    }

    /// Writes a number of two bytes at an address, the lowest byte first, and sets the page's written flag.
    #[inline]
    pub fn write_u16(&mut self, t: TableNo, at: Addr, v: u16) -> Result<(), AllocError>
        requires aligned { at.0 % 2 ≡ 0 }
        requires mapped { IsTrue (is_mapped self.old t.0 (page_of at.0)) }
        ensures { WritesNumber u16_at w16 result self.old self.new t.0 at.0 v }
    {
        self.store.write(t.0, at, &v.to_le_bytes())
    }

    /// Writes a number of four bytes at an address, the lowest byte first, and sets the page's written flag.
    #[inline]
    pub fn write_u32(&mut self, t: TableNo, at: Addr, v: u32) -> Result<(), AllocError>
        requires aligned { at.0 % 4 ≡ 0 }
        requires mapped { IsTrue (is_mapped self.old t.0 (page_of at.0)) }
        ensures { WritesNumber u32_at w32 result self.old self.new t.0 at.0 v }
    {
        self.store.write(t.0, at, &v.to_le_bytes())
    }

    /// Writes a number of eight bytes at an address, the lowest byte first, and sets the page's written flag.
    #[inline]
    pub fn write_u64(&mut self, t: TableNo, at: Addr, v: u64) -> Result<(), AllocError>
        requires aligned { at.0 % 8 ≡ 0 }
        requires mapped { IsTrue (is_mapped self.old t.0 (page_of at.0)) }
        ensures { WritesNumber u64_at w64 result self.old self.new t.0 at.0 v }
    {
        self.store.write(t.0, at, &v.to_le_bytes())
    }

    /// Copies `count` bytes of one page of `t` into another page of it, and sets the written flag of the page written to.
    ///
    /// Each range of addresses lies in one page. No read is counted, so `from` lies in neither the image nor the zygote
    /// window.
    pub fn copy_slice(
        &mut self,
        t: TableNo,
        from: Addr,
        to: Addr,
        count: usize,
    ) -> Result<(), AllocError>
        requires from_mapped { IsTrue (is_mapped self.old t.0 (page_of from.0)) }
        requires to_mapped { IsTrue (is_mapped self.old t.0 (page_of to.0)) }
        requires apart { page_of from.0 ≢ page_of to.0 }
        requires from_room { offset_of from.0 + count ≤ page_bytes }
        requires to_room { offset_of to.0 + count ≤ page_bytes }
        requires uncounted { is_immune from.0 ≡ false }
        ensures page { OnOk result (WritesPage self.old self.new t.0 to.0 (bytes_at (view_of self.old t.0) from.0 count)) }
        ensures view { OnOk result (WritesBytes (view_of self.old t.0) (view_of self.new t.0) to.0 (bytes_at (view_of self.old t.0) from.0 count)) }
        ensures others_seen { OnOk result (OthersSeen self.old self.new t.0) }
        ensures takes { OnOk result (TakesOnCopy self.old self.new t.0 (page_of to.0)) }
        ensures leaf { OnOk result (OwnsLeaf self.old self.new t.0 (leaf_index (page_of to.0))) }
        ensures reads { OnOk result (self.new.reads ≡ self.old.reads) }
        ensures succeeds { HasOneSharer self.old t.0 (page_of to.0) ⊎ (self.old.spare ≢ 0) → IsOk result }
        ensures only { OnErr result (IsShared self.old t.0 (page_of to.0) × (self.old.spare ≡ 0)) }
        ensures err { OnErr result (self.new ≡ self.old) }
        ensures sound { IsSound self.new }
    {
        self.store.copy_slice(t.0, from, to, count)
    }

    /// Adds a table that has each page of `t`, in the same leaf and frame. Uses no leaf and no frame.
    pub fn fork_table(&mut self, t: TableNo) -> Result<TableNo, AllocError>
        requires live { IsTrue (is_live self.old t.0) }
        requires settled { IsSettled self.old t.0 }
        ensures fresh { IfOk result (λ u. is_live self.old u.0 ≡ false) }
        ensures live { IfOk result (λ u. IsTrue (is_live self.new u.0)) }
        ensures pages { IfOk result (λ u. (p : ℕ) → page_at self.new u.0 p ≡ page_at self.old t.0 p) }
        ensures settled { IfOk result (λ u. IsSettled self.new u.0) }
        ensures rest { IfOk result (λ u. ChangesTable self.old self.new u.0) }
        ensures leaves { IfOk result (λ u. OtherLeaves self.old self.new u.0 × ((i : ℕ) → leaf_in self.new u.0 i ≡ leaf_in self.old t.0 i)) }
        ensures used { used_leaves self.new ≡ used_leaves self.old }
        ensures view { IfOk result (λ u. SameView (view_of self.old t.0) (view_of self.new u.0)) }
        ensures others_seen { IfOk result (λ u. OthersSeen self.old self.new u.0) }
        ensures room { KeepsRoom self.old self.new }
        ensures err { OnErr result (self.new ≡ self.old) }
        ensures sound { IsSound self.new }
    {
        Ok(TableNo(self.store.fork_table(t.0)?))
    }

    /// Clears the written flag of each page of `t`.
    pub fn settle(&mut self, t: TableNo)
        requires { IsTrue (is_live self.old t.0) }
        ensures live { IsTrue (is_live self.new t.0) }
        ensures pages { (p : ℕ) → page_at self.new t.0 p ≡ settled (page_at self.old t.0 p) }
        ensures rest { ChangesTable self.old self.new t.0 }
        ensures leaves { SameLeaves self.old self.new }
        ensures used { used_leaves self.new ≡ used_leaves self.old }
        ensures all_seen { AllSeen self.old self.new }
        ensures room { KeepsRoom self.old self.new }
        ensures sound { IsSound self.new }
    {
        self.store.settle(t.0);
    }

    /// Unmaps a page whose frame no other entry has, and frees the frame, and its leaf where no page is left in it.
    pub fn release(&mut self, t: TableNo, page: PageNo)
        requires mapped { IsTrue (is_mapped self.old t.0 page.0) }
        requires alone { HasOneSharer self.old t.0 page.0 }
        ensures unmapped { page_at self.new t.0 page.0 ≡ None }
        ensures rest { ChangesPage self.old self.new t.0 page.0 }
        ensures view { UnmapsPage (view_of self.old t.0) (view_of self.new t.0) page.0 }
        ensures others_seen { OthersSeen self.old self.new t.0 }
        ensures room { FreesFrames self.old self.new }
        ensures freed { used_frames self.new + 1 ≡ used_frames self.old }
        ensures leaf { LeavesLeaf self.old self.new t.0 (leaf_index page.0) }
        ensures sound { IsSound self.new }
    {
        self.store.release(t.0, page.0);
    }

    /// Unmaps all pages of `t`, and ends it.
    pub fn drop_table(&mut self, t: TableNo)
        requires { IsTrue (is_live self.old t.0) }
        ensures ended { is_live self.new t.0 ≡ false }
        ensures unmapped { (p : ℕ) → page_at self.new t.0 p ≡ None }
        ensures rest { ChangesTable self.old self.new t.0 }
        ensures freed { (p f : ℕ) → HasOneSharer self.old t.0 p → frame_at self.old t.0 p ≡ Some f → IsFree self.new f }
        ensures leaves { OtherLeaves self.old self.new t.0 × ((i : ℕ) → leaf_in self.new t.0 i ≡ None) }
        ensures used { used_leaves self.new ≤ used_leaves self.old }
        ensures view { IsEmptyView (view_of self.new t.0) }
        ensures others_seen { OthersSeen self.old self.new t.0 }
        ensures room { FreesFrames self.old self.new }
        ensures sound { IsSound self.new }
    {
        self.store.drop_table(t.0);
    }

    /// The frame of a page, if the page is mapped.
    pub fn frame_of(&self, t: TableNo, page: PageNo) -> Option<FrameNo>
        requires { IsTrue (is_live self.now t.0) }
        ensures value { option_map (λ (it : FrameNo). it.0) result ≡ frame_at self.now t.0 page.0 }
        ensures sound { IsSound self.now }
    {
        match self.store.entry(t.0, page.0) {
            Some(entry) => Some(FrameNo(entry.frame as usize)),
            None => None,
        }
    }

    /// The leaf of a page, if the page is mapped.
    pub fn leaf_of(&self, t: TableNo, page: PageNo) -> Option<LeafNo>
        requires { IsTrue (is_live self.now t.0) }
        ensures value { option_map (λ (it : LeafNo). it.0) result ≡ leaf_at self.now t.0 page.0 }
        ensures sound { IsSound self.now }
    {
        match self.store.leaf(t.0, page.0) {
            Some(leaf) => Some(LeafNo(leaf as usize)),
            None => None,
        }
    }

    /// Whether a page is mapped and its written flag is set.
    pub fn written(&self, t: TableNo, page: PageNo) -> bool
        requires { IsTrue (is_live self.now t.0) }
        ensures { result ≡ is_written self.now t.0 page.0 }
    {
        match self.store.entry(t.0, page.0) {
            Some(entry) => entry.written,
            None => false,
        }
    }

    /// How many pages of a window are mapped.
    pub fn count_mapped(&self, t: TableNo, w: Window) -> u32
        requires { IsTrue (is_live self.now t.0) }
        ensures { result ≡ mapped_in self.now t.0 w }
    {
        match &self.store.tables[t.0] {
            Some(table) => table.mapped.get(w),
            None => unreachable!(),
        }
    }

    /// How many pages of a window have their written flag set.
    pub fn count_written(&self, t: TableNo, w: Window) -> u32
        requires { IsTrue (is_live self.now t.0) }
        ensures { result ≡ written_in self.now t.0 w }
    {
        match &self.store.tables[t.0] {
            Some(table) => table.written.get(w),
            None => unreachable!(),
        }
    }
}
