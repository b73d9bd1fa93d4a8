//! The large objects of a process, and the pages that hold them.
ghost use Rattle.std.specs.Prelude.{◌≡◌, ℕ, ◌<◌, [], length, map, All, IsTrue, not, IfOk, OnOk, OnErr, Some, is_some, option_map, true};
ghost use Rattle.model_numbers.specs.Numbers.{large_slot_count};
ghost use Rattle.page_tables.specs.Address.{page_of};
ghost use Rattle.cow_pages.specs.Memory.{is_live, IsSound};
ghost use Rattle.cow_pages.specs.Only.{OnlyTable};
ghost use Rattle.cow_pages.specs.View.{view_of, OthersSeen};
ghost use Rattle.image_space.specs.Space.{pages_up_to};
ghost use Rattle.page_runs.specs.Runs.{MapsRun, SeesRun};
ghost use Rattle.large_objects.specs.Pages.{AreAlone, HasPages, LosesRows, ReleasesRows};
ghost use Rattle.large_objects.specs.Rows.{AreRows, IsBytes, Places, costs_of, dead, marked_at, promoted_row, row_at, swept};

use crate::rows::LargeRow;
use crate::table::{Table, promote, release_pages};
use cow_pages::{Addr, Frames, PageNo, TableNo};
use model_numbers::{LARGE_BASE, LARGE_SLOT_BYTES, PAGE_BYTES};
use page_runs::map_reserved;
use std::alloc::{AllocError, Global};
use std::marker::Model;

/// The large objects of a process, from address 0x80000000 on: 512 slots of 1,048,576 bytes, of which each object has one,
/// and rows by rising number. A slot that is free and the row of a slot are found by index.
#[derive(Drop)]
pub struct Larges {
    table: Table,
}

impl Model for Larges {
    ghost use Rattle.std.specs.Prelude.{List};
    ghost use Rattle.large_objects.specs.declared.rows.LargeRow.{LargeRow};

    ghost Value = { List LargeRow };

    ghost use Rattle.large_objects.specs.Table.{IsTable};

    ghost view = { λ s. s.table.rows.items };

    ghost invariant = { λ s. IsTable s.table };
}

impl Larges {
    /// No object. All slots are free.
    pub fn new(alloc: Global) -> Result<Larges, AllocError>
        ensures rows { IfOk result (λ s. s ≡ []) }
    {
        Ok(Larges {
            table: Table::new(alloc)?,
        })
    }

    /// How many regions all objects cost together: each as many as its bytes would fill, at most 4.
    pub fn cost(&self) -> u32
        ensures { result ≡ costs_of self.now }
    {
        self.table.cost
    }

    /// Places an object of `bytes` bytes in a free slot, maps the pages that hold its bytes, all zeros, and answers its
    /// address.
    ///
    /// There are fewer than 512 objects, `number` is greater than any object's, and `bytes` is from 1 to 1,048,576. Of the
    /// large window exactly the pages that hold bytes of objects are mapped in `t`, before and after. After an error
    /// nothing has changed.
    pub fn place(
        &mut self,
        frames: &mut Frames,
        t: TableNo,
        number: u32,
        bytes: u32,
    ) -> Result<Addr, AllocError>
        requires few { length self.old < large_slot_count }
        requires newer { All (λ row. row.number < number) self.old }
        requires bytes { IsBytes bytes }
        requires live { IsTrue (is_live frames.old t.0) }
        requires pages { HasPages frames.old t.0 self.old }
        ensures places { IfOk result (λ at. Places self.old self.new at.0 number bytes) }
        ensures maps { IfOk result (λ at. MapsRun frames.old frames.new t.0 (page_of at.0) (pages_up_to bytes)) }
        ensures view { IfOk result (λ at. SeesRun (view_of frames.old t.0) (view_of frames.new t.0) (page_of at.0) (pages_up_to bytes)) }
        ensures others_seen { OnOk result (OthersSeen frames.old frames.new t.0) }
        ensures only { OnlyTable frames.old frames.new t.0 }
        ensures err { OnErr result ((self.new ≡ self.old) × (frames.new ≡ frames.old)) }
        ensures pages { HasPages frames.new t.0 self.new }
        ensures rows { AreRows self.new }
        ensures sound { IsSound frames.old → IsSound frames.new }
    {
        let pages = bytes.div_ceil(PAGE_BYTES);
        self.table.rows.reserve(1)?;
        // says that the memory is sound before, so that no more is made than is lacking
        frames.reserve(pages as usize)?;
        let at = Addr(LARGE_BASE + self.table.add(number, bytes) * LARGE_SLOT_BYTES);
        map_reserved(frames, t, PageNo(at.0 / PAGE_BYTES), pages);
        Ok(at)
    }

    /// Marks the object in the slot that begins at `at`, and answers whether it was new to the marks.
    pub fn mark(&mut self, at: Addr) -> bool
        requires { IsTrue (is_some (row_at self.old at.0)) }
        ensures new { option_map (λ row. not row.marked) (row_at self.old at.0) ≡ Some result }
        ensures rows { self.new ≡ map (marked_at at.0) self.old }
    {
        let index = self.table.index(at);
        let row = &mut self.table.rows[index];
        let new = !row.marked;
        row.marked = true;
        new
    }

    /// Removes the objects that are neither promoted nor marked, unmaps their pages, each of which has its frame alone,
    /// frees these frames and the slots, clears all marks, and answers how many objects went.
    pub fn sweep(&mut self, frames: &mut Frames, t: TableNo) -> u32
        requires live { IsTrue (is_live frames.old t.0) }
        requires pages { HasPages frames.old t.0 self.old }
        requires alone { AreAlone frames.old t.0 (dead self.old) }
        ensures count { result ≡ length (dead self.old) }
        ensures rows { self.new ≡ swept self.old }
        ensures releases { ReleasesRows frames.old frames.new t.0 (dead self.old) }
        ensures view { LosesRows (view_of frames.old t.0) (view_of frames.new t.0) (dead self.old) }
        ensures others_seen { OthersSeen frames.old frames.new t.0 }
        ensures only { OnlyTable frames.old frames.new t.0 }
        ensures pages { HasPages frames.new t.0 self.new }
        ensures sound { IsSound frames.old → IsSound frames.new }
    {
        let before = self.table.rows.len();
        release_pages(&self.table.rows, frames, t);
        self.table.sweep();
        (before - self.table.rows.len()) as u32
    }

    /// Promotes all objects.
    pub fn promote_all(&mut self)
        ensures { self.new ≡ map promoted_row self.old }
    {
        promote(&mut self.table.rows);
    }

    /// Whether the object in the slot that begins at `at` is promoted.
    pub fn is_promoted(&self, at: Addr) -> bool
        requires { IsTrue (is_some (row_at self.now at.0)) }
        ensures { option_map (λ row. row.promoted) (row_at self.now at.0) ≡ Some result }
    {
        self.table.rows[self.table.index(at)].promoted
    }

    /// The objects, by rising number.
    pub fn rows(&self) -> &[LargeRow]
        ensures rows { result.now ≡ self.now }
        ensures are_rows { AreRows self.now }
    {
        self.table.rows.as_slice()
    }

    /// Equal objects.
    pub fn copied(&self) -> Result<Larges, AllocError>
        ensures { IfOk result (λ copy. copy ≡ self.now) }
    {
        Ok(Larges {
            table: self.table.copied()?,
        })
    }
}
