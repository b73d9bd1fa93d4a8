//! The rows of large objects, and how a free slot and the row of a slot are found.
ghost use Rattle.std.specs.Prelude.{◌≡◌, ℕ, ◌+◌, ◌<◌, ◌^◌, ◌++◌, ◌∷◌, [], false, length, map, All, IsTrue, IfOk, is_some, slice_get, vec_len, vec_capacity};
ghost use Rattle.std.specs.List.{list_any};
ghost use Rattle.model_numbers.specs.Numbers.{large_slot_count};
ghost use Rattle.cow_pages.specs.Memory.{is_mapped, IsSound};
ghost use Rattle.large_objects.specs.Pages.{AreAlone, AreMapped, ReleasesRows};
ghost use Rattle.large_objects.specs.Rows.{AreRows, IsBytes, cleared, dead, has_slot, promoted_row, row_at, stays, swept};
ghost use Rattle.large_objects.specs.Table.{AreFound, IsTable, TakesSlots, slot_of};
ghost use Rattle.std.specs.List.{filter};

use crate::rows::LargeRow;
use cow_pages::{Addr, Frames, PageNo, TableNo};
use model_numbers::{LARGE_BASE, LARGE_SLOT_BYTES, LARGE_SLOT_COUNT, PAGE_BYTES};
use page_runs::release_run;
use sharers::Sharers;
use std::alloc::{AllocError, Global};

#[derive(Drop)]
pub struct Table {
    pub rows: Vec<LargeRow>,
    /// Which slots are free: those that no row has.
    pub slots: Sharers,
    /// By slot, which row has it, if one has.
    pub row_of: Vec<u32>,
    /// How many regions all rows cost.
    pub cost: u32,
}

impl Table {
    pub fn new(alloc: Global) -> Result<Table, AllocError>
        ensures rows { IfOk result (λ s. s.rows.items ≡ []) }
        ensures table { IfOk result (λ s. IsTable s) }
    {
        let mut slots = Sharers::new(alloc);
        slots.make_room(LARGE_SLOT_COUNT as usize)?;
        slots.add(LARGE_SLOT_COUNT as usize);
        let mut row_of = Vec::new(alloc);
        row_of.resize(LARGE_SLOT_COUNT as usize, 0)?;
        Ok(Table {
            rows: Vec::new(alloc),
            slots,
            row_of,
            cost: 0,
        })
    }

    /// An equal table.
    pub fn copied(&self) -> Result<Table, AllocError>
        requires { IsTable self.now }
        ensures rows { IfOk result (λ copy. copy.rows.items ≡ self.now.rows.items) }
        ensures table { IfOk result (λ copy. IsTable copy) }
    {
        let alloc = *self.rows.allocator();
        let mut rows = Vec::new(alloc);
        rows.extend_from_slice(&self.rows)?;
        let mut row_of = Vec::new(alloc);
        row_of.extend_from_slice(&self.row_of)?;
        let slots = self.slots.copied()?;
        Ok(Table {
            rows,
            slots,
            row_of,
            cost: self.cost,
        })
    }

    /// Which row has the slot that begins at an address.
    pub fn index(&self, at: Addr) -> usize
        requires table { IsTable self.now }
        requires there { IsTrue (is_some (row_at self.now.rows.items at.0)) }
        ensures within { result < vec_len self.now.rows }
        ensures row { slice_get self.now.rows.items result ≡ row_at self.now.rows.items at.0 }
    {
        self.row_of[((at.0 - LARGE_BASE) / LARGE_SLOT_BYTES) as usize] as usize
    }

    /// Adds a row, for which there is memory, in a free slot, and answers the slot.
    pub fn add(&mut self, number: u32, bytes: u32) -> u32
        requires table { IsTable self.old }
        requires few { length self.old.rows.items < large_slot_count }
        requires newer { All (λ row. row.number < number) self.old.rows.items }
        requires bytes { IsBytes bytes }
        requires room { vec_len self.old.rows < vec_capacity self.old.rows }
        ensures within { result < large_slot_count }
        ensures fresh { list_any (has_slot result) self.old.rows.items ≡ false }
        ensures rows { self.new.rows.items ≡ self.old.rows.items ++ record { number = number; slot = result; bytes = bytes; promoted = false; marked = false } ∷ [] }
        ensures table { IsTable self.new }
    {
        let slot = self.slots.take();
        let row = LargeRow {
            number,
            slot: slot as u32,
            bytes,
            promoted: false,
            marked: false,
        };
        self.row_of[slot] = self.rows.len() as u32;
        self.cost += row.cost();
        self.rows.push_reserved(row);
        slot as u32
    }

    /// Frees the slots of the rows that a sweep removes, and takes off what they cost.
    pub fn free_slots(&mut self)
        requires { IsTable self.old }
        ensures rows { self.new.rows.items ≡ self.old.rows.items }
        ensures slots { TakesSlots self.new.slots self.new.cost (filter stays self.old.rows.items) }
        ensures index { self.new.row_of.items ≡ self.old.row_of.items }
    {
        for i in 0..self.rows.len() {
            let row = self.rows[i];
            if !row.stays() {
                self.slots.unshare(row.slot as usize);
                self.cost -= row.cost();
            }
        }
    }

    /// Keeps the rows that a sweep keeps, without their marks.
    pub fn sweep(&mut self)
        requires { IsTable self.old }
        ensures rows { self.new.rows.items ≡ swept self.old.rows.items }
        ensures table { IsTable self.new }
    {
        self.free_slots();
        keep_staying(&mut self.rows);
        clear_marks(&mut self.rows);
        index_rows(&self.rows, &mut self.row_of);
    }
}

/// Keeps the rows that a sweep keeps.
fn keep_staying(rows: &mut Vec<LargeRow>)
    ensures { rows.new.items ≡ filter stays rows.old.items }
{
    rows.retain(|row| row.stays());
}

/// Promotes the rows.
pub fn promote(rows: &mut [LargeRow])
    ensures { rows.new ≡ map promoted_row rows.old }
{
    for row in rows.iter_mut() {
        row.promoted = true;
    }
}

/// Clears the marks.
fn clear_marks(rows: &mut [LargeRow])
    ensures { rows.new ≡ map cleared rows.old }
{
    for row in rows.iter_mut() {
        row.marked = false;
    }
}

/// Says of the slot of each row which row has it.
fn index_rows(rows: &[LargeRow], row_of: &mut [u32])
    requires rows { AreRows rows.now }
    requires slots { length row_of.old ≡ large_slot_count }
    requires few { length rows.now < 2 ^ 32 }
    ensures found { AreFound row_of.new rows.now }
    ensures len { length row_of.new ≡ large_slot_count }
{
    for i in 0..rows.len() {
        row_of[rows[i].slot as usize] = i as u32;
    }
}

/// Unmaps the pages of the rows that a sweep removes, each of which has its frame alone, and frees these frames.
pub fn release_pages(rows: &[LargeRow], frames: &mut Frames, t: TableNo)
    requires rows { AreRows rows.now }
    requires mapped { AreMapped frames.old t.0 (dead rows.now) }
    requires alone { AreAlone frames.old t.0 (dead rows.now) }
    ensures releases { ReleasesRows frames.old frames.new t.0 (dead rows.now) }
    ensures sound { IsSound frames.old → IsSound frames.new }
{
    for row in rows {
        if !row.stays() {
            let first = (LARGE_BASE + row.slot * LARGE_SLOT_BYTES) / PAGE_BYTES;
            release_run(frames, t, PageNo(first), row.bytes.div_ceil(PAGE_BYTES));
        }
    }
}
