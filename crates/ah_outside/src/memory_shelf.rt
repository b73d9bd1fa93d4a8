ghost use Rattle.std.specs.Prelude.{◌≡◌, ◌⊎◌, ◌<◌, ◌≤◌, ◌↔◌, [], true, false, length, slice_get, slice_range, vec_capacity, vec_len, IfOk, IsErr, IsSomeAnd, OnOk, OnErr};
ghost use Rattle.ah_outside.specs.FaultPlan.{fresh_plan, IsNextToFail};
ghost use Rattle.ah_outside.specs.MemoryShelf.{ShelfState, room_left, after_begin, after_append, after_finish, after_failed_call};
ghost use Rattle.ah_outside.specs.Outside.{is_last_open};
ghost use Rattle.ah_outside.specs.ShelfRows.{with_last, ended_at, marked};

use crate::fault_plan::FaultPlan;
use crate::{Failed, Shelf};
use std::alloc::{AllocError, Global};
use std::marker::Model;

// Where an entry stands in the bytes of its shelf: its name first, and its own bytes right behind.
#[derive(Clone, Copy, Debug)]
struct Row {
    start: usize,
    name_end: usize,
    end: usize,
    closed: bool,
}

/// A shelf that keeps its entries in memory, holds a limited number of them and of bytes, and fails at chosen
/// calls.
#[derive(Debug, Drop)]
pub struct MemoryShelf {
    bytes: Vec<u8>,
    rows: Vec<Row>,
    limit: usize,
    room: usize,
    plan: FaultPlan,
}

impl Model for MemoryShelf {
    ghost use Rattle.std.specs.Prelude.{◌≤◌, length, map, vec_capacity};
    ghost use Rattle.ah_outside.specs.MemoryShelf.{ShelfState};

    ghost Value = { ShelfState };

    ghost use Rattle.ah_outside.specs.ShelfRows.{entry_of, IsLaidOut};

    ghost view = { λ s. record { entries = map (entry_of s.bytes.items) s.rows.items; limit = s.limit; room = s.room; plan = s.plan } };

    ghost invariant = { λ s. IsLaidOut 0 s.rows.items (length s.bytes.items) × (length s.bytes.items ≤ s.room) × (s.room ≤ vec_capacity s.bytes) × (length s.rows.items ≤ s.limit) × (s.limit ≤ vec_capacity s.rows) };
}

// The bytes from one place to another.
fn cut(bytes: &[u8], from: usize, to: usize) -> &[u8]
    requires in_order { from ≤ to }
    requires within { to ≤ length bytes.now }
    ensures { result.now ≡ slice_range bytes.now from to }
{
    &bytes[from..to]
}

// The last entry ends at another place.
fn move_last_end(rows: &mut Vec<Row>, to: usize)
    ensures moved { rows.new.items ≡ with_last (ended_at to) rows.old.items }
    ensures capacity { vec_capacity rows.new ≡ vec_capacity rows.old }
{
    if let Some(row) = rows.last_mut() {
        row.end = to;
    }
}

// The last entry is closed.
fn mark_last(rows: &mut Vec<Row>)
    ensures marked { rows.new.items ≡ with_last marked rows.old.items }
    ensures capacity { vec_capacity rows.new ≡ vec_capacity rows.old }
{
    if let Some(row) = rows.last_mut() {
        row.closed = true;
    }
}

impl MemoryShelf {
    /// A shelf with no entries, which may hold so many entries and so many bytes, those of their names
    /// included, and fails at the calls of `begin`, `put` and `finish` whose numbers are in `fails`, counted
    /// together from 1. Fails where there is no memory for the entries, the room and the numbers; no later
    /// call takes any.
    pub fn new(
        alloc: Global,
        entries: usize,
        room: usize,
        fails: &[u64],
    ) -> Result<MemoryShelf, AllocError>
        ensures { IfOk result (λ s. s ≡ record { entries = []; limit = entries; room = room; plan = fresh_plan fails.now }) }
    {
        Ok(MemoryShelf {
            bytes: Vec::with_capacity(alloc, room)?,
            rows: Vec::with_capacity(alloc, entries)?,
            limit: entries,
            room,
            plan: FaultPlan::new(alloc, fails)?,
        })
    }

    /// How many entries there are, the unfinished one included.
    pub fn count(&self) -> usize
        ensures { result ≡ length self.now.entries }
    {
        self.rows.len()
    }

    /// The name of an entry, whose number is below the count.
    pub fn name_at(&self, k: usize) -> &[u8]
        requires { k < length self.now.entries }
        ensures { IsSomeAnd (slice_get self.now.entries k) (λ e. result.now ≡ e.name) }
    {
        let row = self.rows[k];
        cut(&self.bytes, row.start, row.name_end)
    }

    /// The bytes of an entry, whose number is below the count.
    pub fn bytes_at(&self, k: usize) -> &[u8]
        requires { k < length self.now.entries }
        ensures { IsSomeAnd (slice_get self.now.entries k) (λ e. result.now ≡ e.bytes) }
    {
        let row = self.rows[k];
        cut(&self.bytes, row.name_end, row.end)
    }

    /// Whether an entry, whose number is below the count, is closed.
    pub fn closed_at(&self, k: usize) -> bool
        requires { k < length self.now.entries }
        ensures { IsSomeAnd (slice_get self.now.entries k) (λ e. result ≡ e.closed) }
    {
        self.rows[k].closed
    }
}

impl Shelf for MemoryShelf {
    ghost use Rattle.std.specs.Prelude.{Some};
    ghost use Rattle.ah_outside.specs.Outside.{Shelved, is_last_open};

    ghost shelved = { λ s. record { entries = Some s.entries; unfinished = is_last_open s.entries } };

    ghost fault_count = { λ s. s.plan.faults };

    ghost use Rattle.std.specs.Prelude.{refl};

    ghost last_told = { λ _. refl };

    fn faults(&self) -> u64 {
        self.plan.faults()
    }

    /// Fails at its numbers, where as many entries stand as may, and where the name is longer than the room
    /// that is left. The entries are then as before.
    fn begin(&mut self, name: &[u8]) -> Result<(), Failed>
        requires { is_last_open self.old.entries ≡ false }
        ensures state { OnOk result (self.new ≡ after_begin self.old name.now) }

        ensures fails { IsErr result ↔ (IsNextToFail self.old.plan ⊎ (self.old.limit ≤ length self.old.entries) ⊎ (room_left self.old < length name.now)) }
        ensures state_failed { OnErr result (self.new ≡ after_failed_call self.old) }
        ensures never_falls { self.old.plan.faults ≤ self.new.plan.faults }
    {
        let start = self.bytes.len();
        if self.plan.is_next_to_fail()
            || self.rows.len() == self.limit
            || self.room - start < name.len()
        {
            self.plan.count_fault();
            return Err(Failed);
        }
        self.plan.count_call();
        self.bytes.extend_from_slice(name).unwrap();
        let end = self.bytes.len();
        let row = Row {
            start,
            name_end: end,
            end,
            closed: false,
        };
        self.rows.push(row).unwrap();
        Ok(())
    }

    /// Fails at its numbers, and where the piece is longer than the room that is left. Nothing of it is then
    /// appended.
    fn put(&mut self, piece: &[u8]) -> Result<(), Failed>
        requires { is_last_open self.old.entries ≡ true }
        ensures state { OnOk result (self.new ≡ after_append self.old piece.now) }

        ensures fails { IsErr result ↔ (IsNextToFail self.old.plan ⊎ (room_left self.old < length piece.now)) }
        ensures state_failed { OnErr result (self.new ≡ after_failed_call self.old) }
        ensures never_falls { self.old.plan.faults ≤ self.new.plan.faults }
    {
        if self.plan.is_next_to_fail() || self.room - self.bytes.len() < piece.len() {
            self.plan.count_fault();
            return Err(Failed);
        }
        self.plan.count_call();
        self.bytes.extend_from_slice(piece).unwrap();
        move_last_end(&mut self.rows, self.bytes.len());
        Ok(())
    }

    /// Fails at its numbers alone. The entry is then unfinished still.
    fn finish(&mut self) -> Result<(), Failed>
        requires { is_last_open self.old.entries ≡ true }
        ensures state { OnOk result (self.new ≡ after_finish self.old) }

        ensures fails { IsErr result ↔ IsNextToFail self.old.plan }
        ensures state_failed { OnErr result (self.new ≡ after_failed_call self.old) }
        ensures never_falls { self.old.plan.faults ≤ self.new.plan.faults }
    {
        if self.plan.is_next_to_fail() {
            self.plan.count_fault();
            return Err(Failed);
        }
        self.plan.count_call();
        mark_last(&mut self.rows);
        Ok(())
    }
}
