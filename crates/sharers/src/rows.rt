//! The counts, and the list of the free numbers.
ghost use Rattle.std.specs.Prelude.{◌≡◌, ◌≢◌, ◌+◌, ◌-◌, ◌<◌, ◌≤◌, ◌^◌, ◌++◌, [], length, replicate, slice_set, IfOk, OnOk};
ghost use Rattle.sharers.specs.Shares.{count_of, AreTallied, SameCounts};

use std::alloc::{AllocError, Global};
use std::marker::Model;

#[derive(Clone, Copy)]
pub(crate) struct Row {
    /// How many have the number. It is free where nobody has it.
    pub(crate) holders: usize,
    /// Of a free number: the next free number, if its rank is above 1.
    pub(crate) next: u32,
    /// Of a free number: its place in the list of free numbers, counted from the end, whose rank is 1.
    pub(crate) rank: u32,
}

/// A count for each number from 0 on, below 2^32 of them.
#[derive(Drop)]
pub struct Sharers {
    rows: Vec<Row>,
    /// The first free number, if `spare` is not 0.
    first_free: u32,
    /// How many numbers are free.
    spare: usize,
}

impl Model for Sharers {
    ghost use Rattle.sharers.specs.Shares.{Shares};
    ghost use Rattle.sharers.specs.Rows.{counts_of, AreRows};
    ghost use Rattle.std.specs.Prelude.{vec_capacity};

    ghost Value = { Shares };

    ghost view = { λ s. record { counts = counts_of s.rows.items; spare = s.spare; room = vec_capacity s.rows } };

    ghost invariant = { λ s. AreRows s.rows.items s.first_free s.spare };
}

impl Sharers {
    /// No number. Takes no memory.
    pub fn new(alloc: Global) -> Sharers
        ensures counts { result.counts ≡ [] }
        ensures spare { result.spare ≡ 0 }
        ensures tallied { AreTallied result }
    {
        Sharers {
            rows: Vec::new(alloc),
            first_free: 0,
            spare: 0,
        }
    }

    /// How many numbers there are.
    pub fn len(&self) -> usize
        ensures { result ≡ length self.now.counts }
    {
        self.rows.len()
    }

    /// How many numbers are free.
    #[inline]
    pub fn spare(&self) -> usize
        ensures value { result ≡ self.now.spare }
        ensures tallied { AreTallied self.now }
    {
        self.spare
    }

    /// How many have the number.
    #[inline]
    pub fn holders(&self, number: usize) -> usize
        requires { number < length self.now.counts }
        ensures { result ≡ count_of self.now number }
    {
        self.rows[number].holders
    }

    /// Equal counts.
    pub fn copied(&self) -> Result<Sharers, AllocError>
        ensures same { IfOk result (λ copy. SameCounts self.now copy) }
        ensures tallied { IfOk result (λ copy. AreTallied copy) }
    {
        let mut rows = Vec::new(*self.rows.allocator());
        rows.extend_from_slice(&self.rows)?;
        Ok(Sharers {
            rows,
            first_free: self.first_free,
            spare: self.spare,
        })
    }

    /// Takes memory for so many further numbers, of which there are fewer than 2^32 then.
    pub fn make_room(&mut self, more: usize) -> Result<(), AllocError>
        ensures room { OnOk result (length self.old.counts + more ≤ self.new.room) }
        ensures few { OnOk result (length self.old.counts + more < 2 ^ 32) }
        ensures same { SameCounts self.old self.new }
        ensures grown { self.old.room ≤ self.new.room }
        ensures tallied { AreTallied self.new }
    {
        if more > u32::MAX as usize - self.rows.len() {
            return Err(AllocError);
        }
        self.rows.reserve(more)
    }

    /// Adds so many free numbers, for which there is memory.
    pub fn add(&mut self, more: usize)
        requires room { length self.old.counts + more ≤ self.old.room }
        requires few { length self.old.counts + more < 2 ^ 32 }
        ensures counts { self.new.counts ≡ self.old.counts ++ replicate more 0 }
        ensures spare { self.new.spare ≡ self.old.spare + more }
        ensures tallied { AreTallied self.new }
    {
        let _ = &self.rows;
        for _i in 0..more {
            self.add_one();
        }
    }

    /// Adds a free number, for which there is memory.
    fn add_one(&mut self)
        requires room { length self.old.counts < self.old.room }
        requires few { length self.old.counts + 1 < 2 ^ 32 }
        ensures counts { self.new.counts ≡ self.old.counts ++ replicate 1 0 }
        ensures spare { self.new.spare ≡ self.old.spare + 1 }
        ensures room { self.new.room ≡ self.old.room }
        ensures tallied { AreTallied self.new }
    {
        let number = self.rows.len() as u32;
        self.rows.push_reserved(Row {
            holders: 0,
            next: self.first_free,
            rank: self.spare as u32 + 1,
        });
        self.first_free = number;
        self.spare += 1;
    }

    /// Gives a free number its first holder.
    pub fn take(&mut self) -> usize
        requires { 0 < self.old.spare }
        ensures within { result < length self.old.counts }
        ensures few { result < 2 ^ 32 }
        ensures free { count_of self.old result ≡ 0 }
        ensures counts { self.new.counts ≡ slice_set self.old.counts result 1 }
        ensures spare { self.new.spare + 1 ≡ self.old.spare }
        ensures tallied { AreTallied self.new }
    {
        let number = self.first_free as usize;
        let row = &mut self.rows[number];
        row.holders = 1;
        self.first_free = row.next;
        self.spare -= 1;
        number
    }

    /// Gives a number that has holders one more.
    #[inline]
    pub fn share(&mut self, number: usize)
        requires within { number < length self.old.counts }
        requires held { 0 < count_of self.old number }
        requires fits { count_of self.old number + 1 < 2 ^ 64 }
        ensures counts { self.new.counts ≡ slice_set self.old.counts number (count_of self.old number + 1) }
        ensures spare { self.new.spare ≡ self.old.spare }
        ensures tallied { AreTallied self.new }
    {
        self.rows[number].holders += 1;
    }

    /// Takes a number from one of its holders. It is free where that was the last.
    #[inline]
    pub fn unshare(&mut self, number: usize)
        requires within { number < length self.old.counts }
        requires held { 0 < count_of self.old number }
        ensures counts { self.new.counts ≡ slice_set self.old.counts number (count_of self.old number - 1) }
        ensures kept { 1 < count_of self.old number → self.new.spare ≡ self.old.spare }
        ensures freed { count_of self.old number ≡ 1 → self.new.spare ≡ self.old.spare + 1 }
        ensures tallied { AreTallied self.new }
    {
        let row = &mut self.rows[number];
        if row.holders > 1 {
            row.holders -= 1;
            return;
        }
        row.holders = 0;
        row.next = self.first_free;
        row.rank = self.spare as u32 + 1;
        self.first_free = number as u32;
        self.spare += 1;
    }
}
