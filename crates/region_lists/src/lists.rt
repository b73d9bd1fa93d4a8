//! Three lists in one table.
ghost use Rattle.std.specs.Prelude.{◌≡◌, ◌≢◌, ℕ, ◌<◌, ◌++◌, ◌∷◌, [], List, length, IfOk, Some, None, option_map, IsTrue, is_some, if◌then◌else◌};
ghost use Rattle.region_lists.specs.Chains.{row_in};
ghost use Rattle.region_lists.specs.Shown.{shown_row};
ghost use Rattle.region_lists.specs.Rows.{IsLists, Row, first_of, last_of, row_behind, row_of, with_last};

use crate::chains::{Chain, Entry};
use std::alloc::{AllocError, Global};
use std::marker::Model;

/// A region by its number, and how many of its bytes hold objects.
#[derive(Clone, Copy, Debug, PartialEq, Eq)]
pub struct RegionRow {
    pub region: u32,
    pub fill: u32,
}

/// The lists of in-use, from and free regions. Each region is in exactly one of them. The lists are linked by index through
/// one table, so every call but `new` and `copied` takes as long however many regions there are, and no memory.
#[derive(Drop)]
pub struct RegionLists {
    entries: Vec<Entry>,
    in_use: Chain,
    from: Chain,
    free: Chain,
}

impl Model for RegionLists {
    ghost use Rattle.region_lists.specs.Chains.{AreChained, shown};
    ghost use Rattle.region_lists.specs.Rows.{Lists};

    ghost Value = { Lists };

    ghost view = { λ s. shown s.entries.items s.in_use s.from s.free };

    ghost invariant = { λ s. AreChained s.entries.items s.in_use s.from s.free };
}

impl RegionLists {
    /// `count` regions, all of them free.
    pub fn new(alloc: Global, count: u32) -> Result<RegionLists, AllocError>
        ensures in_use { IfOk result (λ s. s.in_use ≡ []) }
        ensures from { IfOk result (λ s. s.from ≡ []) }
        ensures count { IfOk result (λ s. s.count ≡ count) }
        ensures lists { IfOk result (λ s. IsLists s) }
    {
        let mut entries = Vec::new(alloc);
        entries.reserve(count as usize)?;
        for i in 0..count {
            entries.push_reserved(Entry {
                next: i + 1,
                fill: 0,
            });
        }
        Ok(RegionLists {
            entries,
            in_use: Chain::empty(),
            from: Chain::empty(),
            free: Chain {
                first: 0,
                last: count.saturating_sub(1),
                count,
            },
        })
    }

    /// How many regions are in use.
    pub fn used(&self) -> u32
        ensures used { result ≡ length self.now.in_use }
        ensures lists { IsLists self.now }
    {
        self.in_use.count
    }

    /// How many regions are from regions.
    pub fn from_count(&self) -> u32
        ensures count { result ≡ length self.now.from }
        ensures lists { IsLists self.now }
    {
        self.from.count
    }

    /// The region in use that was opened first.
    pub fn first(&self) -> Option<RegionRow>
        ensures { option_map shown_row result ≡ first_of self.now.in_use }
    {
        row_if(&self.entries, self.in_use.count > 0, self.in_use.first)
    }

    /// The region in use that was opened last.
    pub fn last(&self) -> Option<RegionRow>
        ensures { option_map shown_row result ≡ last_of self.now.in_use }
    {
        row_if(&self.entries, self.in_use.count > 0, self.in_use.last)
    }

    /// The from region that was opened first.
    pub fn first_from(&self) -> Option<RegionRow>
        ensures { option_map shown_row result ≡ first_of self.now.from }
    {
        row_if(&self.entries, self.from.count > 0, self.from.first)
    }

    /// The region in use that was opened directly after this one, which is in use.
    pub fn behind(&self, region: u32) -> Option<RegionRow>
        requires { IsTrue (is_some (row_of self.now.in_use region)) }
        ensures { option_map shown_row result ≡ row_behind self.now.in_use region }
    {
        row_if(
            &self.entries,
            region != self.in_use.last,
            self.entries[region as usize].next,
        )
    }

    /// How many bytes of a region in use hold objects.
    pub fn fill(&self, region: u32) -> u32
        requires { IsTrue (is_some (row_of self.now.in_use region)) }
        ensures { option_map (λ row. row.fill) (row_of self.now.in_use region) ≡ Some result }
    {
        self.entries[region as usize].fill
    }

    /// Puts the first free region behind those in use, with `fill` bytes that hold objects, and answers its number.
    pub fn open(&mut self, fill: u32) -> u32
        requires { self.old.free ≢ [] }
        ensures free { self.old.free ≡ result ∷ self.new.free }
        ensures in_use { self.new.in_use ≡ self.old.in_use ++ record { region = result; fill = fill } ∷ [] }
        ensures rest { (self.new.from ≡ self.old.from) × (self.new.count ≡ self.old.count) }
        ensures lists { IsLists self.new }
    {
        let region = self.free.pop(&self.entries);
        self.entries[region as usize].fill = fill;
        self.in_use.append(&mut self.entries, region);
        region
    }

    /// Says how many bytes of the region in use that was opened last hold objects.
    pub fn extend(&mut self, fill: u32)
        requires { self.old.in_use ≢ [] }
        ensures in_use { self.new.in_use ≡ with_last self.old.in_use fill }
        ensures rest { self.new ≡ record self.old { in_use = self.new.in_use } }
        ensures lists { IsLists self.new }
    {
        self.entries[self.in_use.last as usize].fill = fill;
    }

    /// Makes all regions in use from regions. There are no from regions before.
    pub fn flip(&mut self)
        requires { self.old.from ≡ [] }
        ensures flips { self.new ≡ record self.old { in_use = []; from = self.old.in_use } }
        ensures lists { IsLists self.new }
    {
        self.from = self.in_use;
        self.in_use = Chain::empty();
    }

    /// Frees the first from region.
    pub fn free_first(&mut self)
        requires { self.old.from ≢ [] }
        ensures frees { (row : Row) (rest : List Row) → self.old.from ≡ row ∷ rest → self.new ≡ record self.old { from = rest; free = row.region ∷ self.old.free } }
        ensures lists { IsLists self.new }
    {
        let region = self.from.pop(&self.entries);
        self.free.push(&mut self.entries, region);
    }

    /// Equal lists.
    pub fn copied(&self) -> Result<RegionLists, AllocError>
        ensures { IfOk result (λ copy. copy ≡ self.now) }
    {
        let mut entries = Vec::new(*self.entries.allocator());
        entries.extend_from_slice(&self.entries)?;
        Ok(RegionLists {
            entries,
            in_use: self.in_use,
            from: self.from,
            free: self.free,
        })
    }
}

/// The row of a region, if there is one.
fn row_if(entries: &[Entry], there: bool, region: u32) -> Option<RegionRow>
    requires { IsTrue there → region < length entries.now }
    ensures { option_map shown_row result ≡ (if there then Some (row_in entries.now region) else None) }
{
    if !there {
        return None;
    }
    Some(RegionRow {
        region,
        fill: entries[region as usize].fill,
    })
}
