//! A leaf: the entries of 1,024 pages.
ghost use Rattle.std.specs.Prelude.{◌≡◌, ◌<◌, ◌^◌, length, map, is_some, None, Some, IsTrue, true, false, slice_set, slice_index_or};
ghost use Rattle.page_tables.specs.Address.{leaf_pages};
ghost use Rattle.page_tables.specs.Leaf.{no_leaf, present, cleared, one_mapped, Fits};
ghost use Rattle.page_tables.specs.Slots.{frame_code, flag_code};

use crate::address::LEAF_PAGES;
use std::marker::Model;

/// What a slot has in place of a frame's number where its page is not mapped.
const NO_FRAME: u32 = u32::MAX;

/// What a table has at a mapped page.
#[derive(Clone, Copy)]
pub struct Entry {
    /// The number of its frame.
    pub frame: u32,
    /// Whether the page was written since its table was last settled.
    pub written: bool,
}

impl Entry {
    /// An entry without its flag.
    pub fn new(frame: usize) -> Entry
        requires { frame < 2 ^ 32 }
        ensures { result ≡ record { frame = frame; written = false } }
    {
        Entry {
            frame: frame as u32,
            written: false,
        }
    }

    /// The entry with its flag set.
    pub fn with_flag(self) -> Entry
        ensures { result ≡ record self { written = true } }
    {
        Entry {
            frame: self.frame,
            written: true,
        }
    }
}

/// The entries of 1,024 pages, which one table has, or several. One that no table has is empty.
#[derive(Drop)]
pub struct Leaf {
    /// By slot: the number of the page's frame.
    frames: [u32; LEAF_PAGES],
    /// By slot: whether the flag is set. Of a page that is not mapped it says nothing.
    written: [bool; LEAF_PAGES],
    /// How many of the pages are mapped.
    mapped: u32,
}

impl Model for Leaf {
    ghost use Rattle.page_tables.specs.Address.{leaf_pages};
    ghost use Rattle.page_tables.specs.Leaf.{Leaf};
    ghost use Rattle.page_tables.specs.Slots.{entries_of, AreSlots};

    ghost Value = { Leaf };

    ghost view = { λ l. record { entries = entries_of l.frames l.written; mapped = l.mapped } };

    ghost invariant = { λ l. AreSlots l.frames l.written };
}

impl Leaf {
    /// A leaf without a mapped page.
    pub fn empty() -> Leaf
        ensures { result ≡ no_leaf }
    {
        Leaf {
            frames: [NO_FRAME; LEAF_PAGES],
            written: [false; LEAF_PAGES],
            mapped: 0,
        }
    }

    /// An equal leaf.
    pub fn copied(&self) -> Leaf
        ensures { result ≡ self.now }
    {
        Leaf {
            frames: self.frames,
            written: self.written,
            mapped: self.mapped,
        }
    }

    /// How many of the pages are mapped.
    #[inline]
    pub fn mapped(&self) -> u32
        ensures { result ≡ self.now.mapped }
    {
        self.mapped
    }

    /// The entry in a slot, if its page is mapped.
    #[inline]
    pub fn entry(&self, slot: usize) -> Option<Entry>
        requires { slot < leaf_pages }
        ensures { result ≡ slice_index_or self.now.entries slot None }
    {
        let frame = self.frames[slot];
        if frame == NO_FRAME {
            return None;
        }
        Some(Entry {
            frame,
            written: self.written[slot],
        })
    }

    /// The entry in a slot whose page is mapped.
    #[inline]
    pub fn mapped_entry(&self, slot: usize) -> Entry
        requires within { slot < leaf_pages }
        requires mapped { IsTrue (is_some (slice_index_or self.now.entries slot None)) }
        ensures { slice_index_or self.now.entries slot None ≡ Some result }
    {
        Entry {
            frame: self.frames[slot],
            written: self.written[slot],
        }
    }

    /// Puts an entry into a slot, or none.
    #[inline]
    pub fn set(&mut self, slot: usize, entry: Option<Entry>)
        requires within { slot < leaf_pages }
        requires fits { Fits entry }
        requires len { length self.old.entries ≡ leaf_pages }
        requires mapped { self.old.mapped ≡ present self.old.entries }
        ensures entries { self.new.entries ≡ slice_set self.old.entries slot entry }
        ensures mapped { self.new.mapped ≡ present self.new.entries }
    {
        let gone = count_of(self.entry(slot));
        self.frames[slot] = frame_code(entry);
        self.written[slot] = flag_code(entry);
        self.mapped = self.mapped - gone + count_of(entry);
    }

    /// Clears the flag of each entry.
    pub fn settle(&mut self)
        ensures entries { self.new.entries ≡ map cleared self.old.entries }
        ensures mapped { self.new.mapped ≡ self.old.mapped }
    {
        self.written = [false; LEAF_PAGES];
    }
}

/// 1 where an entry is there.
#[inline]
fn count_of(entry: Option<Entry>) -> u32
    ensures { result ≡ one_mapped entry }
{
    match entry {
        Some(_entry) => 1,
        None => 0,
    }
}

/// What a slot has for an entry in place of a frame's number.
#[inline]
fn frame_code(entry: Option<Entry>) -> u32
    ensures { result ≡ frame_code entry }
{
    match entry {
        Some(entry) => entry.frame,
        None => NO_FRAME,
    }
}

/// What a slot has for an entry as its flag.
#[inline]
fn flag_code(entry: Option<Entry>) -> bool
    ensures { result ≡ flag_code entry }
{
    match entry {
        Some(entry) => entry.written,
        None => false,
    }
}
