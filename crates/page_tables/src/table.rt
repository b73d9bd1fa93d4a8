//! A page table: a leaf for each 1,024 pages.
ghost use Rattle.std.specs.Prelude.{◌≡◌, ◌+◌, ◌-◌, ◌<◌, ◌≤◌, ◌^◌, replicate, IfOk, None, IsTrue};
ghost use Rattle.page_tables.specs.Address.{is_in_window, table_leaves};
ghost use Rattle.page_tables.specs.Counts.{count_in, with_count, no_counts};
ghost use Rattle.page_tables.specs.Leaf.{one_mapped, one_written};
ghost use Rattle.page_tables.specs.Tables.{window_of};

use crate::address::{LARGE_PAGE, REGIONS_PAGE, TABLE_LEAVES, Window, ZYGOTE_PAGE};
use crate::leaf::Entry;
use std::alloc::{AllocError, Global};

/// A count for each window.
#[derive(Clone, Copy)]
pub struct Counts {
    /// That of the image window.
    pub image: u32,
    /// That of the zygote window.
    pub zygote: u32,
    /// That of the regions.
    pub regions: u32,
    /// That of the large slots.
    pub large: u32,
}

/// The leaves of a table, each by its number.
#[derive(Drop)]
pub struct Table {
    /// By index: none where the table has no page.
    pub leaves: Vec<Option<u32>>,
    /// How many pages are mapped.
    pub mapped: Counts,
    /// How many of them have their flag set.
    pub written: Counts,
}

/// The window of a page.
#[inline]
pub fn window_of(page: u32) -> Window
    requires { IsTrue (is_in_window page) }
    ensures { result ≡ window_of page }
{
    if page < ZYGOTE_PAGE {
        Window::Image
    } else if page < REGIONS_PAGE {
        Window::Zygote
    } else if page < LARGE_PAGE {
        Window::Regions
    } else {
        Window::Large
    }
}

impl Counts {
    /// Nothing counted.
    pub fn zero() -> Counts
        ensures { result ≡ record { image = 0; zygote = 0; regions = 0; large = 0 } }
    {
        Counts {
            image: 0,
            zygote: 0,
            regions: 0,
            large: 0,
        }
    }

    /// The count of a window.
    pub fn get(&self, window: Window) -> u32
        ensures { result ≡ count_in self.now window }
    {
        match window {
            Window::Image => self.image,
            Window::Zygote => self.zygote,
            Window::Regions => self.regions,
            Window::Large => self.large,
        }
    }

    /// Sets the count of a window.
    pub fn set(&mut self, window: Window, count: u32)
        ensures { self.new ≡ with_count self.old window count }
    {
        match window {
            Window::Image => self.image = count,
            Window::Zygote => self.zygote = count,
            Window::Regions => self.regions = count,
            Window::Large => self.large = count,
        }
    }

    /// Adds 1 to the count of a window.
    pub fn raise(&mut self, window: Window)
        requires { count_in self.old window + 1 < 2 ^ 32 }
        ensures { self.new ≡ with_count self.old window (count_in self.old window + 1) }
    {
        self.set(window, self.get(window) + 1);
    }

    /// Takes 1 from the count of a window.
    pub fn lower(&mut self, window: Window)
        requires { 0 < count_in self.old window }
        ensures { self.new ≡ with_count self.old window (count_in self.old window - 1) }
    {
        self.set(window, self.get(window) - 1);
    }
}

impl Table {
    /// A table without leaves.
    pub fn new(alloc: Global) -> Result<Table, AllocError>
        ensures leaves { IfOk result (λ it. it.leaves.items ≡ replicate table_leaves None) }
        ensures mapped { IfOk result (λ it. it.mapped ≡ no_counts) }
        ensures written { IfOk result (λ it. it.written ≡ no_counts) }
    {
        Ok(Table {
            leaves: no_leaves(alloc, TABLE_LEAVES)?,
            mapped: Counts::zero(),
            written: Counts::zero(),
        })
    }

    /// A table with the same leaves.
    pub fn copy(&self) -> Result<Table, AllocError>
        ensures leaves { IfOk result (λ it. it.leaves.items ≡ self.now.leaves.items) }
        ensures mapped { IfOk result (λ it. it.mapped ≡ self.now.mapped) }
        ensures written { IfOk result (λ it. it.written ≡ self.now.written) }
    {
        Ok(Table {
            leaves: self.leaves.clone()?,
            mapped: self.mapped,
            written: self.written,
        })
    }

    /// Counts an entry of a window that joins.
    pub fn count(&mut self, window: Window, entry: Option<Entry>)
        requires mapped { count_in self.old.mapped window + 1 < 2 ^ 32 }
        requires written { count_in self.old.written window + 1 < 2 ^ 32 }
        ensures leaves { self.new.leaves ≡ self.old.leaves }
        ensures mapped { self.new.mapped ≡ with_count self.old.mapped window (count_in self.old.mapped window + one_mapped entry) }
        ensures written { self.new.written ≡ with_count self.old.written window (count_in self.old.written window + one_written entry) }
    {
        if let Some(entry) = entry {
            self.mapped.raise(window);
            if entry.written {
                self.written.raise(window);
            }
        }
    }

    /// Counts an entry of a window no longer.
    pub fn uncount(&mut self, window: Window, entry: Option<Entry>)
        requires mapped { one_mapped entry ≤ count_in self.old.mapped window }
        requires written { one_written entry ≤ count_in self.old.written window }
        ensures leaves { self.new.leaves ≡ self.old.leaves }
        ensures mapped { self.new.mapped ≡ with_count self.old.mapped window (count_in self.old.mapped window - one_mapped entry) }
        ensures written { self.new.written ≡ with_count self.old.written window (count_in self.old.written window - one_written entry) }
    {
        if let Some(entry) = entry {
            self.mapped.lower(window);
            if entry.written {
                self.written.lower(window);
            }
        }
    }
}

fn no_leaves(alloc: Global, count: usize) -> Result<Vec<Option<u32>>, AllocError>
    ensures { IfOk result (λ it. it.items ≡ replicate count None) }
{
    let none: Option<u32> = None;
    vec![in alloc; none; count]
}
