//! Addresses, the numbers of pages, frames, leaves and tables, and the windows of addresses.
ghost use Rattle.std.specs.Prelude.{◌≡◌, nat_lt};
ghost use Rattle.page_tables.specs.Address.{first_page, page_of, offset_of, is_immune};

use model_numbers::{
    IMAGE_BASE, IMAGE_LENGTH, LARGE_BASE, LARGE_SLOT_BYTES, LARGE_SLOT_COUNT, PAGE_BYTES,
    REGION_BASE, REGION_BYTES, REGION_COUNT, ZYGOTE_BASE, ZYGOTE_LENGTH,
};

// The pages of each window, from its first to the one behind its last.
pub(crate) const IMAGE_PAGE: u32 = IMAGE_BASE / PAGE_BYTES;

pub(crate) const IMAGE_PAGE_END: u32 = IMAGE_PAGE + IMAGE_LENGTH / PAGE_BYTES;

pub(crate) const ZYGOTE_PAGE: u32 = ZYGOTE_BASE / PAGE_BYTES;

pub(crate) const ZYGOTE_PAGE_END: u32 = ZYGOTE_PAGE + ZYGOTE_LENGTH / PAGE_BYTES;

pub(crate) const REGIONS_PAGE: u32 = REGION_BASE / PAGE_BYTES;

pub(crate) const REGIONS_PAGE_END: u32 = REGIONS_PAGE + REGION_COUNT * REGION_BYTES / PAGE_BYTES;

pub(crate) const LARGE_PAGE: u32 = LARGE_BASE / PAGE_BYTES;

pub(crate) const LARGE_PAGE_END: u32 = LARGE_PAGE
    + LARGE_SLOT_COUNT * LARGE_SLOT_BYTES / PAGE_BYTES;

/// How many pages a leaf has.
pub const LEAF_PAGES: usize = 1024;

/// How many leaves a table has at most: one for each 1,024 pages of all addresses.
pub const TABLE_LEAVES: usize = 1024;

/// How many pages all addresses have.
pub const ALL_PAGES: u32 = 0x10_0000;

/// The address of a byte.
#[derive(Clone, Copy, PartialEq, Eq, Debug)]
pub struct Addr(pub u32);

/// The number of a page: the address of its first byte, divided by 4,096.
#[derive(Clone, Copy, PartialEq, Eq, Debug)]
pub struct PageNo(pub u32);

/// The number of a frame.
#[derive(Clone, Copy, PartialEq, Eq, Debug)]
pub struct FrameNo(pub usize);

/// The number of a page table. It may be given out again once its table was dropped.
#[derive(Clone, Copy, PartialEq, Eq, Debug)]
pub struct TableNo(pub usize);

/// The number of a leaf: what one table, or several, have for the same 1,024 pages.
#[derive(Clone, Copy, PartialEq, Eq, Debug)]
pub struct LeafNo(pub usize);

/// A range of addresses that may be mapped.
#[derive(Clone, Copy, PartialEq, Eq, Debug)]
pub enum Window {
    /// 16,384 pages from address 0x20000000 on.
    Image,
    /// 65,536 pages from address 0x30000000 on.
    Zygote,
    /// 65,536 pages from address 0x40000000 on: 1,024 regions of 64 pages.
    Regions,
    /// 131,072 pages from address 0x80000000 on: 512 slots of 256 pages.
    Large,
}

impl Addr {
    /// The page in which the address lies.
    pub fn page(self) -> PageNo
        ensures { result.0 ≡ page_of self.0 }
    {
        PageNo(self.0 / PAGE_BYTES)
    }

    /// How many bytes of its page stand before the address, below 4,096.
    pub fn offset(self) -> usize
        ensures { result ≡ offset_of self.0 }
    {
        (self.0 % PAGE_BYTES) as usize
    }

    /// Whether reads at the address are counted: it lies in the image or zygote window.
    #[inline]
    pub fn is_immune(self) -> bool
        ensures { result ≡ is_immune self.0 }
    {
        let page = self.0 / PAGE_BYTES;
        (IMAGE_PAGE..IMAGE_PAGE_END).contains(&page)
            || (ZYGOTE_PAGE..ZYGOTE_PAGE_END).contains(&page)
    }

    /// Whether the address lies below the regions. In a window, it then is one of the image or zygote window.
    #[inline]
    pub fn is_below_regions(self) -> bool
        ensures { result ≡ nat_lt (page_of self.0) (first_page Window.Regions) }
    {
        self.0 / PAGE_BYTES < REGIONS_PAGE
    }
}
