//! What page tables are made of: addresses and windows, frames, leaves of entries, and tables with their counts.
//!
//! A page table maps the pages of four windows of addresses to frames of 4,096 bytes. Its entries stand in leaves of
//! 1,024. Each of these is a plain value here. Who shares a frame or a leaf is kept by `cow_pages`.
#![tactic(auto)]

mod address;
mod frame;
mod leaf;
mod table;

pub use address::{
    ALL_PAGES, Addr, FrameNo, LEAF_PAGES, LeafNo, PageNo, TABLE_LEAVES, TableNo, Window,
};
pub use frame::{Frame, clear, copy_bytes, copy_part, put, u16_in, u32_in, u64_in};
pub use leaf::{Entry, Leaf};
pub use table::{Counts, Table, window_of};
