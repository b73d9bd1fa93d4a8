//! Pages of memory in page tables that share their frames until one of them is written.
//!
//! A page table maps the pages of four windows of addresses to frames of 4,096 bytes. Its entries stand in leaves of
//! 1,024. A fork of a table has the leaf of each of its pages. The first write into a shared leaf gives the writer a
//! copy of it, whose entries share their frames, and a write into a shared page a copy of its frame.
#![tactic(auto)]

mod frames;
mod laws;
mod leaves;
mod pages;
mod room;
mod store;
mod tables;

pub use frames::Frames;
pub use laws::{
    a_page_is_only_a_table, alone_stays_alone, calls_change_only_a_table, counts_are_of_pages,
    leaves_are_shared, nothing_is_only_a_table, numbers_are_bytes, one_sharer_stays,
    only_a_table_twice, same_entries_use_as_much, used_frames_have_entries,
    used_leaves_have_tables, views_are_paged,
};
pub use page_tables::{Addr, FrameNo, LeafNo, PageNo, TableNo, Window};
