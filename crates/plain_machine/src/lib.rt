//! All processes of a script, executed by their definitions: no pages in memory, no bitmaps and no caches. The machine
//! stands for its world by equality.
#![tactic(auto)]

mod act;
mod cards;
mod counts;
mod dumps;
mod frames;
mod lives;
mod machine;
mod makes;
mod outcome;
mod pages;
mod part;
mod process;
mod reads;
mod slots;
mod stores;

pub use counts::live_processes_have_counts;
pub use machine::Machine;
