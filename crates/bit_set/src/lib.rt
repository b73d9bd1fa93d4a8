//! Sets of small numbers, a bit for each number.
#![tactic(auto)]

mod set;
mod words;

pub use set::BitSet;
