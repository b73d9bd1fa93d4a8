//! How many have each number, and which numbers nobody has.
//!
//! Whoever keeps things by number, each of them for several holders, keeps their counts here. The numbers that nobody
//! has are linked to one another, so that one of them is taken, and given back, in a few steps.
#![tactic(auto)]

mod rows;

pub use rows::Sharers;
