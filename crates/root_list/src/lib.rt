//! The roots of a process, in the order in which they were first written.
#![tactic(auto)]

mod root;
mod roots;
mod table;

pub use root::RootAt;
pub use roots::Roots;
