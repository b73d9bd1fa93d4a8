//! Dumps of the processes of the plain machine, and where their objects stand.
#![tactic(auto)]

mod dumps;

pub use dumps::{address, addresses_fit, write_dump, write_map};
