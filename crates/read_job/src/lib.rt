//! The reading of a dump: the whole input is taken from a source, and what is asked of it, its listing, a path to an
//! object or the dump that it is converted to, or the line that tells its fault, is put to a sink.
#![tactic(auto)]

mod dumps;
mod examples;
mod faults;
mod input;
mod laws;
mod question;
mod reading;
mod told;

pub use laws::{conversions_are_dumps, one_answer};
pub use question::Question;
pub use reading::answer_input;
