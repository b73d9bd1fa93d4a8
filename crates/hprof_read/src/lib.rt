//! Reads HPROF dumps, `JAVA PROFILE 1.0.3`: the records of a dump, or the first place where a text is none.
#![tactic(auto)]

mod class_parts;
mod dump;
mod fields;
mod laws;
mod parts;
mod read_error;
mod records;

pub use dump::{Dump, TopList, read_dump};
pub use fields::{
    Halt, SHORT, Stop, any_type, byte, bytes_of, counted, half, primitive_type, word,
};
pub use laws::{dump_or_fault, first_faults, longest_fronts, no_fault_in_dumps, one_list};
pub use parts::{Kind, kind_of_tag};
pub use read_error::ReadError;
pub use records::read_frame;
