//! Reads wide HPROF dumps, `JAVA PROFILE 1.0.2` and `JAVA PROFILE 1.0.3` with identifiers of 4 or 8 bytes: the records
//! of a dump, or the first place where a text is none.
#![tactic(auto)]

mod class_parts;
mod dump;
mod examples;
mod ids;
mod laws;
mod parts;
mod records;
mod wide_error;
mod wide_lists;
mod wide_sub;
mod wide_top;

pub use dump::{WideDump, read_wide};
pub use laws::{
    dumps_are_wide, first_wide_faults, longest_wide_fronts, no_fault_in_wide_dumps, one_wide_list,
    wide_dump_or_fault,
};
pub use wide_error::WideError;
pub use wide_lists::{WideFieldNames, WideIds, WideStatics};
pub use wide_sub::{WideSub, WideSubList};
pub use wide_top::{WideList, WideTop};
