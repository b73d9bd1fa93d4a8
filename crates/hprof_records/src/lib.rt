//! The fields and records of HPROF dumps, `JAVA PROFILE 1.0.3`: what they are, and the bytes of each.
#![tactic(auto)]

mod class_parts;
mod examples;
mod laws;
mod numbers;
mod read;
mod sub_record;
mod top_record;
mod type_code;
mod write;

pub use class_parts::{Constants, FieldNames, Statics};
pub use laws::fields_read_back;
pub use numbers::{Bytes, Ids};
pub use read::{u8_at, u16_at, u32_at, u64_at};
pub use sub_record::{SubList, SubRecord};
pub use top_record::TopRecord;
pub use type_code::TypeCode;
pub use write::{put_u8, put_u16, put_u32, put_u64};
