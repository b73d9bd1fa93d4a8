//! How many parts of a sort the records of a dump have.
ghost use Rattle.std.specs.Prelude.{◌≡◌, count_by};
ghost use Rattle.hprof_list.specs.Listing.{is_of, count_of, parts_of};

use hprof_records::{SubRecord, TopRecord};

/// What the last line of a listing counts.
#[derive(Clone, Copy, Debug, PartialEq, Eq)]
pub enum Sort {
    Classes,
    Objects,
    Roots,
}

fn is_of_sort(sort: Sort, part: &SubRecord) -> bool
    ensures { result ≡ is_of sort part.now }
{
    match part {
        SubRecord::Root { .. } => sort == Sort::Roots,
        SubRecord::HeapInfo { .. } => false,
        SubRecord::ClassDump { .. } => sort == Sort::Classes,
        SubRecord::Instance { .. }
        | SubRecord::ObjectArray { .. }
        | SubRecord::PrimitiveArray { .. }
        | SubRecord::NoData { .. } => sort == Sort::Objects,
    }
}

fn count_parts(sort: Sort, parts: &[SubRecord]) -> usize
    ensures { result ≡ count_by (is_of sort) parts.now }
{
    let mut count = 0;
    for part in parts {
        if is_of_sort(sort, part) {
            count += 1;
        }
    }
    count
}

fn count_in(sort: Sort, one: &TopRecord) -> usize
    ensures { result ≡ count_by (is_of sort) (parts_of one.now) }
{
    match one {
        TopRecord::Segment { parts, .. } => count_parts(sort, parts.as_slice()),
        _ => 0,
    }
}

/// How many parts of this sort the records have.
pub fn count_sort(sort: Sort, records: &[TopRecord]) -> u128
    ensures { result ≡ count_of sort records.now }
{
    let mut total: u128 = 0;
    for one in records {
        total += count_in(sort, one) as u128;
    }
    total
}
