ghost use Rattle.std.specs.Prelude.{◌≡◌, ◌⊎◌, ℕ, ◌<◌, ◌^◌, ◌≤◌, List, ◌++◌, length, map};
ghost use Rattle.std.specs.List.{All};
ghost use Rattle.hprof_records.specs.declared.top_record.TopRecord.{TopRecord};
ghost use Rattle.hprof_records.specs.Formed.{IsByte};
ghost use Rattle.hprof_records.specs.Records.{dump_bytes};
ghost use Rattle.hprof_records.specs.Dump.{AreRecords};
ghost use Rattle.hprof_wide.specs.Narrow.{wide_record_of};
ghost use Rattle.hprof_wide.specs.declared.wide_top.WideTop.{WideTop};
ghost use Rattle.hprof_wide.specs.Dump.{IsWideDump, IsWideDumpOf};
ghost use Rattle.hprof_wide.specs.Fault.{NoWideRecord, IsFirstWideFault};
ghost use Rattle.hprof_wide.specs.declared.wide_error.WideError.{WideError};

/// A text is the wide dump of at most one width, one time and one well-formed list of records.
pub fn one_wide_list()
    ensures { (w other_w time other : ℕ) (records others : List WideTop) (bytes : List ℕ) → IsWideDumpOf w time records bytes → IsWideDumpOf other_w other others bytes → (w ≡ other_w) × (time ≡ other) × (records ≡ others) }
{}

/// A wide dump has no first fault. So bytes are read exactly where they are a wide dump, unless memory runs out.
pub fn no_fault_in_wide_dumps()
    ensures { (e : WideError) (w time : ℕ) (records : List WideTop) (bytes : List ℕ) → IsWideDumpOf w time records bytes → IsFirstWideFault e bytes → ⊥ }
{}

/// A text has at most one first fault.
pub fn first_wide_faults()
    ensures { (e f : WideError) (text : List ℕ) → IsFirstWideFault e text → IsFirstWideFault f text → e ≡ f }
{}

/// Every text of bytes is a wide dump, or has a first fault.
pub fn wide_dump_or_fault()
    ensures { (text : List ℕ) → All IsByte text → IsWideDump text ⊎ ((e : WideError) × IsFirstWideFault e text) }
{}

/// Where no record stands behind a wide dump, no longer wide dump begins the same text: so the place of a fault behind
/// a wide dump is the end of the longest one.
pub fn longest_wide_fronts()
    ensures { (w other_w time other : ℕ) (records others : List WideTop) (bytes longer rest more : List ℕ) → IsWideDumpOf w time records bytes → IsWideDumpOf other_w other others longer → NoWideRecord w rest → longer ++ more ≡ bytes ++ rest → length longer ≤ length bytes }
{}

/// A dump that `read_dump` reads is a wide dump with identifiers of 4 bytes, the same time and the same records.
pub fn dumps_are_wide()
    ensures { (time : ℕ) (records : List TopRecord) → time < 2 ^ 64 → AreRecords records → IsWideDumpOf 4 time (map wide_record_of records) (dump_bytes time records) }
{}
