ghost use Rattle.std.specs.Prelude.{◌≡◌, ◌⊎◌, ℕ, ◌<◌, ◌^◌, ◌≤◌, List, ◌++◌, length};
ghost use Rattle.std.specs.List.{All};
ghost use Rattle.hprof_records.specs.declared.sub_record.SubRecord.{SubRecord};
ghost use Rattle.hprof_records.specs.declared.top_record.TopRecord.{TopRecord};
ghost use Rattle.hprof_records.specs.Parts.{bytes_of_parts};
ghost use Rattle.hprof_records.specs.Records.{dump_bytes};
ghost use Rattle.hprof_records.specs.Formed.{IsByte, IsPart};
ghost use Rattle.hprof_records.specs.Dump.{AreRecords, IsDump};
ghost use Rattle.hprof_read.specs.Fault.{NoRecord, NoPart, IsFirstFault};
ghost use Rattle.hprof_read.specs.declared.read_error.ReadError.{ReadError};

/// A text is the dump of at most one time and one well-formed list of records.
pub fn one_list()
    ensures { (time other : ℕ) (records others : List TopRecord) → time < 2 ^ 64 → other < 2 ^ 64 → AreRecords records → AreRecords others → dump_bytes time records ≡ dump_bytes other others → (time ≡ other) × (records ≡ others) }
{}

/// Where no record stands behind a dump, no longer dump begins the same text: so the place of a fault behind a dump is
/// the end of the longest dump. Likewise for the parts of a segment.
pub fn longest_fronts()
    ensures dumps { (time other : ℕ) (records others : List TopRecord) (rest more : List ℕ) → time < 2 ^ 64 → other < 2 ^ 64 → AreRecords records → AreRecords others → NoRecord rest → dump_bytes other others ++ more ≡ dump_bytes time records ++ rest → length (dump_bytes other others) ≤ length (dump_bytes time records) }
    ensures parts { (parts others : List SubRecord) (rest more : List ℕ) → All IsPart parts → All IsPart others → NoPart rest → bytes_of_parts others ++ more ≡ bytes_of_parts parts ++ rest → length (bytes_of_parts others) ≤ length (bytes_of_parts parts) }
{}

/// A dump has no first fault. So bytes are read exactly where they are a dump, unless memory runs out.
pub fn no_fault_in_dumps()
    ensures { (e : ReadError) (time : ℕ) (records : List TopRecord) → time < 2 ^ 64 → AreRecords records → IsFirstFault e (dump_bytes time records) → ⊥ }
{}

/// A text has at most one first fault.
pub fn first_faults()
    ensures { (e f : ReadError) (text : List ℕ) → IsFirstFault e text → IsFirstFault f text → e ≡ f }
{}

/// Every text of bytes is a dump, or has a first fault.
pub fn dump_or_fault()
    ensures { (text : List ℕ) → All IsByte text → IsDump text ⊎ ((e : ReadError) × IsFirstFault e text) }
{}
