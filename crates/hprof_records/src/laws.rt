ghost use Rattle.std.specs.Prelude.{◌≡◌, ℕ, ◌<◌, ◌^◌, List, ◌++◌, length};
ghost use Rattle.std.specs.Int.{w8, w16, w32, w64, from_be_bytes};
ghost use Rattle.byteorder.specs.Endian.{big_bytes};
ghost use Rattle.hprof_records.specs.Fields.{field, bytes_at};

/// What a writer appends a reader gives back, wherever it stands, and both have the same bytes: `byteorder` writes a
/// number's field, and `from_be_bytes` gives the number for it.
pub fn fields_read_back()
    ensures read_back { (size x y : ℕ) (before after : List ℕ) → x < 256 ^ size → y < 256 ^ size → bytes_at (before ++ field size x ++ after) (length before) size ≡ field size y → y ≡ x }
    ensures written { (size x : ℕ) → big_bytes size x ≡ field size x }
    ensures one_byte { (x : ℕ) → x < 2 ^ 8 → from_be_bytes w8 (field 1 x) ≡ x }
    ensures two_bytes { (x : ℕ) → x < 2 ^ 16 → from_be_bytes w16 (field 2 x) ≡ x }
    ensures four_bytes { (x : ℕ) → x < 2 ^ 32 → from_be_bytes w32 (field 4 x) ≡ x }
    ensures eight_bytes { (x : ℕ) → x < 2 ^ 64 → from_be_bytes w64 (field 8 x) ≡ x }
{}
