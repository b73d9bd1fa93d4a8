//! The bytes of numbers, the highest first.
ghost use Rattle.std.specs.Prelude.{◌≡◌};
ghost use Rattle.hprof_records.specs.Fields.{field};

/// A number of 1 byte.
pub(crate) fn byte(v: u8) -> [u8; 1]
    ensures { result ≡ field 1 v }
{
    v.to_be_bytes()
}

/// A number of 2 bytes.
pub(crate) fn half(v: u16) -> [u8; 2]
    ensures { result ≡ field 2 v }
{
    v.to_be_bytes()
}

/// An identifier, or another number of 4 bytes.
pub(crate) fn word(v: u32) -> [u8; 4]
    ensures { result ≡ field 4 v }
{
    v.to_be_bytes()
}

/// A number of 8 bytes.
pub(crate) fn double(v: u64) -> [u8; 8]
    ensures { result ≡ field 8 v }
{
    v.to_be_bytes()
}
