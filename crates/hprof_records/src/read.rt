ghost use Rattle.std.specs.Prelude.{◌≡◌, ◌↔◌, ◌+◌, ◌≤◌, length, IsSome, IfSome};
ghost use Rattle.hprof_records.specs.Fields.{field, bytes_at};

/// The number of 1 byte that stands at a place. `None` exactly where no byte stands there.
pub fn u8_at(bytes: &[u8], at: usize) -> Option<u8>
    ensures found { IsSome result ↔ (at + 1 ≤ length bytes.now) }
    ensures value { IfSome result (λ number. bytes_at bytes.now at 1 ≡ field 1 number) }
{
    let chunk = chunk_at(bytes, at)?;
    Some(u8::from_be_bytes(*chunk))
}

/// The number of 2 bytes, the highest first, that stands at a place. `None` exactly where fewer bytes stand from there on.
pub fn u16_at(bytes: &[u8], at: usize) -> Option<u16>
    ensures found { IsSome result ↔ (at + 2 ≤ length bytes.now) }
    ensures value { IfSome result (λ number. bytes_at bytes.now at 2 ≡ field 2 number) }
{
    let chunk = chunk_at(bytes, at)?;
    Some(u16::from_be_bytes(*chunk))
}

/// The number of 4 bytes, the highest first, that stands at a place. `None` exactly where fewer bytes stand from there on.
pub fn u32_at(bytes: &[u8], at: usize) -> Option<u32>
    ensures found { IsSome result ↔ (at + 4 ≤ length bytes.now) }
    ensures value { IfSome result (λ number. bytes_at bytes.now at 4 ≡ field 4 number) }
{
    let chunk = chunk_at(bytes, at)?;
    Some(u32::from_be_bytes(*chunk))
}

/// The number of 8 bytes, the highest first, that stands at a place. `None` exactly where fewer bytes stand from there on.
pub fn u64_at(bytes: &[u8], at: usize) -> Option<u64>
    ensures found { IsSome result ↔ (at + 8 ≤ length bytes.now) }
    ensures value { IfSome result (λ number. bytes_at bytes.now at 8 ≡ field 8 number) }
{
    let chunk = chunk_at(bytes, at)?;
    Some(u64::from_be_bytes(*chunk))
}

// The bytes from a place on, as many as the type says, where that many stand there.
fn chunk_at<const N: usize>(bytes: &[u8], at: usize) -> Option<&[u8; N]>
    ensures found { IsSome result ↔ (at + N ≤ length bytes.now) }
    ensures value { IfSome result (λ chunk. chunk.now ≡ bytes_at bytes.now at N) }
{
    bytes.get(at..)?.first_chunk()
}
