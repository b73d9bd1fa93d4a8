//! Numbers in a row.
ghost use Rattle.std.specs.Prelude.{◌≡◌, ◌-◌, ◌++◌, OnOk};
ghost use Rattle.std.specs.List.{flat_map};
ghost use Rattle.hprof_records.specs.Parts.{word};
ghost use Rattle.hprof_write.specs.Objects.{value_bytes};

use class_layout::Kind;
use hprof_records::put_u32;
use std::alloc::AllocError;

/// Appends numbers of 4 bytes.
pub(crate) fn put_words(out: &mut Vec<u8>, words: &[u32]) -> Result<(), AllocError>
    ensures { OnOk result (out.new.items ≡ out.old.items ++ flat_map word words.now) }
{
    for n in words {
        put_u32(out, *n)?;
    }
    Ok(())
}

/// Appends a value of a kind: its last bytes in two's complement.
pub(crate) fn put_value(out: &mut Vec<u8>, kind: Kind, v: i64) -> Result<(), AllocError>
    ensures { OnOk result (out.new.items ≡ out.old.items ++ value_bytes kind v) }
{
    let bytes = v.to_be_bytes();
    out.extend_from_slice(&bytes[8 - kind.bytes() as usize..])
}
