ghost use Rattle.std.specs.Prelude.{◌≡◌, ◌++◌, OnOk, OnErr};
ghost use Rattle.hprof_records.specs.Fields.{field};

use byteorder::{BigEndian, ByteOrder};
use std::alloc::AllocError;

/// Appends a number of 1 byte. After an error the vector's bytes are as before.
pub fn put_u8(out: &mut Vec<u8>, v: u8) -> Result<(), AllocError>
    ensures appended { OnOk result (out.new.items ≡ out.old.items ++ field 1 v) }
    ensures unchanged { OnErr result (out.new.items ≡ out.old.items) }
{
    out.push(v)?;
    Ok(())
}

/// Appends a number's 2 bytes, the highest first. After an error the vector's bytes are as before.
pub fn put_u16(out: &mut Vec<u8>, v: u16) -> Result<(), AllocError>
    ensures appended { OnOk result (out.new.items ≡ out.old.items ++ field 2 v) }
    ensures unchanged { OnErr result (out.new.items ≡ out.old.items) }
{
    let mut bytes = [0; 2];
    BigEndian::write_u16(&mut bytes, v);
    out.extend_from_slice(&bytes)?;
    Ok(())
}

/// Appends a number's 4 bytes, the highest first. After an error the vector's bytes are as before.
pub fn put_u32(out: &mut Vec<u8>, v: u32) -> Result<(), AllocError>
    ensures appended { OnOk result (out.new.items ≡ out.old.items ++ field 4 v) }
    ensures unchanged { OnErr result (out.new.items ≡ out.old.items) }
{
    let mut bytes = [0; 4];
    BigEndian::write_u32(&mut bytes, v);
    out.extend_from_slice(&bytes)?;
    Ok(())
}

/// Appends a number's 8 bytes, the highest first. After an error the vector's bytes are as before.
pub fn put_u64(out: &mut Vec<u8>, v: u64) -> Result<(), AllocError>
    ensures appended { OnOk result (out.new.items ≡ out.old.items ++ field 8 v) }
    ensures unchanged { OnErr result (out.new.items ≡ out.old.items) }
{
    let mut bytes = [0; 8];
    BigEndian::write_u64(&mut bytes, v);
    out.extend_from_slice(&bytes)?;
    Ok(())
}
