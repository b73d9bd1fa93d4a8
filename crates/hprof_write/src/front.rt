//! What stands before the segments: the header, the strings, the classes that were loaded, the stack trace.
ghost use Rattle.std.specs.Prelude.{◌≡◌, ◌+◌, ◌++◌, length, OnOk};
ghost use Rattle.hprof_records.specs.declared.top_record.TopRecord.TheVariants.{Text};
ghost use Rattle.hprof_records.specs.Records.{bytes_of_record, header_bytes};
ghost use Rattle.hprof_write.specs.Classes.{class_id, load_record};
ghost use Rattle.hprof_write.specs.Written.{no_trace};

use crate::fields::put_words;
use crate::strings::string_id;
use class_layout::Name;
use hprof_records::{put_u8, put_u64};
use indexmap::IndexSet;
use std::alloc::AllocError;

/// The header: the bytes of an identifier are 4.
pub(crate) fn put_header(out: &mut Vec<u8>, time: u64) -> Result<(), AllocError>
    ensures { OnOk result (out.new.items ≡ out.old.items ++ header_bytes time) }
{
    out.extend_from_slice(b"JAVA PROFILE 1.0.3\0")?;
    put_words(out, &[4])?;
    put_u64(out, time)
}

/// A string under an identifier.
pub(crate) fn put_text(out: &mut Vec<u8>, id: u32, text: &Name) -> Result<(), AllocError>
    ensures { OnOk result (out.new.items ≡ out.old.items ++ bytes_of_record (Text 0 id text.now)) }
{
    let bytes = text.as_bytes();
    put_u8(out, 0x01)?;
    put_words(out, &[0, 4 + bytes.len() as u32, id])?;
    out.extend_from_slice(bytes)?;
    Ok(())
}

/// A class that was loaded.
pub(crate) fn put_load(
    out: &mut Vec<u8>,
    strings: &IndexSet<Name>,
    serial: u32,
    id: u32,
    name: &Name,
) -> Result<(), AllocError>
    ensures { OnOk result (out.new.items ≡ out.old.items ++ bytes_of_record (load_record strings.now.keys serial id name.now)) }
{
    let text = string_id(strings, name)?;
    put_u8(out, 0x02)?;
    put_words(out, &[0, 16, serial, id, 0, text])?;
    Ok(())
}

/// The stack trace without frames.
pub(crate) fn put_trace(out: &mut Vec<u8>) -> Result<(), AllocError>
    ensures { OnOk result (out.new.items ≡ out.old.items ++ bytes_of_record no_trace) }
{
    put_u8(out, 0x05)?;
    put_words(out, &[0, 12, 0, 0, 0])
}
