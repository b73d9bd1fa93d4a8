//! The conversion of a wide dump.
ghost use Rattle.std.specs.Prelude.{◌≡◌, ◌<◌, ◌^◌, length, None, IfOk, IfErr, OnOk};
ghost use Rattle.hprof_records.specs.Dump.{AreRecords};
ghost use Rattle.hprof_wide.specs.Formed.{IsIdWidth};
ghost use Rattle.hprof_wide.specs.Dump.{AreWideRecords};
ghost use Rattle.hprof_convert.specs.Converted.{converted, names_of as names_of_records};
ghost use Rattle.hprof_convert.specs.Missing.{missing_layout as first_missing, IsMissing};

use crate::ConvertError;
use crate::classes::WideClasses;
use crate::converted::converted_records;
use crate::identifiers::names_of;
use crate::missing::missing_layout;
use hprof_read::Dump;
use hprof_wide::WideDump;
use std::alloc::Global;

/// The dump of 1.0.3 with identifiers of 4 bytes that a well-formed wide dump is converted to: its identifiers are
/// renamed to 1, 2, 3 and so on in the order in which they first appear, and records that are passed over are left out,
/// but for the end of a heap dump. What is answered is well formed, and 4 bytes count its identifiers. The error is
/// `NoLayout` exactly where some instance has no layout, unless memory runs out.
pub fn convert(alloc: Global, dump: &WideDump) -> Result<Dump, ConvertError>
    requires width { IsIdWidth dump.now.width }
    requires formed { AreWideRecords dump.now.width dump.now.top }
    ensures time { IfOk result (λ d. d.time ≡ dump.now.time) }
    ensures converted { IfOk result (λ d. d.top ≡ converted dump.now.width dump.now.top) }
    ensures formed { IfOk result (λ d. AreRecords d.top) }
    ensures counted { OnOk result (length (names_of_records dump.now.width dump.now.top) < 2 ^ 32) }
    ensures laid_out { OnOk result (first_missing dump.now.width dump.now.top ≡ None) }
    ensures missing { IfErr result (λ e. IsMissing e (first_missing dump.now.width dump.now.top)) }
{
    let records = dump.top.as_slice();
    let classes = WideClasses::of(alloc, records)?;
    if let Some(offset) = missing_layout(alloc, dump.width, &classes, records)? {
        return Err(ConvertError::NoLayout { offset });
    }
    let names = names_of(alloc, dump.width, &classes, records)?;
    let top = converted_records(alloc, &names, dump.width, &classes, records)?;
    Ok(Dump {
        time: dump.time,
        top,
    })
}
