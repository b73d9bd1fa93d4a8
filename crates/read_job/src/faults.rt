//! The numbers of faults, and where they are. Want of memory is no fault.
ghost use Rattle.std.specs.Prelude.{◌≡◌};
ghost use Rattle.read_job.specs.Ends.{fault_number, wide_fault_number};
ghost use Rattle.read_job.specs.Telling.{missing_number};

use hprof_convert::ConvertError;
use hprof_read::ReadError;
use hprof_wide::WideError;

/// The number of a fault and its offset.
pub(crate) fn fault_number(error: ReadError) -> Option<(u8, u64)>
    ensures { result ≡ fault_number error }
{
    match error {
        ReadError::Magic { offset } => Some((1, offset)),
        ReadError::IdSize { offset } => Some((2, offset)),
        ReadError::CutShort { offset } => Some((3, offset)),
        ReadError::UnknownTag { offset } => Some((4, offset)),
        ReadError::PastEnd { offset } => Some((5, offset)),
        ReadError::BadType { offset } => Some((6, offset)),
        ReadError::OutOfMemory => None,
    }
}

/// The number of a wide dump's fault and its offset.
pub(crate) fn wide_fault_number(error: WideError) -> Option<(u8, u64)>
    ensures { result ≡ wide_fault_number error }
{
    match error {
        WideError::Magic { offset } => Some((1, offset)),
        WideError::IdSize { offset } => Some((2, offset)),
        WideError::CutShort { offset } => Some((3, offset)),
        WideError::UnknownTag { offset } => Some((4, offset)),
        WideError::PastEnd { offset } => Some((5, offset)),
        WideError::BadType { offset } => Some((6, offset)),
        WideError::OutOfMemory => None,
    }
}

/// The number of what keeps a wide dump from being converted, and its offset.
pub(crate) fn missing_number(error: ConvertError) -> Option<(u8, u64)>
    ensures { result ≡ missing_number error }
{
    match error {
        ConvertError::NoLayout { offset } => Some((7, offset)),
        ConvertError::OutOfMemory => None,
    }
}
