ghost use Rattle.std.specs.Prelude.{◌≡◌};
ghost use Rattle.hprof_convert.specs.declared.convert_error.ConvertError.TheVariants.{OutOfMemory};

use std::alloc::AllocError;
use thiserror::Error;

/// Why a wide dump isn't converted.
#[derive(Clone, Copy, Debug, PartialEq, Eq, Error)]
pub enum ConvertError {
    /// An instance has no layout. Its tag stands at this place, in bytes from the dump's start, and no such instance
    /// stands before it.
    #[error("no layout at {offset}")]
    NoLayout { offset: u64 },
    /// Memory ran out, or there is more than 4 bytes can number: identifiers, or bytes of a segment.
    #[error("out of memory")]
    OutOfMemory,
}

impl From<AllocError> for ConvertError {
    ghost from_gives = { λ _ e. e ≡ OutOfMemory };

    fn from(_e: AllocError) -> ConvertError {
        ConvertError::OutOfMemory
    }
}
