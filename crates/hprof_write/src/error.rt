ghost use Rattle.std.specs.Prelude.{◌≡◌};

use ah_outside::Failed;
use std::alloc::AllocError;
use thiserror::Error;

/// Why a dump or a table was not written whole.
#[derive(Clone, Copy, Debug, PartialEq, Eq, Error)]
pub enum DumpError {
    /// The shelf failed.
    #[error("shelf fault")]
    ShelfFault,
    /// There was no memory for what waits to be written.
    #[error("out of memory")]
    OutOfMemory,
}

impl From<Failed> for DumpError {
    ghost use Rattle.hprof_write.specs.declared.error.DumpError.TheVariants.{ShelfFault};

    ghost from_gives = { λ _ e. e ≡ ShelfFault };

    fn from(_e: Failed) -> DumpError {
        DumpError::ShelfFault
    }
}

impl From<AllocError> for DumpError {
    ghost use Rattle.hprof_write.specs.declared.error.DumpError.TheVariants.{OutOfMemory};

    ghost from_gives = { λ _ e. e ≡ OutOfMemory };

    fn from(_e: AllocError) -> DumpError {
        DumpError::OutOfMemory
    }
}
