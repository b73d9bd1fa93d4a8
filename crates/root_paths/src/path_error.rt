ghost use Rattle.std.specs.Prelude.{◌≡◌};
ghost use Rattle.root_paths.specs.declared.path_error.PathError.TheVariants.{SinkFault, OutOfMemory};

use ah_outside::Failed;
use std::alloc::AllocError;
use thiserror::Error;

/// Why the telling of a path stopped.
#[derive(Clone, Copy, Debug, PartialEq, Eq, Error)]
pub enum PathError {
    /// The sink failed.
    #[error("the sink failed")]
    SinkFault,
    /// Memory ran out, before anything was put.
    #[error("out of memory")]
    OutOfMemory,
}

impl From<AllocError> for PathError {
    ghost from_gives = { λ _ e. e ≡ OutOfMemory };

    fn from(_: AllocError) -> PathError {
        PathError::OutOfMemory
    }
}

impl From<Failed> for PathError {
    ghost from_gives = { λ _ e. e ≡ SinkFault };

    fn from(_: Failed) -> PathError {
        PathError::SinkFault
    }
}
