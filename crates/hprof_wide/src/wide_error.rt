ghost use Rattle.std.specs.Prelude.{◌≡◌};
ghost use Rattle.hprof_wide.specs.declared.wide_error.WideError.TheVariants.{OutOfMemory};

use std::alloc::AllocError;
use thiserror::Error;

/// Why a text is no wide dump: its first fault, with the place of that fault in bytes from the text's start. Or memory
/// ran out before one was found.
#[derive(Clone, Copy, Debug, PartialEq, Eq, Error)]
pub enum WideError {
    /// The text doesn't begin as dumps of 1.0.2 or 1.0.3 do.
    #[error("no dump's text at {offset}")]
    Magic { offset: u64 },
    /// The identifiers have neither 4 nor 8 bytes.
    #[error("another size of identifiers at {offset}")]
    IdSize { offset: u64 },
    /// A part of the header, or a record's 9 bytes or body, isn't whole.
    #[error("cut short at {offset}")]
    CutShort { offset: u64 },
    /// No part of a segment has this tag.
    #[error("unknown tag at {offset}")]
    UnknownTag { offset: u64 },
    /// A field passes the end of its record's body.
    #[error("past the end at {offset}")]
    PastEnd { offset: u64 },
    /// A type isn't allowed in its place.
    #[error("bad type at {offset}")]
    BadType { offset: u64 },
    /// Memory ran out.
    #[error("out of memory")]
    OutOfMemory,
}

impl From<AllocError> for WideError {
    ghost from_gives = { λ _ e. e ≡ OutOfMemory };

    fn from(_e: AllocError) -> WideError {
        WideError::OutOfMemory
    }
}
