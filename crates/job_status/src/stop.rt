ghost use Rattle.std.specs.Prelude.{◌≡◌};
ghost use Rattle.job_status.specs.Status.{job_status, refused_status, stop_status};

use crate::Status;
use std::alloc::AllocError;

/// Why a job stopped before its end.
#[derive(Clone, Copy, Debug, PartialEq, Eq)]
pub enum Stop {
    /// The source failed.
    Read,
    /// The sink failed.
    Write,
    /// The shelf failed.
    Shelf,
    /// Memory was wanting.
    Memory,
    /// The input has more bytes than are allowed.
    TooLong,
}

impl From<AllocError> for Stop {
    ghost use Rattle.std.specs.Prelude.{◌≡◌};
    ghost use Rattle.job_status.specs.declared.stop.Stop.TheVariants.{Memory};

    ghost from_gives = { λ _ e. e ≡ Memory };

    fn from(_: AllocError) -> Stop {
        Stop::Memory
    }
}

impl Stop {
    /// The status of a job that stopped so.
    pub fn status(self) -> Status
        ensures { result ≡ stop_status self }
    {
        match self {
            Stop::Read => Status::ReadFault,
            Stop::Write => Status::WriteFault,
            Stop::Shelf => Status::ShelfFault,
            Stop::Memory => Status::OutOfMemory,
            Stop::TooLong => Status::TooLong,
        }
    }
}

/// The status of a job that tells whether a reply was a refusal, or why it stopped.
pub fn job_status(ended: Result<bool, Stop>) -> Status
    ensures { result ≡ job_status ended }
{
    match ended {
        Ok(true) => Status::Refused,
        Ok(false) => Status::Ok,
        Err(stop) => stop.status(),
    }
}
