ghost use Rattle.std.specs.Prelude.{◌≡◌};
ghost use Rattle.job_status.specs.Status.{status_code};

/// How a call of `artheap` ended.
#[derive(Clone, Copy, Debug, PartialEq, Eq)]
pub enum Status {
    /// The input was read to its end, and no line was refused.
    Ok,
    /// The input was read to its end, and some reply was a refusal.
    Refused,
    /// The words have no form that is known; nothing was read or written.
    Usage,
    /// The source failed.
    ReadFault,
    /// The sink failed.
    WriteFault,
    /// Memory was wanting.
    OutOfMemory,
    /// The shelf failed.
    ShelfFault,
    /// The input is no dump.
    NotDump,
    /// The input has more bytes than are allowed.
    TooLong,
}

impl Status {
    /// The exit status of the program, from 0 to 8.
    pub fn code(&self) -> u8
        ensures { result ≡ status_code self.now }
    {
        match self {
            Status::Ok => 0,
            Status::Refused => 1,
            Status::Usage => 2,
            Status::ReadFault => 3,
            Status::WriteFault => 4,
            Status::OutOfMemory => 5,
            Status::ShelfFault => 6,
            Status::NotDump => 7,
            Status::TooLong => 8,
        }
    }
}
