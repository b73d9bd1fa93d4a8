//! The job: the input is taken, and what is to be told of it is put.
ghost use Rattle.std.specs.Prelude.{◌≡◌, ◌≤◌};
ghost use Rattle.ah_outside.specs.Outside.{FaultRose};
ghost use Rattle.job_status.specs.Inputs.{HasFewLeft};
ghost use Rattle.read_job.specs.Ends.{EndedRead, EndsTold, streams_of};
ghost use Rattle.read_job.specs.Telling.{read_status};

use crate::Question;
use crate::input::take_input;
use crate::told::tell;
use ah_outside::{Sink, Source};
use job_status::{Status, Stop};
use std::alloc::Global;

/// The status of a reading that tells whether the text is what was asked, or why it stopped.
fn read_status(ended: Result<bool, Stop>) -> Status
    ensures { result ≡ read_status ended }
{
    match ended {
        Ok(true) => Status::Ok,
        Ok(false) => Status::NotDump,
        Err(stop) => stop.status(),
    }
}

/// Takes the input, and puts what is to be told of it. Tells whether it is what was asked.
fn take_and_tell<S: Source, W: Sink>(
    alloc: Global,
    question: Question,
    source: &mut S,
    sink: &mut W,
) -> Result<bool, Stop>
    ensures ended { let old = streams_of (S.left source.old) (S.fault_count source.old) (W.gained sink.old) (W.fault_count sink.old) in
        let new = streams_of (S.left source.new) (S.fault_count source.new) (W.gained sink.new) (W.fault_count sink.new) in
        EndedRead question (read_status result) old new }
    ensures source_faults { S.fault_count source.old ≤ S.fault_count source.new }
    ensures sink_faults { W.fault_count sink.old ≤ W.fault_count sink.new }
{
    let text = take_input(alloc, source)?;
    tell(alloc, question, text, sink)
}

/// Reads a dump of at most 268,435,456 bytes from the source, at most 4,096 bytes at a time, and puts what is asked of it:
/// its listing, or a shortest path from a root to an object. For a conversion the dump is a wide one, of 1.0.2 or 1.0.3
/// with identifiers of 4 or 8 bytes, and the bytes of the dump that it is converted to are put. Where the input is no such
/// dump, the one line `not a dump: Hk at OFFSET` is put, which tells its first fault by the fault's number, H1 to H6, and
/// offset. H7 is told of a wide dump with the offset of its first instance without a layout. Nothing is put before the
/// whole input was taken. The input is kept once, and besides it the dump's records while they are read; for a path then
/// its graph, and for a conversion the records of both dumps.
pub fn answer_input<S: Source, W: Sink>(
    alloc: Global,
    question: Question,
    source: &mut S,
    sink: &mut W,
) -> Status
    // What it leaves, status by status.
    ensures ended { let old = streams_of (S.left source.old) (S.fault_count source.old) (W.gained sink.old) (W.fault_count sink.old) in
        let new = streams_of (S.left source.new) (S.fault_count source.new) (W.gained sink.new) (W.fault_count sink.new) in
        EndedRead question result old new }

    // Where the source tells an input within the limit, and there is no fault, only want of memory stops it.
    ensures complete { HasFewLeft (S.left source.old) → ¬ FaultRose (S.fault_count source.old) (S.fault_count source.new) →
        ¬ FaultRose (W.fault_count sink.old) (W.fault_count sink.new) → EndsTold result }

    // No count of faults falls.
    ensures source_faults { S.fault_count source.old ≤ S.fault_count source.new }
    ensures sink_faults { W.fault_count sink.old ≤ W.fault_count sink.new }
{
    read_status(take_and_tell(alloc, question, source, sink))
}
