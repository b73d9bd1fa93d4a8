//! What is put of a text: what is asked of it, and else the line that tells its fault.
ghost use Rattle.std.specs.Prelude.{◌≡◌, ◌≢◌, ◌≤◌, MatchResult, None};
ghost use Rattle.ah_outside.specs.Outside.{Gained};
ghost use Rattle.hprof_list.specs.Putting.{Puts};
ghost use Rattle.hprof_records.specs.Dump.{AreRecords};
ghost use Rattle.read_job.specs.Ends.{line_of, numbered_line};
ghost use Rattle.read_job.specs.Telling.{StoppedDump, StoppedFault, StoppedTelling, Told, told_of};

use crate::Question;
use crate::dumps::dump_of;
use ah_outside::{Failed, Sink};
use hprof_bytes::write_bytes;
use hprof_list::{put_pieces, write_listing};
use hprof_read::Dump;
use itoa::Buffer;
use job_status::Stop;
use root_paths::{PathError, find_path};
use std::alloc::Global;

/// Puts the line that tells a fault by its number and its offset.
fn put_numbered<W: Sink>(sink: &mut W, number: u8, offset: u64) -> Result<(), Failed>
    ensures { Puts W.gained W.fault_count sink.old (numbered_line number offset) sink.new result }
{
    let mut number_text = Buffer::new();
    let mut offset_text = Buffer::new();
    put_pieces(
        sink,
        &[
            b"not a dump: H",
            number_text.format(number).as_bytes(),
            b" at ",
            offset_text.format(offset).as_bytes(),
            b"\n",
        ],
    )
}

/// Puts the line that tells a fault's number and offset. Where they aren't there, memory was wanting.
fn put_fault<W: Sink>(sink: &mut W, fault: Option<(u8, u64)>) -> Result<(), Stop>
    ensures told { MatchResult result
        (λ _. (fault ≢ None) × Gained (W.gained sink.old) (line_of fault) (W.gained sink.new))
        (λ stop. StoppedFault stop fault (W.gained sink.old) (W.fault_count sink.old) (W.gained sink.new) (W.fault_count sink.new)) }
    ensures never_falls { W.fault_count sink.old ≤ W.fault_count sink.new }
{
    let Some((number, offset)) = fault else {
        return Err(Stop::Memory);
    };
    match put_numbered(sink, number, offset) {
        Ok(()) => Ok(()),
        Err(Failed) => Err(Stop::Write),
    }
}

/// Puts what is asked of a dump.
fn tell_dump<W: Sink>(
    alloc: Global,
    question: Question,
    dump: &Dump,
    sink: &mut W,
) -> Result<(), Stop>
    requires { AreRecords dump.now.top }
    ensures told { let d = dump.now in MatchResult result
        (λ _. Gained (W.gained sink.old) (told_of question d.time d.top) (W.gained sink.new))
        (λ stop. StoppedDump stop (told_of question d.time d.top) (W.gained sink.old) (W.fault_count sink.old) (W.gained sink.new) (W.fault_count sink.new)) }
    ensures never_falls { W.fault_count sink.old ≤ W.fault_count sink.new }
{
    match question {
        Question::Listing => match write_listing(dump, sink) {
            Ok(()) => Ok(()),
            Err(Failed) => Err(Stop::Write),
        },
        Question::Path { id } => match find_path(alloc, dump, id, sink) {
            Ok(()) => Ok(()),
            Err(PathError::SinkFault) => Err(Stop::Write),
            Err(PathError::OutOfMemory) => Err(Stop::Memory),
        },
        Question::Converted => match write_bytes(dump, sink) {
            Ok(()) => Ok(()),
            Err(Failed) => Err(Stop::Write),
        },
    }
}

/// Puts what is asked of a text, or the line that tells its fault. Tells whether it was what was asked. The text is let
/// go before its dump is told.
pub(crate) fn tell<W: Sink>(
    alloc: Global,
    question: Question,
    text: Vec<u8>,
    sink: &mut W,
) -> Result<bool, Stop>
    ensures told { MatchResult result
        (λ is_dump. Told question is_dump text.items (W.gained sink.old) (W.gained sink.new))
        (λ stop. StoppedTelling question stop text.items (W.gained sink.old) (W.fault_count sink.old) (W.gained sink.new) (W.fault_count sink.new)) }
    ensures never_falls { W.fault_count sink.old ≤ W.fault_count sink.new }
{
    match dump_of(alloc, question, text) {
        Ok(dump) => {
            tell_dump(alloc, question, &dump, sink)?;
            Ok(true)
        }
        Err(fault) => {
            put_fault(sink, fault)?;
            Ok(false)
        }
    }
}
