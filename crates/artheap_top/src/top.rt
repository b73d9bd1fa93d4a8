ghost use Rattle.std.specs.Prelude.{◌≡◌, ◌≢◌, ◌↔◌, ◌≤◌, ℕ, None, Some, false, map, string_bytes};
ghost use Rattle.ah_outside.specs.Outside.{FaultRose};
ghost use Rattle.heap_world.specs.World.{empty_world};
ghost use Rattle.plain_machine.specs.Worlds.{StandsFor};
ghost use Rattle.job_status.specs.Inputs.{HasFewLeft};
ghost use Rattle.read_job.specs.Ends.{EndedRead, EndsTold, streams_of};
ghost use Rattle.script_run.specs.Ends.{EndedRun, EndsWell};
ghost use Rattle.script_run.specs.Outside.{outside_of, output_of};
ghost use Rattle.artheap_top.specs.Soaking.{EndedSoak, soak_output};
ghost use Rattle.artheap_top.specs.Words.{asks_run, job_of};

use crate::soak::soak;
use crate::words::{Job, job_of};
use crate::{Machine, Status};
use ah_outside::{Shelf, Sink, Source};
use job_status::job_status;
use read_job::{Question, answer_input};
use script_run::run_script;
use std::alloc::Global;

/// Does the job that the words name. The words are those after the program's name.
///
/// `run [--regions N] [--time T]` runs a script of at most 268,435,456 bytes from the source, at most 4,096 bytes at a
/// time. Each line is run as soon as its line feed was taken, or the input ended behind it, and its reply is put to the
/// sink as one piece before the next line is run and before more bytes are taken. A line that dumps first adds two entries
/// to the shelf, `PROCESS.K.hprof` with the dump and `PROCESS.K.map` with the text of its table of addresses. T is the
/// time in the headers of dumps, in milliseconds, and 0 if it isn't given. `read` takes a dump of at most as many bytes, and
/// then puts its listing, or the line that tells its first fault. `path ID` takes a dump likewise, and tells a shortest path
/// from a root to the object with the identifier of 8 digits of base 16. `convert` takes a wide dump likewise, of 1.0.2 or
/// 1.0.3 with identifiers of 4 or 8 bytes, and puts the dump of 1.0.3 with identifiers of 4 bytes that it is converted to.
/// `soak START COUNT [--regions N]` runs the script that a generator makes of two numbers, START up to 2,147,483,647 and
/// COUNT up to 1,000,000, and puts a summary. N is the budget of each process in regions, 1 to 512, and 64 if it isn't
/// given.
///
/// The machine is new. At the end of a job it stands for the world after the lines that were run. Where memory was wanting
/// for a line, that line's process may besides have been collected or, by a fork, promoted; where it was wanting before the
/// first line, the machine may be new. A reading leaves it as it was.
pub fn artheap<S: Source, W: Sink, F: Shelf>(
    alloc: Global,
    words: &[String],
    source: &mut S,
    sink: &mut W,
    shelf: &mut F,
    machine: &mut Machine,
) -> Status
    requires is_new { StandsFor machine.old empty_world }
    requires no_entry { (F.shelved shelf.old).unfinished ≡ false }

    // What a run, a reading, the telling of a path, a conversion and a soak leave, status by status.
    ensures run { (regions time : ℕ) → job_of (map string_bytes words.now) ≡ Some (Job.Run regions time) →
        let old = outside_of (S.left source.old) (S.fault_count source.old) (output_of (W.gained sink.old) (W.fault_count sink.old) (F.shelved shelf.old) (F.fault_count shelf.old) machine.old) in
        let new = outside_of (S.left source.new) (S.fault_count source.new) (output_of (W.gained sink.new) (W.fault_count sink.new) (F.shelved shelf.new) (F.fault_count shelf.new) machine.new) in
        EndedRun (record { budget = regions; time = time }) result old new }
    ensures read { job_of (map string_bytes words.now) ≡ Some Job.Read →
        let old = streams_of (S.left source.old) (S.fault_count source.old) (W.gained sink.old) (W.fault_count sink.old) in
        let new = streams_of (S.left source.new) (S.fault_count source.new) (W.gained sink.new) (W.fault_count sink.new) in
        (machine.new ≡ machine.old) × EndedRead Question.Listing result old new }
    ensures path { (id : ℕ) → job_of (map string_bytes words.now) ≡ Some (Job.Path id) →
        let old = streams_of (S.left source.old) (S.fault_count source.old) (W.gained sink.old) (W.fault_count sink.old) in
        let new = streams_of (S.left source.new) (S.fault_count source.new) (W.gained sink.new) (W.fault_count sink.new) in
        (machine.new ≡ machine.old) × EndedRead (Question.Path id) result old new }
    ensures convert { job_of (map string_bytes words.now) ≡ Some Job.Convert →
        let old = streams_of (S.left source.old) (S.fault_count source.old) (W.gained sink.old) (W.fault_count sink.old) in
        let new = streams_of (S.left source.new) (S.fault_count source.new) (W.gained sink.new) (W.fault_count sink.new) in
        (machine.new ≡ machine.old) × EndedRead Question.Converted result old new }
    ensures soak { (start count regions : ℕ) → job_of (map string_bytes words.now) ≡ Some (Job.Soak start count regions) →
        let old = soak_output (W.gained sink.old) (W.fault_count sink.old) machine.old in
        let new = soak_output (W.gained sink.new) (W.fault_count sink.new) machine.new in
        (source.new ≡ source.old) × EndedSoak regions start count result old new }

    // The words have no form, and nothing was done.
    ensures usage { (result ≡ Status.Usage) ↔ (job_of (map string_bytes words.now) ≡ None) }
    ensures unused { result ≡ Status.Usage → (source.new ≡ source.old) × (sink.new ≡ sink.old) × (machine.new ≡ machine.old) }

    // With words that have a form, a source that tells an input within the limit, and no fault, only want of memory stops
    // a job. A soak has no input.
    ensures run_complete { (regions time : ℕ) → job_of (map string_bytes words.now) ≡ Some (Job.Run regions time) → HasFewLeft (S.left source.old) →
        ¬ FaultRose (S.fault_count source.old) (S.fault_count source.new) → ¬ FaultRose (W.fault_count sink.old) (W.fault_count sink.new) →
        ¬ FaultRose (F.fault_count shelf.old) (F.fault_count shelf.new) → EndsWell result }
    ensures read_complete { job_of (map string_bytes words.now) ≡ Some Job.Read → HasFewLeft (S.left source.old) →
        ¬ FaultRose (S.fault_count source.old) (S.fault_count source.new) → ¬ FaultRose (W.fault_count sink.old) (W.fault_count sink.new) → EndsTold result }
    ensures path_complete { (id : ℕ) → job_of (map string_bytes words.now) ≡ Some (Job.Path id) → HasFewLeft (S.left source.old) →
        ¬ FaultRose (S.fault_count source.old) (S.fault_count source.new) → ¬ FaultRose (W.fault_count sink.old) (W.fault_count sink.new) → EndsTold result }
    ensures convert_complete { job_of (map string_bytes words.now) ≡ Some Job.Convert → HasFewLeft (S.left source.old) →
        ¬ FaultRose (S.fault_count source.old) (S.fault_count source.new) → ¬ FaultRose (W.fault_count sink.old) (W.fault_count sink.new) → EndsTold result }
    ensures soak_complete { (start count regions : ℕ) → job_of (map string_bytes words.now) ≡ Some (Job.Soak start count regions) →
        ¬ FaultRose (W.fault_count sink.old) (W.fault_count sink.new) → EndsWell result }

    // No count of faults falls.
    ensures source_faults { S.fault_count source.old ≤ S.fault_count source.new }
    ensures sink_faults { W.fault_count sink.old ≤ W.fault_count sink.new }
    ensures shelf_faults { F.fault_count shelf.old ≤ F.fault_count shelf.new }

    // A run alone uses the shelf.
    ensures shelf { asks_run (job_of (map string_bytes words.now)) ≡ false → shelf.new ≡ shelf.old }
{
    match job_of(words) {
        None => Status::Usage,
        Some(Job::Run { regions, time }) => {
            job_status(run_script(alloc, regions, time, source, sink, shelf, machine))
        }
        Some(Job::Read) => answer_input(alloc, Question::Listing, source, sink),
        Some(Job::Path { id }) => answer_input(alloc, Question::Path { id }, source, sink),
        Some(Job::Convert) => answer_input(alloc, Question::Converted, source, sink),
        Some(
            Job::Soak {
                start,
                count,
                regions,
            },
        ) => job_status(soak(alloc, start, count, regions, sink, machine)),
    }
}
