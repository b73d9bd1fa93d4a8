//! One line: its command, its dump, its reply, and the report's line.
ghost use Rattle.std.specs.Prelude.{◌≡◌, ◌≢◌, ◌+◌, ◌-◌, ◌<◌, ◌≤◌, ◌^◌, ◌||◌, ◌++◌, ◌∷◌, [], ℕ, Bool, List, Ok, true, false, length, MatchResult, IfOk, OnOk, OnErr};
ghost use Rattle.ah_outside.specs.Outside.{FaultRose, Gained, GainedPrefix};
ghost use Rattle.heap_world.specs.World.{World};
ghost use Rattle.plain_machine.specs.Worlds.{StandsAmong, StandsFor};
ghost use Rattle.script_lang.specs.FedLines.{fed_line};
ghost use Rattle.script_lang.specs.Feeding.{at_next, kept_line};
ghost use Rattle.script_lang.specs.Texts.{reply_line};
ghost use Rattle.hprof_write.specs.Outcomes.{IfShelfFault};
ghost use Rattle.script_report.specs.Dumps.{Dumping};
ghost use Rattle.script_report.specs.Report.{has_refusal, report_of, step_line, with_answer};
ghost use Rattle.script_report.specs.Wanting.{line_left};
ghost use Rattle.script_run.specs.Dumps.{HasShelved, IsAsked, StoppedShelving};
ghost use Rattle.script_run.specs.Outside.{Output, Setting, output_of};
ghost use Rattle.script_run.specs.Progress.{dump_stop, HasRunLines, RanLine, StoppedBehind, StoppedLine};
ghost use Rattle.world_laws.specs.Labels.{AreEarlier};

use crate::Machine;
use crate::dumped::{Dumped, add_entries, dumped_by};
use ah_outside::{Failed, Shelf, Sink, put_all};
use hprof_write::DumpError;
use job_status::Stop;
use model_numbers::LINE_LIMIT;
use script_lang::{Fed, LineError, LineFeed, Refusal, Reply, read_line, reply_text};
use std::alloc::{AllocError, Global};

/// What a line came to: its reply, if it has one, and the dump that it asks for, if it asks for one.
#[derive(Clone, Copy)]
pub(crate) struct Answered {
    pub reply: Option<Reply>,
    pub dumped: Option<Dumped>,
}

impl Answered {
    /// A reply alone, or none.
    fn told(reply: Option<Reply>) -> Answered
        ensures { result ≡ record { reply = reply; dumped = None } }
    {
        Answered {
            reply,
            dumped: None,
        }
    }
}

/// Reads a line that came and runs its command, and gives what it came to. The dump that it asks for isn't written yet.
/// The line's number is greater than those of all labels. After want of memory the machine stands for one of the worlds
/// that the line may leave.
fn step_line(alloc: Global, machine: &mut Machine, fed: &Fed<'_>) -> Result<Answered, AllocError>
    ensures reply { (w : World) (line : List ℕ) → StandsFor machine.old w → AreEarlier (fed_line fed.now).number w → (fed_line fed.now).kept ≡ kept_line line →
        IfOk result (λ answered. answered.reply ≡ (step_line w (fed_line fed.now).number line).reply) }
    ensures dumped { (w : World) (line : List ℕ) → StandsFor machine.old w → AreEarlier (fed_line fed.now).number w → (fed_line fed.now).kept ≡ kept_line line →
        IfOk result (λ answered. let d = step_line w (fed_line fed.now).number line in IsAsked answered.dumped d.dumps d.world) }
    ensures world { (w : World) (line : List ℕ) → StandsFor machine.old w → AreEarlier (fed_line fed.now).number w → (fed_line fed.now).kept ≡ kept_line line →
        OnOk result (StandsFor machine.new (step_line w (fed_line fed.now).number line).world) }
    ensures left { (w : World) (line : List ℕ) → StandsFor machine.old w → AreEarlier (fed_line fed.now).number w → (fed_line fed.now).kept ≡ kept_line line →
        OnErr result (StandsAmong machine.new (line_left w (fed_line fed.now).number line)) }
{
    let Fed::Line { number, bytes } = *fed else {
        return Ok(Answered::told(Some(Reply::Refused(Refusal::LineTooLong))));
    };
    if bytes.len() > LINE_LIMIT {
        return Ok(Answered::told(Some(Reply::Refused(Refusal::LineTooLong))));
    }
    match read_line(alloc, bytes) {
        Ok(Some(command)) => {
            let reply = machine.step(number, &command)?;
            let dumped = dumped_by(&command, &reply);
            Ok(Answered {
                reply: Some(reply),
                dumped,
            })
        }
        Ok(None) => Ok(Answered::told(None)),
        Err(LineError::Bad) => Ok(Answered::told(Some(Reply::Refused(Refusal::BadLine)))),
        Err(LineError::OutOfMemory) => Err(AllocError),
    }
}

/// Reads a line that came and runs its command, and gives its reply, if it has one. A dump that it asks for isn't written.
/// The line's number is greater than those of all labels. After want of memory the machine stands for one of the worlds
/// that the line may leave.
pub fn reply_to(
    alloc: Global,
    machine: &mut Machine,
    fed: &Fed<'_>,
) -> Result<Option<Reply>, AllocError>
    ensures reply { (w : World) (line : List ℕ) → StandsFor machine.old w → AreEarlier (fed_line fed.now).number w → (fed_line fed.now).kept ≡ kept_line line →
        IfOk result (λ reply. reply ≡ (step_line w (fed_line fed.now).number line).reply) }
    ensures world { (w : World) (line : List ℕ) → StandsFor machine.old w → AreEarlier (fed_line fed.now).number w → (fed_line fed.now).kept ≡ kept_line line →
        OnOk result (StandsFor machine.new (step_line w (fed_line fed.now).number line).world) }
    ensures left { (w : World) (line : List ℕ) → StandsFor machine.old w → AreEarlier (fed_line fed.now).number w → (fed_line fed.now).kept ≡ kept_line line →
        OnErr result (StandsAmong machine.new (line_left w (fed_line fed.now).number line)) }
{
    match step_line(alloc, machine, fed) {
        Ok(answered) => Ok(answered.reply),
        Err(error) => Err(error),
    }
}

/// The number of a line that came.
fn number_of(fed: &Fed<'_>) -> u64
    ensures { result ≡ (fed_line fed.now).number }
{
    match *fed {
        Fed::Line { number, .. } => number,
        Fed::TooLong { number } => number,
    }
}

/// Puts the report's line for a reply.
fn put_reply<W: Sink>(sink: &mut W, number: u64, reply: &Reply) -> Result<(), Failed>
    ensures ok { OnOk result (Gained (W.gained sink.old) (reply_line number reply.now) (W.gained sink.new)) }
    ensures failed { OnErr result (GainedPrefix (W.gained sink.old) (reply_line number reply.now) (W.gained sink.new)) }
    ensures cause { OnErr result (FaultRose (W.fault_count sink.old) (W.fault_count sink.new)) }
    ensures never_falls { W.fault_count sink.old ≤ W.fault_count sink.new }
{
    let mut buf = [0; 512];
    let end = reply_text(number, reply, &mut buf);
    put_all(sink, &buf[..end])
}

/// Why a run stops whose dump wasn't written whole.
fn dump_stop(e: DumpError) -> Stop
    ensures { result ≡ dump_stop e }
{
    match e {
        DumpError::ShelfFault => Stop::Shelf,
        DumpError::OutOfMemory => Stop::Memory,
    }
}

/// Adds the entries of the dump that a line asked for, if it asked for one.
fn add_asked<F: Shelf>(
    alloc: Global,
    machine: &mut Machine,
    asked: &Option<Dumped>,
    time: u64,
    shelf: &mut F,
) -> Result<(), DumpError>
    requires finished { (F.shelved shelf.old).unfinished ≡ false }
    ensures done { (w : World) (ds : List Dumping) → StandsFor machine.old w → IsAsked asked.now ds w → MatchResult result
        (λ _. HasShelved time ds (F.shelved shelf.old) (F.shelved shelf.new))
        (λ _. StoppedShelving time ds (F.shelved shelf.old) (F.shelved shelf.new)) }
    ensures finished { OnOk result ((F.shelved shelf.new).unfinished ≡ false) }
    ensures stands { (w : World) → StandsFor machine.old w → StandsFor machine.new w }
    ensures cause { IfShelfFault result (FaultRose (F.fault_count shelf.old) (F.fault_count shelf.new)) }
    ensures never_falls { F.fault_count shelf.old ≤ F.fault_count shelf.new }
{
    match asked {
        Some(dumped) => add_entries(alloc, machine, dumped, time, shelf),
        None => Ok(()),
    }
}

/// Puts the reply of a line, if it has one, and tells whether that is a refusal.
fn put_answer<W: Sink>(sink: &mut W, number: u64, reply: &Option<Reply>) -> Result<bool, Stop>
    ensures put { let d = with_answer number reply.now [] in MatchResult result
        (λ refused. Gained (W.gained sink.old) (report_of d) (W.gained sink.new) × (has_refusal d ≡ refused))
        (λ stop. (stop ≡ Stop.Write) × (report_of d ≢ []) × GainedPrefix (W.gained sink.old) (report_of d) (W.gained sink.new) × FaultRose (W.fault_count sink.old) (W.fault_count sink.new)) }
    ensures never_falls { W.fault_count sink.old ≤ W.fault_count sink.new }
{
    match reply {
        None => Ok(false),
        Some(reply) => match put_reply(sink, number, reply) {
            Ok(()) => Ok(reply.is_refused()),
            Err(Failed) => Err(Stop::Write),
        },
    }
}

/// Runs a line that came, writes its dump and puts its reply, and tells whether that is a refusal.
fn answer_line<W: Sink, F: Shelf>(
    alloc: Global,
    fed: &Fed<'_>,
    time: u64,
    sink: &mut W,
    shelf: &mut F,
    machine: &mut Machine,
) -> Result<bool, Stop>
    requires finished { (F.shelved shelf.old).unfinished ≡ false }
    ensures done { (w : World) (line : List ℕ) → StandsFor machine.old w → AreEarlier (fed_line fed.now).number w → (fed_line fed.now).kept ≡ kept_line line →
        let n = (fed_line fed.now).number in
        let d = step_line w n line in
        let old = output_of (W.gained sink.old) (W.fault_count sink.old) (F.shelved shelf.old) (F.fault_count shelf.old) machine.old in
        let new = output_of (W.gained sink.new) (W.fault_count sink.new) (F.shelved shelf.new) (F.fault_count shelf.new) machine.new in
        MatchResult result (λ refused. RanLine time n d refused old new) (λ stop. StoppedLine stop time n d (line_left w n line) old new) }
    ensures finished { OnOk result ((F.shelved shelf.new).unfinished ≡ false) }
    ensures never_falls { W.fault_count sink.old ≤ W.fault_count sink.new }
    ensures shelf_never_falls { F.fault_count shelf.old ≤ F.fault_count shelf.new }
{
    let answered = step_line(alloc, machine, fed)?;
    match add_asked(alloc, machine, &answered.dumped, time, shelf) {
        Ok(()) => put_answer(sink, number_of(fed), &answered.reply),
        Err(e) => Err(dump_stop(e)),
    }
}

/// Runs the line that a feed has whole, writes its dump and puts its reply, begins the next, and tells whether the reply
/// is a refusal. Does nothing where no line is whole.
pub(crate) fn run_line<W: Sink, F: Shelf>(
    alloc: Global,
    feed: &mut LineFeed,
    time: u64,
    sink: &mut W,
    shelf: &mut F,
    machine: &mut Machine,
) -> Result<bool, Stop>
    requires few { feed.old.number < 2 ^ 64 - 1 }
    requires finished { (F.shelved shelf.old).unfinished ≡ false }
    ensures none { feed.old.whole ≡ false → (result ≡ Ok false) × (feed.new ≡ feed.old) × (machine.new ≡ machine.old) × (sink.new ≡ sink.old) × (shelf.new ≡ shelf.old) }
    ensures next { feed.old.whole ≡ true → OnOk result (feed.new ≡ at_next feed.old) }
    ensures done { (s : Setting) (before : List (List ℕ)) (line : List ℕ) (old : Output) (refused : Bool) → feed.old.whole ≡ true → s.time ≡ time →
        feed.old.number ≡ 1 + length before → feed.old.kept ≡ kept_line line →
        HasRunLines s before refused old (output_of (W.gained sink.old) (W.fault_count sink.old) (F.shelved shelf.old) (F.fault_count shelf.old) machine.old) →
        let new = output_of (W.gained sink.new) (W.fault_count sink.new) (F.shelved shelf.new) (F.fault_count shelf.new) machine.new in
        MatchResult result (λ now. HasRunLines s (before ++ line ∷ []) (refused || now) old new) (λ stop. StoppedBehind stop s before line old new) }
    ensures finished { OnOk result ((F.shelved shelf.new).unfinished ≡ false) }
    ensures never_falls { W.fault_count sink.old ≤ W.fault_count sink.new }
    ensures shelf_never_falls { F.fault_count shelf.old ≤ F.fault_count shelf.new }
{
    let Some(fed) = feed.line() else {
        return Ok(false);
    };
    let refused = answer_line(alloc, &fed, time, sink, shelf, machine)?;
    feed.next();
    Ok(refused)
}
