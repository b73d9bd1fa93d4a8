//! The input: it is taken piece by piece, up to its end or its limit.
ghost use Rattle.std.specs.Prelude.{◌≡◌, ◌<◌, ◌≤◌, ℕ, false, true, length, MatchResult, IfOk, OnOk};
ghost use Rattle.model_numbers.specs.Numbers.{input_limit, piece_bytes};
ghost use Rattle.job_status.specs.Inputs.{NothingLeft};
ghost use Rattle.script_run.specs.Ends.{EndedRun};
ghost use Rattle.script_run.specs.Outside.{Outside, Setting, outside_of, output_of};
ghost use Rattle.script_run.specs.Progress.{HasTaken, IsGoing};
ghost use Rattle.job_status.specs.Status.{stop_status};

use crate::Machine;
use crate::piece::run_piece;
use ah_outside::{Shelf, Sink, Source};
use job_status::Stop;
use model_numbers::PIECE_BYTES;
use script_lang::LineFeed;
use std::alloc::Global;

/// Where a run is: the feed of its lines, how many more bytes may be taken, and whether a reply was a refusal.
#[derive(Drop)]
pub(crate) struct Progress {
    pub(crate) feed: LineFeed,
    pub(crate) room: usize,
    pub(crate) refused: bool,
}

/// Takes a piece of the input and runs the lines that it ends. Tells whether there may be more.
fn take_piece<S: Source, W: Sink, F: Shelf>(
    alloc: Global,
    source: &mut S,
    buf: &mut [u8],
    run: &mut Progress,
    time: u64,
    sink: &mut W,
    shelf: &mut F,
    machine: &mut Machine,
) -> Result<bool, Stop>
    requires some { 0 < length buf.old }
    requires piece { length buf.old ≤ piece_bytes }
    requires going { IsGoing run.old }
    requires room { run.old.room ≤ input_limit }
    requires finished { (F.shelved shelf.old).unfinished ≡ false }
    ensures buf { length buf.new ≡ length buf.old }
    ensures going { OnOk result (IsGoing run.new) }
    ensures room { IfOk result (λ more. (run.new.room ≤ run.old.room) × (more ≡ true → run.new.room < run.old.room)) }
    ensures done { (s : Setting) (old : Outside) → s.time ≡ time →
        HasTaken s run.old old (outside_of (S.left source.old) (S.fault_count source.old) (output_of (W.gained sink.old) (W.fault_count sink.old) (F.shelved shelf.old) (F.fault_count shelf.old) machine.old)) →
        let new = outside_of (S.left source.new) (S.fault_count source.new) (output_of (W.gained sink.new) (W.fault_count sink.new) (F.shelved shelf.new) (F.fault_count shelf.new) machine.new) in MatchResult result
        (λ more. HasTaken s run.new old new × (more ≡ false → NothingLeft new.left))
        (λ stop. EndedRun s (stop_status stop) old new) }
    ensures finished { OnOk result ((F.shelved shelf.new).unfinished ≡ false) }
    ensures source_faults { S.fault_count source.old ≤ S.fault_count source.new }
    ensures sink_faults { W.fault_count sink.old ≤ W.fault_count sink.new }
    ensures shelf_faults { F.fault_count shelf.old ≤ F.fault_count shelf.new }
{
    let Ok(count) = source.take(buf) else {
        return Err(Stop::Read);
    };
    let taken = &buf[..count];
    let within = taken.len().min(run.room);
    run.refused |= run_piece(
        alloc,
        &taken[..within],
        &mut run.feed,
        time,
        sink,
        shelf,
        machine,
    )?;
    if within < taken.len() {
        return Err(Stop::TooLong);
    }
    run.room -= within;
    Ok(count > 0)
}

/// Takes the input and runs its lines as they come, but for a last line without a line feed.
pub(crate) fn run_input<S: Source, W: Sink, F: Shelf>(
    alloc: Global,
    source: &mut S,
    run: &mut Progress,
    time: u64,
    sink: &mut W,
    shelf: &mut F,
    machine: &mut Machine,
) -> Result<(), Stop>
    requires going { IsGoing run.old }
    requires room { run.old.room ≤ input_limit }
    requires finished { (F.shelved shelf.old).unfinished ≡ false }
    ensures going { OnOk result (IsGoing run.new) }
    ensures done { (s : Setting) (old : Outside) → s.time ≡ time →
        HasTaken s run.old old (outside_of (S.left source.old) (S.fault_count source.old) (output_of (W.gained sink.old) (W.fault_count sink.old) (F.shelved shelf.old) (F.fault_count shelf.old) machine.old)) →
        let new = outside_of (S.left source.new) (S.fault_count source.new) (output_of (W.gained sink.new) (W.fault_count sink.new) (F.shelved shelf.new) (F.fault_count shelf.new) machine.new) in MatchResult result
        (λ _. HasTaken s run.new old new × NothingLeft new.left)
        (λ stop. EndedRun s (stop_status stop) old new) }
    ensures finished { OnOk result ((F.shelved shelf.new).unfinished ≡ false) }
    ensures source_faults { S.fault_count source.old ≤ S.fault_count source.new }
    ensures sink_faults { W.fault_count sink.old ≤ W.fault_count sink.new }
    ensures shelf_faults { F.fault_count shelf.old ≤ F.fault_count shelf.new }
{
    let mut buf = [0; PIECE_BYTES];
    while take_piece(alloc, source, &mut buf, run, time, sink, shelf, machine)? {}
    Ok(())
}
