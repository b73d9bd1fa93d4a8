//! A script from a source: its lines are run as they come.
ghost use Rattle.std.specs.Prelude.{◌≡◌, ◌≤◌, ℕ, List, MatchResult, OnOk, false};
ghost use Rattle.heap_world.specs.World.{empty_world};
ghost use Rattle.model_numbers.specs.Numbers.{most_regions};
ghost use Rattle.plain_machine.specs.Worlds.{StandsFor};
ghost use Rattle.script_lang.specs.Parts.{lines};
ghost use Rattle.script_run.specs.Ends.{EndedRun};
ghost use Rattle.script_run.specs.Outside.{Output, Setting, outside_of, output_of};
ghost use Rattle.script_run.specs.Progress.{HasRun, HasRunLines, IsGoing, StoppedLast};
ghost use Rattle.job_status.specs.Status.{job_status};

use crate::Machine;
use crate::input::{Progress, run_input};
use crate::line::run_line;
use ah_outside::{Shelf, Sink, Source};
use job_status::Stop;
use model_numbers::INPUT_LIMIT;
use script_lang::LineFeed;
use script_report::scripts_are_isolated;
use std::alloc::Global;

/// Runs the last line, if it came without a line feed, and tells whether a reply of the run was a refusal.
fn run_last<W: Sink, F: Shelf>(
    alloc: Global,
    run: &mut Progress,
    time: u64,
    sink: &mut W,
    shelf: &mut F,
    machine: &mut Machine,
) -> Result<bool, Stop>
    requires going { IsGoing run.old }
    requires finished { (F.shelved shelf.old).unfinished ≡ false }
    ensures done { (s : Setting) (text : List ℕ) (old : Output) → s.time ≡ time →
        HasRun s text run.old.feed run.old.refused old (output_of (W.gained sink.old) (W.fault_count sink.old) (F.shelved shelf.old) (F.fault_count shelf.old) machine.old) →
        let new = output_of (W.gained sink.new) (W.fault_count sink.new) (F.shelved shelf.new) (F.fault_count shelf.new) machine.new in
        MatchResult result (λ refused. HasRunLines s (lines text) refused old new) (λ stop. StoppedLast s text stop old new) }
    ensures finished { OnOk result ((F.shelved shelf.new).unfinished ≡ false) }
    ensures never_falls { W.fault_count sink.old ≤ W.fault_count sink.new }
    ensures shelf_never_falls { F.fault_count shelf.old ≤ F.fault_count shelf.new }
{
    run.feed.end();
    let last = run_line(alloc, &mut run.feed, time, sink, shelf, machine)?;
    Ok(run.refused | last)
}

/// Runs a script from the source on a new machine, and tells whether a reply was a refusal. The entries of its dumps are
/// added to the shelf, with the time in milliseconds in the header of each dump.
pub fn run_script<S: Source, W: Sink, F: Shelf>(
    alloc: Global,
    regions: u32,
    time: u64,
    source: &mut S,
    sink: &mut W,
    shelf: &mut F,
    machine: &mut Machine,
) -> Result<bool, Stop>
    requires is_new { StandsFor machine.old empty_world }
    requires few_regions { (1 ≤ regions) × (regions ≤ most_regions) }
    requires finished { (F.shelved shelf.old).unfinished ≡ false }
    ensures ended { let old = outside_of (S.left source.old) (S.fault_count source.old) (output_of (W.gained sink.old) (W.fault_count sink.old) (F.shelved shelf.old) (F.fault_count shelf.old) machine.old) in
        let new = outside_of (S.left source.new) (S.fault_count source.new) (output_of (W.gained sink.new) (W.fault_count sink.new) (F.shelved shelf.new) (F.fault_count shelf.new) machine.new) in
        EndedRun (record { budget = regions; time = time }) (job_status result) old new }
    ensures source_faults { S.fault_count source.old ≤ S.fault_count source.new }
    ensures sink_faults { W.fault_count sink.old ≤ W.fault_count sink.new }
    ensures shelf_faults { F.fault_count shelf.old ≤ F.fault_count shelf.new }
{
    scripts_are_isolated();
    machine.prepare(regions, 1)?;
    let mut run = Progress {
        feed: LineFeed::new(alloc)?,
        room: INPUT_LIMIT,
        refused: false,
    };
    run_input(alloc, source, &mut run, time, sink, shelf, machine)?;
    run_last(alloc, &mut run, time, sink, shelf, machine)
}
