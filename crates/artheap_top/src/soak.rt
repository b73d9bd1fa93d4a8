//! A script that is generated from two numbers, and its summary.
ghost use Rattle.std.specs.Prelude.{◌≡◌, ◌+◌, ◌<◌, ◌≤◌, ◌^◌, ◌++◌, ◌∷◌, [], ℕ, List, IfOk, OnErr, OnOk, length};
ghost use Rattle.heap_world.specs.World.{empty_world, first_world};
ghost use Rattle.plain_machine.specs.Worlds.{StandsAmong, StandsFor};
ghost use Rattle.script_make.specs.Boot.{boot_lines};
ghost use Rattle.script_make.specs.Script.{first_state, made_lines, soak_lines};
ghost use Rattle.model_numbers.specs.Numbers.{line_limit, most_regions};
ghost use Rattle.job_status.specs.Status.{job_status};
ghost use Rattle.script_report.specs.Wanting.{left_behind};
ghost use Rattle.artheap_top.specs.Soaking.{EndedSoak, HasSoaked, IsWithinLines, LeftBetween, soak_output};

use crate::Machine;
use crate::summary::Summary;
use crate::tally::Tally;
use ah_outside::{Failed, Sink};
use job_status::Stop;
use script_lang::Fed;
use script_make::{MakeState, boot_line, line_of};
use script_run::reply_to;
use std::alloc::{AllocError, Global};

/// Runs the line behind those that were counted, and counts it.
fn run_line(
    alloc: Global,
    line: &[u8],
    tally: &mut Tally,
    machine: &mut Machine,
) -> Result<(), AllocError>
    requires short { length line.now ≤ line_limit }
    requires few { tally.old.lines < 2 ^ 63 }
    requires within { IsWithinLines tally.old }
    ensures lines { OnOk result (tally.new.lines ≡ tally.old.lines + 1) }
    ensures within { OnOk result (IsWithinLines tally.new) }
    ensures done { (budget : ℕ) (before : List (List ℕ)) → HasSoaked budget before tally.old machine.old →
        OnOk result (HasSoaked budget (before ++ line.now ∷ []) tally.new machine.new) }
    ensures left { (budget : ℕ) (before : List (List ℕ)) → HasSoaked budget before tally.old machine.old →
        OnErr result (StandsAmong machine.new (left_behind budget before line.now)) }
{
    let fed = Fed::Line {
        number: tally.lines + 1,
        bytes: line,
    };
    let reply = reply_to(alloc, machine, &fed)?;
    tally.count(reply);
    Ok(())
}

/// Runs the fixed lines.
fn run_fixed(alloc: Global, tally: &mut Tally, machine: &mut Machine) -> Result<(), AllocError>
    requires few { tally.old.lines < 2 ^ 62 }
    requires within { IsWithinLines tally.old }
    ensures lines { OnOk result (tally.new.lines ≡ tally.old.lines + 11) }
    ensures within { OnOk result (IsWithinLines tally.new) }
    ensures done { (budget : ℕ) (before : List (List ℕ)) → HasSoaked budget before tally.old machine.old →
        OnOk result (HasSoaked budget (before ++ boot_lines) tally.new machine.new) }
    ensures left { (budget : ℕ) (before : List (List ℕ)) → HasSoaked budget before tally.old machine.old →
        OnErr result (LeftBetween budget before boot_lines machine.new) }
{
    let mut buf = [0; 96];
    let mut k = 0;
    while let Some(end) = boot_line(k, &mut buf) {
        run_line(alloc, &buf[..end], tally, machine)?;
        k += 1;
    }
    Ok(())
}

/// Runs the made lines of a start, as many as the count says.
fn run_made(
    alloc: Global,
    start: u32,
    count: u32,
    tally: &mut Tally,
    machine: &mut Machine,
) -> Result<(), AllocError>
    requires small { start < 2147483648 }
    requires few { tally.old.lines < 2 ^ 62 }
    requires within { IsWithinLines tally.old }
    ensures lines { OnOk result (tally.new.lines ≡ tally.old.lines + count) }
    ensures within { OnOk result (IsWithinLines tally.new) }
    ensures done { (budget : ℕ) (before : List (List ℕ)) → HasSoaked budget before tally.old machine.old →
        OnOk result (HasSoaked budget (before ++ made_lines count (first_state start)) tally.new machine.new) }
    ensures left { (budget : ℕ) (before : List (List ℕ)) → HasSoaked budget before tally.old machine.old →
        OnErr result (LeftBetween budget before (made_lines count (first_state start)) machine.new) }
{
    let mut buf = [0; 64];
    let mut state = MakeState { x: start, forks: 0 };
    for _ in 0..count {
        let (end, next) = line_of(state, &mut buf);
        run_line(alloc, &buf[..end], tally, machine)?;
        state = next;
    }
    Ok(())
}

/// Runs the script that the generator makes of a start and a count, and counts its lines.
fn run_script(
    alloc: Global,
    start: u32,
    count: u32,
    machine: &mut Machine,
) -> Result<Tally, AllocError>
    requires small { start < 2147483648 }
    ensures done { (budget : ℕ) → StandsFor machine.old (first_world budget 1) →
        IfOk result (λ tally. HasSoaked budget (soak_lines start count) tally machine.new) }
    ensures left { (budget : ℕ) → StandsFor machine.old (first_world budget 1) →
        OnErr result (LeftBetween budget [] (soak_lines start count) machine.new) }
{
    let mut tally = Tally::new();
    run_fixed(alloc, &mut tally, machine)?;
    run_made(alloc, start, count, &mut tally, machine)?;
    Ok(tally)
}

/// Runs the script that the generator makes of a start and a count on a new machine, line by line, and puts its summary.
/// Tells whether a reply was a refusal.
pub(crate) fn soak<W: Sink>(
    alloc: Global,
    start: u32,
    count: u32,
    regions: u32,
    sink: &mut W,
    machine: &mut Machine,
) -> Result<bool, Stop>
    requires is_new { StandsFor machine.old empty_world }
    requires possible { (start ≤ 2147483647) × (count ≤ 1000000) × (1 ≤ regions) × (regions ≤ most_regions) }
    ensures ended { let old = soak_output (W.gained sink.old) (W.fault_count sink.old) machine.old in
        let new = soak_output (W.gained sink.new) (W.fault_count sink.new) machine.new in
        EndedSoak regions start count (job_status result) old new }
    ensures never_falls { W.fault_count sink.old ≤ W.fault_count sink.new }
{
    machine.prepare(regions, 1)?;
    let tally = run_script(alloc, start, count, machine)?;
    let summary = Summary::new(start, count, tally, machine)?;
    match summary.put(sink) {
        Ok(()) => Ok(tally.refused > 0),
        Err(Failed) => Err(Stop::Write),
    }
}
