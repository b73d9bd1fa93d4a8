//! A piece of the input: it is fed, and the lines that it ends are run.
ghost use Rattle.std.specs.Prelude.{◌≡◌, ◌+◌, ◌<◌, ◌≤◌, ◌^◌, ◌||◌, ◌++◌, ℕ, Bool, List, false, length, take, MatchResult, IfOk, OnOk};
ghost use Rattle.script_run.specs.Outside.{Output, Setting, output_of};
ghost use Rattle.script_run.specs.Progress.{HasRun, StoppedIn};

use crate::Machine;
use crate::line::run_line;
use ah_outside::{Shelf, Sink};
use job_status::Stop;
use script_lang::LineFeed;
use std::alloc::Global;

/// Feeds the first bytes of a piece, and runs the line that they end, if they end one. Tells how many bytes were fed,
/// and whether the reply is a refusal. A dump has this time.
fn feed_line<W: Sink, F: Shelf>(
    alloc: Global,
    piece: &[u8],
    feed: &mut LineFeed,
    time: u64,
    sink: &mut W,
    shelf: &mut F,
    machine: &mut Machine,
) -> Result<(usize, bool), Stop>
    requires some { 0 < length piece.now }
    requires going { (feed.old.whole ≡ false) × (feed.old.ended ≡ false) }
    requires few { feed.old.number < 2 ^ 63 }
    requires finished { (F.shelved shelf.old).unfinished ≡ false }
    ensures going { OnOk result ((feed.new.whole ≡ false) × (feed.new.ended ≡ false)) }
    ensures few { IfOk result (λ r. feed.new.number ≤ feed.old.number + r.0) }
    ensures fed { IfOk result (λ r. (1 ≤ r.0) × (r.0 ≤ length piece.now)) }
    ensures done { (s : Setting) (text : List ℕ) (old : Output) (refused : Bool) → s.time ≡ time →
        HasRun s text feed.old refused old (output_of (W.gained sink.old) (W.fault_count sink.old) (F.shelved shelf.old) (F.fault_count shelf.old) machine.old) →
        let new = output_of (W.gained sink.new) (W.fault_count sink.new) (F.shelved shelf.new) (F.fault_count shelf.new) machine.new in MatchResult result
        (λ r. HasRun s (text ++ take r.0 piece.now) feed.new (refused || r.1) old new)
        (λ stop. StoppedIn s (text ++ piece.now) (length piece.now) stop old new) }
    ensures finished { OnOk result ((F.shelved shelf.new).unfinished ≡ false) }
    ensures never_falls { W.fault_count sink.old ≤ W.fault_count sink.new }
    ensures shelf_never_falls { F.fault_count shelf.old ≤ F.fault_count shelf.new }
{
    let count = feed.feed(piece);
    let refused = run_line(alloc, feed, time, sink, shelf, machine)?;
    Ok((count, refused))
}

/// Feeds a piece, runs the lines that it ends, and tells whether a reply is a refusal.
pub(crate) fn run_piece<W: Sink, F: Shelf>(
    alloc: Global,
    piece: &[u8],
    feed: &mut LineFeed,
    time: u64,
    sink: &mut W,
    shelf: &mut F,
    machine: &mut Machine,
) -> Result<bool, Stop>
    requires going { (feed.old.whole ≡ false) × (feed.old.ended ≡ false) }
    requires few { feed.old.number + length piece.now < 2 ^ 63 }
    requires finished { (F.shelved shelf.old).unfinished ≡ false }
    ensures going { OnOk result ((feed.new.whole ≡ false) × (feed.new.ended ≡ false)) }
    ensures few { OnOk result (feed.new.number ≤ feed.old.number + length piece.now) }
    ensures done { (s : Setting) (text : List ℕ) (old : Output) (refused : Bool) → s.time ≡ time →
        HasRun s text feed.old refused old (output_of (W.gained sink.old) (W.fault_count sink.old) (F.shelved shelf.old) (F.fault_count shelf.old) machine.old) →
        let new = output_of (W.gained sink.new) (W.fault_count sink.new) (F.shelved shelf.new) (F.fault_count shelf.new) machine.new in MatchResult result
        (λ now. HasRun s (text ++ piece.now) feed.new (refused || now) old new)
        (λ stop. StoppedIn s (text ++ piece.now) (length piece.now) stop old new) }
    ensures finished { OnOk result ((F.shelved shelf.new).unfinished ≡ false) }
    ensures never_falls { W.fault_count sink.old ≤ W.fault_count sink.new }
    ensures shelf_never_falls { F.fault_count shelf.old ≤ F.fault_count shelf.new }
{
    let mut fed = 0;
    let mut refused = false;
    while fed < piece.len() {
        let (count, now) = feed_line(alloc, &piece[fed..], feed, time, sink, shelf, machine)?;
        fed += count;
        refused |= now;
    }
    Ok(refused)
}
