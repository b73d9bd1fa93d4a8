//! The summary of a soak.
ghost use Rattle.std.specs.Prelude.{◌≡◌, ◌+◌, ◌≤◌, ◌++◌, ℕ, List, IfOk, OnOk, OnErr, codes, length, take};
ghost use Rattle.ah_outside.specs.Outside.{FaultRose, Gained, GainedPrefix};
ghost use Rattle.artheap_top.specs.Soaking.{HasSoaked};
ghost use Rattle.artheap_top.specs.Summary.{summary_of, summary_text};

use crate::Machine;
use crate::tally::Tally;
use ah_outside::{Failed, Sink, put_all};
use itoa::Integer;
use script_lang::{put, put_number};
use std::alloc::AllocError;

/// What a soak tells at its end.
#[derive(Clone, Copy)]
pub(crate) struct Summary {
    /// The numbers that the script was made of.
    start: u32,
    count: u32,
    /// What was counted of its lines.
    lines: u64,
    refused: u64,
    collections: u64,
    /// What lives in the machine after them.
    processes: usize,
    objects: u128,
    frames: u64,
}

/// Writes a word and a number as a line behind the first `at` bytes, and tells where it ends. The word has the blank
/// behind it.
fn put_line<I: Integer>(buf: &mut [u8; 512], at: usize, word: &[u8], number: I) -> usize
    requires { at + length word.now + 41 ≤ 512 }
    ensures written { take result buf.new ≡ take at buf.old ++ (word.now ++ I.text number ++ codes "\n") }
    ensures end { result ≤ at + length word.now + 41 }
{
    let at = put_number(buf, at, word, number);
    put(buf, at, b"\n")
}

impl Summary {
    ghost use Rattle.std.specs.Prelude.{◌≡◌, ◌≤◌, ℕ, List, IfOk, OnOk, OnErr, take};
    ghost use Rattle.ah_outside.specs.Outside.{FaultRose, Gained, GainedPrefix};
    ghost use Rattle.artheap_top.specs.Soaking.{HasSoaked};
    ghost use Rattle.artheap_top.specs.Summary.{summary_of, summary_text};

    /// The summary of lines that were counted, as the machine stands after them. To count frames takes memory.
    pub(crate) fn new(
        start: u32,
        count: u32,
        tally: Tally,
        machine: &Machine,
    ) -> Result<Summary, AllocError>
        ensures { (budget : ℕ) (ls : List (List ℕ)) → HasSoaked budget ls tally machine.now →
            IfOk result (λ s. s ≡ summary_of budget start count ls) }
    {
        Ok(Summary {
            start,
            count,
            lines: tally.lines,
            refused: tally.refused,
            collections: tally.collections,
            processes: machine.live_count(),
            objects: machine.objects(),
            frames: machine.frames_used()?,
        })
    }

    /// Writes the text into the front of `buf`, and tells how many bytes it has.
    fn text(&self, buf: &mut [u8; 512]) -> usize
        ensures text { take result buf.new ≡ summary_text self.now }
        ensures fits { result ≤ 512 }
    {
        let at = put_number(buf, 0, b"soak ", self.start);
        let at = put_number(buf, at, b" ", self.count);
        let at = put(buf, at, b"\n");
        let at = put_line(buf, at, b"lines ", self.lines);
        let at = put_line(buf, at, b"refused ", self.refused);
        let at = put_line(buf, at, b"collections ", self.collections);
        let at = put_line(buf, at, b"processes ", self.processes);
        let at = put_line(buf, at, b"objects ", self.objects);
        put_line(buf, at, b"frames ", self.frames)
    }

    /// Puts the text.
    pub(crate) fn put<W: Sink>(&self, sink: &mut W) -> Result<(), Failed>
        ensures ok { OnOk result (Gained (W.gained sink.old) (summary_text self.now) (W.gained sink.new)) }
        ensures failed { OnErr result (GainedPrefix (W.gained sink.old) (summary_text self.now) (W.gained sink.new)) }
        ensures cause { OnErr result (FaultRose (W.fault_count sink.old) (W.fault_count sink.new)) }
        ensures never_falls { W.fault_count sink.old ≤ W.fault_count sink.new }
    {
        let mut buf = [0; 512];
        let end = self.text(&mut buf);
        put_all(sink, &buf[..end])
    }
}
