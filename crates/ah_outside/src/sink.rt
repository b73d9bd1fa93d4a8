ghost use Rattle.std.specs.Prelude.{◌≡◌, ℕ, ◌<◌, ◌≤◌, List, Option, length, take, IfOk, OnOk, OnErr};
ghost use Rattle.ah_outside.specs.Outside.{FaultRose, Gained, GainedPrefix};

use crate::Failed;

/// Where bytes go.
pub trait Sink {
    /// The bytes that the sink has taken, in order, or `None` where it doesn't tell.
    ghost gained: { Self → Option (List ℕ) };

    /// How many faults there have been.
    ghost fault_count: { Self → ℕ };

    /// The count of faults, which never falls.
    fn faults(&self) -> u64
        ensures { result ≡ fault_count self.now };

    /// Takes the first bytes of the piece, and tells how many. A 0 for a piece that isn't empty is a fault.
    /// After `Failed` some first bytes of the piece may have been taken.
    fn put(&mut self, piece: &[u8]) -> Result<usize, Failed>
        ensures within { IfOk result (λ n. n ≤ length piece.now) }
        ensures took { IfOk result (λ n. Gained (gained self.old) (take n piece.now) (gained self.new)) }
        ensures stuck { IfOk result (λ n. n ≡ 0 → 0 < length piece.now → FaultRose (fault_count self.old) (fault_count self.new)) }
        ensures failed { OnErr result (GainedPrefix (gained self.old) piece.now (gained self.new)) }
        ensures cause { OnErr result (FaultRose (fault_count self.old) (fault_count self.new)) }
        ensures never_falls { fault_count self.old ≤ fault_count self.new };
}

/// Puts the whole piece, in as many calls as the sink wants. After `Failed` some first bytes of the piece
/// may have been taken.
pub fn put_all<W: Sink>(sink: &mut W, piece: &[u8]) -> Result<(), Failed>
    ensures ok { OnOk result (Gained (W.gained sink.old) piece.now (W.gained sink.new)) }
    ensures failed { OnErr result (GainedPrefix (W.gained sink.old) piece.now (W.gained sink.new)) }
    ensures cause { OnErr result (FaultRose (W.fault_count sink.old) (W.fault_count sink.new)) }
    ensures never_falls { W.fault_count sink.old ≤ W.fault_count sink.new }
{
    let mut done = 0;
    while done < piece.len() {
        let taken = sink.put(&piece[done..])?;
        if taken == 0 {
            return Err(Failed);
        }
        done += taken;
    }
    Ok(())
}
