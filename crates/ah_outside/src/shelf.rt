ghost use Rattle.std.specs.Prelude.{◌≡◌, ◌⊎◌, ℕ, ◌≤◌, List, true, false, take, IfSome, OnOk, OnErr};
ghost use Rattle.ah_outside.specs.Outside.{FaultRose, Shelved, Begun, Appended, Closed, is_last_open};

use crate::Failed;

/// Where named entries go, one after the other. At most the last entry is unfinished.
pub trait Shelf {
    /// The entries in order, where the shelf tells them, and whether the last one is unfinished.
    ghost shelved: { Self → Shelved };

    /// How many faults there have been.
    ghost fault_count: { Self → ℕ };

    /// The count of faults, which never falls.
    fn faults(&self) -> u64
        ensures { result ≡ fault_count self.now };

    /// Adds an entry with no bytes at the end. After `Failed` the entries are as before, or have the new one,
    /// unfinished.
    fn begin(&mut self, name: &[u8]) -> Result<(), Failed>
        requires { (shelved self.old).unfinished ≡ false }
        ensures ok { OnOk result (Begun (shelved self.old) name.now (shelved self.new)) }
        ensures failed { OnErr result ((shelved self.new ≡ shelved self.old) ⊎ Begun (shelved self.old) name.now (shelved self.new)) }
        ensures cause { OnErr result (FaultRose (fault_count self.old) (fault_count self.new)) }
        ensures never_falls { fault_count self.old ≤ fault_count self.new };

    /// Appends the whole piece to the unfinished entry. After `Failed` some first bytes of the piece may have
    /// been appended.
    fn put(&mut self, piece: &[u8]) -> Result<(), Failed>
        requires { (shelved self.old).unfinished ≡ true }
        ensures ok { OnOk result (Appended (shelved self.old) piece.now (shelved self.new)) }
        ensures failed { OnErr result ((n : ℕ) × Appended (shelved self.old) (take n piece.now) (shelved self.new)) }
        ensures cause { OnErr result (FaultRose (fault_count self.old) (fault_count self.new)) }
        ensures never_falls { fault_count self.old ≤ fault_count self.new };

    /// Closes the unfinished entry. After `Failed` the entries are as before.
    fn finish(&mut self) -> Result<(), Failed>
        requires { (shelved self.old).unfinished ≡ true }
        ensures ok { OnOk result (Closed (shelved self.old) (shelved self.new)) }
        ensures failed { OnErr result (shelved self.new ≡ shelved self.old) }
        ensures cause { OnErr result (FaultRose (fault_count self.old) (fault_count self.new)) }
        ensures never_falls { fault_count self.old ≤ fault_count self.new };

    /// Where the entries are told, one is unfinished exactly where a last entry stands that isn't closed.
    ghost last_told: { (s : Self) → IfSome (shelved s).entries (λ es. is_last_open es ≡ (shelved s).unfinished) };
}
