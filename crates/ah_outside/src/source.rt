ghost use Rattle.std.specs.Prelude.{◌≡◌, ℕ, ◌<◌, ◌≤◌, ◌↔◌, List, [], Option, length, take, IfOk, IfSome, OnErr};
ghost use Rattle.ah_outside.specs.Outside.{FaultRose, Gave};

/// A call of the outside failed: the count of faults of what was called rose in that call, or stands at its
/// last value.
#[derive(Clone, Copy, Debug, PartialEq, Eq)]
pub struct Failed;

/// Where bytes come from.
pub trait Source {
    /// The bytes that are left, in order, or `None` where the source doesn't tell.
    ghost left: { Self → Option (List ℕ) };

    /// How many faults there have been.
    ghost fault_count: { Self → ℕ };

    /// The count of faults, which never falls.
    fn faults(&self) -> u64
        ensures { result ≡ fault_count self.now };

    /// Takes the next bytes into the front of `buf`, and tells how many. The answer 0 is the end of input.
    /// After `Failed` nothing was taken.
    fn take(&mut self, buf: &mut [u8]) -> Result<usize, Failed>
        requires { 0 < length buf.old }
        ensures within { IfOk result (λ n. n ≤ length buf.old) }
        ensures gave { IfOk result (λ n. Gave (left self.old) (take n buf.new) (left self.new)) }
        ensures end { IfOk result (λ n. IfSome (left self.old) (λ rest. (n ≡ 0) ↔ (rest ≡ []))) }
        ensures failed { OnErr result (left self.new ≡ left self.old) }
        ensures cause { OnErr result (FaultRose (fault_count self.old) (fault_count self.new)) }
        ensures never_falls { fault_count self.old ≤ fault_count self.new };
}
