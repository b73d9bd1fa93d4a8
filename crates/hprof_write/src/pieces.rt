//! Bytes that wait until they are a piece for the shelf.
ghost use Rattle.std.specs.Prelude.{◌≡◌, ℕ, ◌≤◌, List, true, OnOk, OnErr};
ghost use Rattle.ah_outside.specs.Outside.{Appended, FaultRose, Shelved};
ghost use Rattle.hprof_write.specs.Outcomes.{AppendedBut, AppendedPrefix};

use ah_outside::{Failed, Shelf};

// What waits is put once it has as many bytes.
const PIECE: usize = 4096;

/// Puts all that waits.
pub(crate) fn put_rest<F: Shelf>(shelf: &mut F, waiting: &[u8]) -> Result<(), Failed>
    requires { (F.shelved shelf.old).unfinished ≡ true }
    ensures ok { OnOk result ((start : Shelved) (bytes : List ℕ) → AppendedBut start bytes waiting.now (F.shelved shelf.old) → Appended start bytes (F.shelved shelf.new)) }
    ensures failed { OnErr result ((start : Shelved) (bytes : List ℕ) → AppendedBut start bytes waiting.now (F.shelved shelf.old) → AppendedPrefix start bytes (F.shelved shelf.new)) }
    ensures unfinished { OnOk result ((F.shelved shelf.new).unfinished ≡ true) }
    ensures cause { OnErr result (FaultRose (F.fault_count shelf.old) (F.fault_count shelf.new)) }
    ensures never_falls { F.fault_count shelf.old ≤ F.fault_count shelf.new }
{
    shelf.put(waiting)
}

/// Puts all that waits, where it is enough for a piece.
pub(crate) fn put_piece<F: Shelf>(shelf: &mut F, waiting: &mut Vec<u8>) -> Result<(), Failed>
    requires { (F.shelved shelf.old).unfinished ≡ true }
    ensures ok { OnOk result ((start : Shelved) (bytes : List ℕ) → AppendedBut start bytes waiting.old.items (F.shelved shelf.old) → AppendedBut start bytes waiting.new.items (F.shelved shelf.new)) }
    ensures failed { OnErr result ((start : Shelved) (bytes : List ℕ) → AppendedBut start bytes waiting.old.items (F.shelved shelf.old) → AppendedPrefix start bytes (F.shelved shelf.new)) }
    ensures unfinished { OnOk result ((F.shelved shelf.new).unfinished ≡ true) }
    ensures cause { OnErr result (FaultRose (F.fault_count shelf.old) (F.fault_count shelf.new)) }
    ensures never_falls { F.fault_count shelf.old ≤ F.fault_count shelf.new }
{
    if waiting.len() >= PIECE {
        put_rest(shelf, waiting)?;
        waiting.clear();
    }
    Ok(())
}
