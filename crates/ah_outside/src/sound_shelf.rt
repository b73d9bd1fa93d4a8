ghost use Rattle.std.specs.Prelude.{◌≡◌, IsOk, true, false};

use crate::{Failed, Shelf};
use std::marker::Model;

/// A shelf that keeps no entries and tells none, but knows whether one is unfinished. It never fails.
#[derive(Debug, Default, Drop)]
pub struct SoundShelf {
    has_unfinished: bool,
}

impl Model for SoundShelf {
    ghost use Rattle.std.specs.Prelude.{Bool};

    ghost Value = { Bool };

    ghost view = { λ s. s.has_unfinished };
}

impl SoundShelf {
    /// Makes a shelf with no unfinished entry. It takes no memory.
    pub fn new() -> SoundShelf
        ensures { (⟦<SoundShelf as Shelf>⟧.shelved result).unfinished ≡ false }
    {
        SoundShelf {
            has_unfinished: false,
        }
    }
}

impl Shelf for SoundShelf {
    ghost use Rattle.std.specs.Prelude.{None};
    ghost use Rattle.ah_outside.specs.Outside.{Shelved};

    ghost shelved = { λ unfinished. record { entries = None; unfinished = unfinished } };

    ghost fault_count = { λ _. 0 };

    ghost last_told = { λ _. tt };

    fn faults(&self) -> u64 {
        0
    }

    fn begin(&mut self, name: &[u8]) -> Result<(), Failed>
        requires { self.old ≡ false }
        ensures ok { IsOk result }
        ensures begun { self.new ≡ true }
    {
        self.has_unfinished = true;
        Ok(())
    }

    fn put(&mut self, piece: &[u8]) -> Result<(), Failed>
        requires { self.old ≡ true }
        ensures ok { IsOk result }
        ensures appended { self.new ≡ self.old }
    {
        Ok(())
    }

    fn finish(&mut self) -> Result<(), Failed>
        requires { self.old ≡ true }
        ensures ok { IsOk result }
        ensures closed { self.new ≡ false }
    {
        self.has_unfinished = false;
        Ok(())
    }
}
