ghost use Rattle.std.specs.Prelude.{◌≡◌, length};

use crate::{Failed, Sink};

/// A sink that takes each piece whole and keeps nothing of it. It never fails, and tells no bytes.
#[derive(Clone, Copy, Debug, Default)]
pub struct SoundSink;

impl SoundSink {
    /// Makes a sink, which takes no memory.
    pub fn new() -> SoundSink {
        SoundSink
    }
}

impl Sink for SoundSink {
    ghost use Rattle.std.specs.Prelude.{None};

    ghost gained = { λ _. None };

    ghost fault_count = { λ _. 0 };

    fn faults(&self) -> u64 {
        0
    }

    fn put(&mut self, piece: &[u8]) -> Result<usize, Failed>
        ensures { result ≡ Ok (length piece.now) }
    {
        Ok(piece.len())
    }
}
