ghost use Rattle.std.specs.Prelude.{◌≡◌, ◌<◌, ◌≤◌, length, IfOk, OnOk, OnErr};
ghost use Rattle.ah_outside.specs.Counts.{one_more};

use crate::{Failed, SharedWriter, Sink};
use std::io::Write;
use std::marker::Model;

/// A sink over a shared writer, which holds back what is put. It doesn't tell what it took.
#[derive(Drop)]
pub struct BufferedSink<'a, W: Write + Drop> {
    writer: &'a SharedWriter<W>,
    faults: u64,
}

impl<'a, W: Write + Drop> Model for BufferedSink<'a, W> {
    ghost use Rattle.std.specs.Prelude.{ℕ};

    ghost Value = { ℕ };

    ghost view = { λ s. s.faults };
}

impl<'a, W: Write + Drop> BufferedSink<'a, W> {
    /// A sink over this writer, with no faults yet.
    pub fn new(writer: &'a SharedWriter<W>) -> BufferedSink<'a, W>
        ensures { result ≡ 0 }
    {
        BufferedSink { writer, faults: 0 }
    }
}

impl<W: Write + Drop> Sink for BufferedSink<'_, W> {
    ghost use Rattle.std.specs.Prelude.{None};

    ghost gained = { λ _. None };

    ghost fault_count = { λ faults. faults };

    fn faults(&self) -> u64 {
        self.faults
    }

    /// Fails where the writer does. Bytes that are held back may still be refused later, in another call.
    fn put(&mut self, piece: &[u8]) -> Result<usize, Failed>
        ensures within { IfOk result (λ n. n ≤ length piece.now) }
        ensures not_stuck { IfOk result (λ n. 0 < length piece.now → 0 < n) }

        ensures no_fault { OnOk result (self.new ≡ self.old) }
        ensures fault { OnErr result (self.new ≡ one_more self.old) }
        ensures never_falls { self.old ≤ self.new }
    {
        match self.writer.put(piece) {
            Ok(n) => Ok(n),
            Err(Failed) => {
                self.faults = self.faults.saturating_add(1);
                Err(Failed)
            }
        }
    }
}
