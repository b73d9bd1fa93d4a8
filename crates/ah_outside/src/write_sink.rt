ghost use Rattle.std.specs.Prelude.{◌≡◌, ◌<◌, ◌≤◌, length, IfOk, OnOk, OnErr};
ghost use Rattle.std.specs.Io.KnownBytes.{Keeps, WriteAppends};
ghost use Rattle.ah_outside.specs.Counts.{one_more};

use crate::{Failed, Sink};
use std::io::Write;
use std::marker::Model;

/// A sink over any of std's writers. It doesn't tell what it took.
#[derive(Drop)]
pub struct WriteSink<W> {
    writer: W,
    faults: u64,
}

impl<W> Model for WriteSink<W> {
    ghost use Rattle.ah_outside.specs.Adapter.{Adapter, adapter_code};

    ghost Value = { Adapter W };

    ghost coded = { adapter_code W.code };

    ghost view = { λ s. record { inner = s.writer; faults = s.faults } };
}

impl<W> WriteSink<W> {
    /// A sink over this writer, with no faults yet.
    pub fn new(writer: W) -> WriteSink<W>
        ensures { result ≡ record { inner = writer; faults = 0 } }
    {
        WriteSink { writer, faults: 0 }
    }

    fn fault(&mut self) -> Failed
        ensures counted { self.new ≡ record { inner = self.old.inner; faults = one_more self.old.faults } }
        ensures never_falls { self.old.faults ≤ self.new.faults }
    {
        self.faults = self.faults.saturating_add(1);
        Failed
    }
}

impl<W: Write> WriteSink<W> {
    /// Hands on the bytes that the writer holds back. Fails where the writer does.
    pub fn flush(&mut self) -> Result<(), Failed>
        ensures keeps { Keeps (W.contents self.old.inner) (W.contents self.new.inner) }

        ensures no_fault { OnOk result (self.new.faults ≡ self.old.faults) }
        ensures fault { OnErr result (self.new.faults ≡ one_more self.old.faults) }
        ensures never_falls { self.old.faults ≤ self.new.faults }
    {
        match self.writer.flush() {
            Ok(()) => Ok(()),
            Err(_) => Err(self.fault()),
        }
    }
}

impl<W: Write> Sink for WriteSink<W> {
    ghost use Rattle.std.specs.Prelude.{None};

    ghost gained = { λ _. None };

    ghost fault_count = { λ s. s.faults };

    fn faults(&self) -> u64 {
        self.faults
    }

    /// Fails where the writer does, or takes nothing of a piece that isn't empty.
    fn put(&mut self, piece: &[u8]) -> Result<usize, Failed>
        ensures within { IfOk result (λ n. n ≤ length piece.now) }
        ensures writes { WriteAppends (W.contents self.old.inner) (W.contents self.new.inner) result piece.now }
        ensures not_stuck { IfOk result (λ n. 0 < length piece.now → 0 < n) }

        ensures no_fault { OnOk result (self.new.faults ≡ self.old.faults) }
        ensures fault { OnErr result (self.new.faults ≡ one_more self.old.faults) }
        ensures never_falls { self.old.faults ≤ self.new.faults }
    {
        match self.writer.write(piece) {
            Ok(0) if !piece.is_empty() => Err(self.fault()),
            Ok(n) => Ok(n),
            Err(_) => Err(self.fault()),
        }
    }
}
