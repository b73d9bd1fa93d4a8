ghost use Rattle.std.specs.Prelude.{◌≡◌, ◌<◌, ◌≤◌, length, IfOk, OnOk, OnErr};
ghost use Rattle.std.specs.Io.KnownBytes.{ReadConsumes};
ghost use Rattle.ah_outside.specs.Counts.{one_more};

use crate::{Failed, SharedWriter, Source};
use std::io::{Read, Write};
use std::marker::Model;

/// A source over any of std's readers, which has a shared writer written out before each read. So what was put
/// is out before the reader waits. It doesn't tell what is left.
#[derive(Drop)]
pub struct FlushingSource<'a, R, W: Write + Drop> {
    reader: R,
    writer: &'a SharedWriter<W>,
    faults: u64,
}

impl<'a, R, W: Write + Drop> Model for FlushingSource<'a, R, W> {
    ghost use Rattle.ah_outside.specs.Adapter.{Adapter, adapter_code};

    ghost Value = { Adapter R };

    ghost coded = { adapter_code R.code };

    ghost view = { λ s. record { inner = s.reader; faults = s.faults } };
}

impl<'a, R, W: Write + Drop> FlushingSource<'a, R, W> {
    /// A source over this reader, with no faults yet.
    pub fn new(reader: R, writer: &'a SharedWriter<W>) -> FlushingSource<'a, R, W>
        ensures { result ≡ record { inner = reader; faults = 0 } }
    {
        FlushingSource {
            reader,
            writer,
            faults: 0,
        }
    }

    fn fault(&mut self) -> Failed
        ensures counted { self.new ≡ record { inner = self.old.inner; faults = one_more self.old.faults } }
        ensures never_falls { self.old.faults ≤ self.new.faults }
    {
        self.faults = self.faults.saturating_add(1);
        Failed
    }
}

impl<R: Read, W: Write + Drop> Source for FlushingSource<'_, R, W> {
    ghost use Rattle.std.specs.Prelude.{None};

    ghost left = { λ _. None };

    ghost fault_count = { λ s. s.faults };

    fn faults(&self) -> u64 {
        self.faults
    }

    /// Fails where the shared writer can't be written out, and then reads nothing, and where the reader fails.
    fn take(&mut self, buf: &mut [u8]) -> Result<usize, Failed>
        requires { 0 < length buf.old }
        ensures within { IfOk result (λ n. n ≤ length buf.old) }
        ensures reads { ReadConsumes (R.remaining self.old.inner) (R.remaining self.new.inner) result buf.new }

        ensures no_fault { OnOk result (self.new.faults ≡ self.old.faults) }
        ensures fault { OnErr result (self.new.faults ≡ one_more self.old.faults) }
        ensures never_falls { self.old.faults ≤ self.new.faults }
    {
        if self.writer.flush().is_err() {
            return Err(self.fault());
        }
        match self.reader.read(buf) {
            Ok(n) => Ok(n),
            Err(_) => Err(self.fault()),
        }
    }
}
