ghost use Rattle.std.specs.Prelude.{◌<◌, ◌≤◌, length, IfOk};

use crate::Failed;
use std::alloc::Global;
use std::cell::{Cell, RefCell};
use std::io::{self, BufWriter, Write};

/// A buffered writer that a sink and a source share: the sink writes to it, and the source has it written out
/// before it waits for more input. It remembers whether a write failed.
#[derive(Drop)]
pub struct SharedWriter<W: Write + Drop> {
    writer: RefCell<BufWriter<W>>,
    has_failed: Cell<bool>,
}

impl<W: Write + Drop> SharedWriter<W> {
    /// Holds back up to `capacity` bytes for this writer. Fails where there is no memory for them.
    pub fn new(alloc: Global, capacity: usize, writer: W) -> io::Result<SharedWriter<W>> {
        Ok(SharedWriter {
            writer: RefCell::new(BufWriter::with_capacity(alloc, capacity, writer)?),
            has_failed: Cell::new(false),
        })
    }

    /// Whether a write failed, here or in a call of a sink or a source over this writer.
    pub fn has_failed(&self) -> bool {
        self.has_failed.get()
    }

    /// Writes out the bytes that are held back. Fails where the writer does; what couldn't be written is then
    /// held back still.
    pub fn flush(&self) -> Result<(), Failed> {
        let Ok(mut writer) = self.writer.try_borrow_mut() else {
            return Err(self.failed());
        };
        match writer.flush() {
            Ok(()) => Ok(()),
            Err(_) => Err(self.failed()),
        }
    }

    // Holds back the piece, or hands it on where it is longer than the buffer. Where there is no room, what was held
    // back before is written out first.
    pub(crate) fn put(&self, piece: &[u8]) -> Result<usize, Failed>
        ensures within { IfOk result (λ n. n ≤ length piece.now) }
        ensures not_stuck { IfOk result (λ n. 0 < length piece.now → 0 < n) }
    {
        let Ok(mut writer) = self.writer.try_borrow_mut() else {
            return Err(self.failed());
        };
        match writer.write(piece) {
            Ok(0) if !piece.is_empty() => Err(self.failed()),
            Ok(n) => Ok(n),
            Err(_) => Err(self.failed()),
        }
    }

    fn failed(&self) -> Failed {
        self.has_failed.set(true);
        Failed
    }
}
