//! Readers as sources: what they give, and when the output is written out first.
use crate::wanted::{does, failed, has, moves, tells};
use ah_outside::{BufferedSink, Failed, FlushingSource, ReadSource, SharedWriter, Sink, Source};
use std::cell::RefCell;
use std::io;
use std::io::{Read, Write};

// A reader that is broken from the start.
#[derive(Drop)]
struct Broken;

impl Read for Broken {
    fn read(&mut self, _buf: &mut [u8]) -> io::Result<usize> {
        Err(io::ErrorKind::BrokenPipe.into())
    }
}

#[test]
fn reads_and_counts_faults(rt: HostRuntime) {
    let text: &[u8] = b"abcde";
    let mut source = ReadSource::new(text.chain(Broken));
    let mut buf = [0; 3];
    let expected = [(Ok(3), 0), (Ok(2), 0), (Err(Failed), 1), (Err(Failed), 2)];
    for (answer, faults) in expected {
        moves(&rt, source.take(&mut buf), answer);
        failed(&rt, source.faults(), faults);
    }
    has(&rt, &buf, b"dec");
}

// Keeps what is written, and a `?` for each read.
#[derive(Drop)]
struct Log<'a>(&'a RefCell<Vec<u8>>);

impl Log<'_> {
    fn add(&self, bytes: &[u8]) -> io::Result<()> {
        match self.0.try_borrow_mut() {
            Ok(mut log) => Ok(log.extend_from_slice(bytes)?),
            Err(_) => Err(io::ErrorKind::WouldBlock.into()),
        }
    }
}

impl Write for Log<'_> {
    fn write(&mut self, buf: &[u8]) -> io::Result<usize> {
        self.add(buf)?;
        Ok(buf.len())
    }

    fn flush(&mut self) -> io::Result<()> {
        Ok(())
    }
}

impl Read for Log<'_> {
    fn read(&mut self, _buf: &mut [u8]) -> io::Result<usize> {
        self.add(b"?")?;
        Ok(0)
    }
}

#[test]
fn writes_out_before_it_reads(rt: HostRuntime) -> io::Result<()> {
    let log = RefCell::new(Vec::new(rt.alloc()));
    let writer = SharedWriter::new(rt.alloc(), 16, Log(&log))?;
    let mut sink = BufferedSink::new(&writer);
    let mut source = FlushingSource::new(Log(&log), &writer);
    let mut buf = [0; 4];
    moves(&rt, sink.put(b"ab"), Ok(2));
    moves(&rt, sink.put(b"c"), Ok(1));
    moves(&rt, source.take(&mut buf), Ok(0));
    moves(&rt, sink.put(b"de"), Ok(2));
    moves(&rt, source.take(&mut buf), Ok(0));
    moves(&rt, sink.put(b"f"), Ok(1));
    does(&rt, writer.flush(), Ok(()));
    tells(&rt, writer.has_failed(), false);
    failed(&rt, source.faults(), 0);
    drop(writer);
    has(&rt, &log.into_inner(), b"abc?de?f");
    Ok(())
}

#[test]
fn reads_nothing_where_it_can_not_write_out(rt: HostRuntime) -> io::Result<()> {
    let mut room = [0; 4];
    let writer = SharedWriter::new(rt.alloc(), 16, &mut room[..])?;
    let mut sink = BufferedSink::new(&writer);
    let mut source = FlushingSource::new(b"input".as_slice(), &writer);
    let mut buf = [0; 4];
    moves(&rt, sink.put(b"abcdef"), Ok(6));
    moves(&rt, source.take(&mut buf), Err(Failed));
    failed(&rt, source.faults(), 1);
    tells(&rt, writer.has_failed(), true);
    has(&rt, &buf, &[0; 4]);
    Ok(())
}
