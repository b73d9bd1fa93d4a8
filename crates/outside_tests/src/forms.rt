//! The forms in memory: what they give and take, and where they fail.
use crate::wanted::{does, failed, has, has_entry, moves};
use ah_outside::{
    Failed, MemoryShelf, MemorySink, MemorySource, Shelf, Sink, SoundShelf, SoundSink, SoundSource,
    Source, put_all,
};
use std::test::Fail;

#[test]
fn gives_pieces_and_fails_at_its_numbers(rt: HostRuntime) -> Result<(), Fail> {
    let mut source = MemorySource::new(rt.alloc(), b"abcdefg", 3, &[2, 4])?;
    let mut buf = [0; 8];
    // what each call answers, what is left then, and how many faults there were
    let expected: [(Result<usize, Failed>, &[u8], u64); 6] = [
        (Ok(3), b"defg", 0),
        (Err(Failed), b"defg", 1),
        (Ok(3), b"g", 1),
        (Err(Failed), b"g", 2),
        (Ok(1), b"", 2),
        (Ok(0), b"", 2),
    ];
    for (answer, left, faults) in expected {
        moves(&rt, source.take(&mut buf), answer);
        has(&rt, source.left(), left);
        failed(&rt, source.faults(), faults);
    }
    has(&rt, &buf[..3], b"gef");
    Ok(())
}

#[test]
fn gives_all_and_ends(rt: HostRuntime) {
    let mut source = SoundSource::new(b"abcde");
    let mut buf = [0; 3];
    for answer in [3, 2, 0] {
        moves(&rt, source.take(&mut buf), Ok(answer));
    }
    has(&rt, &buf, b"dec");
    failed(&rt, source.faults(), 0);
}

#[test]
fn takes_what_it_has_room_for_and_fails_at_its_numbers(rt: HostRuntime) -> Result<(), Fail> {
    let mut sink = MemorySink::new(rt.alloc(), 7, &[2])?;
    // what each call is given and answers, what the sink holds then, and how many faults there were
    let expected: [(&[u8], Result<usize, Failed>, &[u8], u64); 6] = [
        (b"abc", Ok(3), b"abc", 0),
        (b"def", Err(Failed), b"abc", 1),
        (b"def", Ok(3), b"abcdef", 1),
        (b"ghi", Ok(1), b"abcdefg", 1),
        (b"", Ok(0), b"abcdefg", 1),
        (b"hi", Err(Failed), b"abcdefg", 2),
    ];
    for (piece, answer, bytes, faults) in expected {
        moves(&rt, sink.put(piece), answer);
        has(&rt, sink.bytes(), bytes);
        failed(&rt, sink.faults(), faults);
    }
    Ok(())
}

#[test]
fn keeps_what_was_put_before_a_fault(rt: HostRuntime) -> Result<(), Fail> {
    let mut sink = MemorySink::new(rt.alloc(), 4, &[])?;
    does(&rt, put_all(&mut sink, b"ab"), Ok(()));
    does(&rt, put_all(&mut sink, b"cde"), Err(Failed));
    has(&rt, sink.bytes(), b"abcd");
    Ok(())
}

#[test]
fn takes_each_piece(rt: HostRuntime) {
    let mut sink = SoundSink::new();
    moves(&rt, sink.put(b"abc"), Ok(3));
    does(&rt, put_all(&mut sink, b"de"), Ok(()));
    failed(&rt, sink.faults(), 0);
}

#[test]
fn keeps_bytes_and_fails_at_its_numbers(rt: HostRuntime) -> Result<(), Fail> {
    let mut shelf = MemoryShelf::new(rt.alloc(), 1, 7, &[3])?;
    does(&rt, shelf.begin(b"ab"), Ok(()));
    does(&rt, shelf.put(b"cde"), Ok(()));
    // a chosen call
    does(&rt, shelf.put(b"f"), Err(Failed));
    // room for two
    does(&rt, shelf.put(b"fgh"), Err(Failed));
    does(&rt, shelf.put(b"fg"), Ok(()));
    has_entry(&rt, &shelf, b"ab", b"cdefg", false);
    failed(&rt, shelf.faults(), 2);
    Ok(())
}

#[test]
fn holds_as_many_entries_and_names_as_it_may(rt: HostRuntime) -> Result<(), Fail> {
    let mut shelf = MemoryShelf::new(rt.alloc(), 1, 3, &[])?;
    // room for three
    does(&rt, shelf.begin(b"abcd"), Err(Failed));
    does(&rt, shelf.begin(b"abc"), Ok(()));
    does(&rt, shelf.finish(), Ok(()));
    // one entry stands
    does(&rt, shelf.begin(b""), Err(Failed));
    has_entry(&rt, &shelf, b"abc", b"", true);
    failed(&rt, shelf.faults(), 2);
    Ok(())
}

#[test]
fn takes_an_entry(rt: HostRuntime) {
    let mut shelf = SoundShelf::new();
    does(&rt, shelf.begin(b"first"), Ok(()));
    does(&rt, shelf.put(b"abc"), Ok(()));
    does(&rt, shelf.finish(), Ok(()));
    failed(&rt, shelf.faults(), 0);
}
