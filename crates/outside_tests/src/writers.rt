//! Writers as sinks, and files as entries of a shelf.
ghost use Rattle.std.specs.Prelude.{◌≡◌, false};

use crate::wanted::{does, failed, has, moves, tells};
use ah_outside::{BufferedSink, Failed, FolderShelf, SharedWriter, Shelf, Sink, WriteSink};
use std::io::BufWriter;
use std::os::unix::fs::symlink;
use std::process::Abort;
use std::test::Fail;
use std::{fs, io};

#[test]
fn writes_and_flushes(rt: HostRuntime) -> Result<(), Fail> {
    let mut out = Vec::new(rt.alloc());
    let mut sink = WriteSink::new(BufWriter::new(rt.alloc(), &mut out)?);
    moves(&rt, sink.put(b"abc"), Ok(3));
    moves(&rt, sink.put(b""), Ok(0));
    does(&rt, sink.flush(), Ok(()));
    failed(&rt, sink.faults(), 0);
    drop(sink);
    has(&rt, &out, b"abc");
    Ok(())
}

#[test]
fn counts_what_is_not_taken(rt: HostRuntime) {
    let mut room = [0; 4];
    let mut sink = WriteSink::new(&mut room[..]);
    let expected = [(Ok(3), 0), (Ok(1), 0), (Err(Failed), 1), (Err(Failed), 2)];
    for (answer, faults) in expected {
        moves(&rt, sink.put(b"abc"), answer);
        failed(&rt, sink.faults(), faults);
    }
}

#[test]
fn holds_back_and_counts_what_is_not_taken(rt: HostRuntime) -> io::Result<()> {
    let mut room = [0; 4];
    let writer = SharedWriter::new(rt.alloc(), 8, &mut room[..])?;
    let mut sink = BufferedSink::new(&writer);
    // what is put, what the call answers, and how many faults there were: only the first six bytes are ever
    // held back, and four of them find room
    let expected: [(&[u8], Result<usize, Failed>, u64); 4] = [
        (b"abc", Ok(3), 0),
        (b"def", Ok(3), 0),
        (b"ghi", Err(Failed), 1),
        (b"", Ok(0), 1),
    ];
    for (piece, answer, faults) in expected {
        moves(&rt, sink.put(piece), answer);
        failed(&rt, sink.faults(), faults);
        tells(&rt, writer.has_failed(), faults > 0);
    }
    does(&rt, writer.flush(), Err(Failed));
    drop(writer);
    has(&rt, &room, b"abcd");
    Ok(())
}

/// Puts two entries, of two pieces and of none, and then tries one whose name is no file's.
fn puts_entries<S: Shelf>(rt: &impl Abort, shelf: &mut S, first: &str, second: &str)
    requires { (S.shelved shelf.old).unfinished ≡ false }
{
    does(rt, shelf.begin(first.as_bytes()), Ok(()));
    does(rt, shelf.put(b"abc"), Ok(()));
    does(rt, shelf.put(b"de"), Ok(()));
    does(rt, shelf.finish(), Ok(()));
    does(rt, shelf.begin(second.as_bytes()), Ok(()));
    does(rt, shelf.finish(), Ok(()));
    does(rt, shelf.begin(b"folder/file"), Err(Failed));
    failed(rt, shelf.faults(), 1);
}

#[test]
fn makes_files_in_place_of_others(rt: HostRuntime) -> Result<(), Fail> {
    let (target, first, second) = ("folder_shelf.0", "folder_shelf.1", "folder_shelf.2");
    fs::write(&rt, target, "kept")?;
    fs::write(&rt, first, "what stood there before")?;
    symlink(&rt, target, second)?;
    puts_entries(&rt, &mut FolderShelf::new(&rt), first, second);
    for (name, text) in [(target, "kept"), (first, "abcde"), (second, "")] {
        has(
            &rt,
            fs::read_to_string(&rt, name)?.as_bytes(),
            text.as_bytes(),
        );
        fs::remove_file(&rt, name)?;
    }
    Ok(())
}
