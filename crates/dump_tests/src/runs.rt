//! Runs that dump: their reports, and the entries of their shelf.
use crate::bytes::{BUILT_IN, FORKED};
use crate::call::{Request, call};
use crate::wanted::{Entry, ends, holds, shelves};
use artheap_top::Status;
use std::alloc::{AllocError, Global};
use std::test::Fail;

/// A run, its report, its status, and the closed entries of its shelf.
#[derive(Drop)]
struct Row {
    words: &'static [&'static str],
    script: &'static [u8],
    report: &'static [u8],
    status: Status,
    entries: &'static [Entry<'static>],
}

/// A class, an object of the image, one that a fork takes along, and one of the child.
pub(crate) const FORKING: &[u8] =
    b"zygote class P java.lang.Object x:int\nzygote new a P\nzygote seal\nzygote new b P\nzygote fork c1\nc1 new d P\nc1 gc\nc1 dump\n";

pub(crate) const FORKED_TABLE: &[u8] = b"#1 0x20000000\n#2 0x30000000\n#3 0x40000000\n";

pub(crate) const FORKED_ENTRIES: [Entry<'static>; 2] = [
    ("c1.1.hprof", &FORKED),
    ("c1.1.map", FORKED_TABLE),
];

const ROWS: [Row; 4] = [
    // no object
    Row {
        words: &["run"],
        script: b"zygote seal\nzygote dump\n",
        report: b"1: ok\n2: dump 1 objects 0\n",
        status: Status::Ok,
        entries: &[("zygote.1.hprof", &BUILT_IN), ("zygote.1.map", b"")],
    },
    // an object of each of three spaces
    Row {
        words: &["run"],
        script: FORKING,
        report: b"1: class 2\n2: #1\n3: ok\n4: #2\n5: ok\n6: #3\n7: kept 1 freed 0\n8: dump 1 objects 3\n",
        status: Status::Ok,
        entries: &FORKED_ENTRIES,
    },
    // an image that isn't sealed, and no process of the name
    Row {
        words: &["run", "--time", "1"],
        script: b"zygote dump\nnobody dump\n",
        report: b"1: E16 not sealed\n2: E3 no such process\n",
        status: Status::Refused,
        entries: &[],
    },
    // each process counts its own dumps
    Row {
        words: &["run", "--regions", "1", "--time", "0"],
        script: b"zygote seal\nzygote dump\nzygote dump\nzygote fork c\nc dump",
        report: b"1: ok\n2: dump 1 objects 0\n3: dump 2 objects 0\n4: ok\n5: dump 1 objects 0\n",
        status: Status::Ok,
        entries: &[
            ("zygote.1.hprof", &BUILT_IN),
            ("zygote.1.map", b""),
            ("zygote.2.hprof", &BUILT_IN),
            ("zygote.2.map", b""),
            ("c.1.hprof", &BUILT_IN),
            ("c.1.map", b""),
        ],
    },
];

#[test]
fn runs_dump(rt: HostRuntime) -> Result<(), Fail> {
    for row in &ROWS {
        let called = call(rt.alloc(), &Request::sound(row.words, row.script))?;
        ends(&rt, &called, row.status, row.report);
        shelves(&rt, &called, row.entries);
    }
    Ok(())
}

/// The dump of a process with the two built-in classes and no objects, with a time in its header.
fn built_in_at(alloc: Global, time: u64) -> Result<Vec<u8>, AllocError> {
    let mut bytes = Vec::from_slice(alloc, &BUILT_IN)?;
    bytes[23..31].copy_from_slice(&time.to_be_bytes());
    Ok(bytes)
}

#[test]
fn the_time_stands_in_the_header(rt: HostRuntime) -> Result<(), Fail> {
    for (word, time) in [
        ("1234567890123", 1_234_567_890_123),
        ("18446744073709551615", u64::MAX),
    ] {
        let words = ["run", "--time", word];
        let asked = Request::sound(&words, b"zygote seal\nzygote dump\n");
        let dump = built_in_at(rt.alloc(), time)?;
        shelves(
            &rt,
            &call(rt.alloc(), &asked)?,
            &[("zygote.1.hprof", &dump), ("zygote.1.map", b"")],
        );
    }
    Ok(())
}

/// An instance with a field of its class, and one of its superclass.
const SUBCLASS: &[u8] =
    b"zygote class A java.lang.Object x:int\nzygote class B A y:byte\nzygote new b B\nzygote set b x 1\nzygote set b y 2\nzygote seal\nzygote dump\n";

/// The instance, whose own fields stand before those of its superclass.
const INSTANCE: &[u8] = &[
    0x21, 0x20, 0x00, 0x00, 0x00, 0x00, 0x00, 0x00, 0x00, 0x10, 0x00, 0x00, 0xc0, 0x00, 0x00, 0x00,
    0x05, 0x02, 0x00, 0x00, 0x00, 0x01,
];

#[test]
fn own_fields_stand_first(rt: HostRuntime) -> Result<(), Fail> {
    let called = call(rt.alloc(), &Request::sound(&["run"], SUBCLASS))?;
    let shelf = &called.shelf;
    holds(&rt, shelf.count() == 2);
    if shelf.count() == 2 {
        let dump = shelf.bytes_at(0);
        holds(
            &rt,
            dump.windows(INSTANCE.len()).any(|part| part == INSTANCE),
        );
    }
    Ok(())
}

/// The head of a segment stands here, and says that so many bytes follow.
fn has_segment(dump: &[u8], at: usize, length: u16) -> bool {
    let [high, low] = length.to_be_bytes();
    dump.get(at..).is_some_and(|rest| rest.starts_with(&[0x1c, 0, 0, 0, 0, 0, 0, high, low]))
}

/// A script of 129 objects, an image that is sealed, and a dump.
fn many_objects(alloc: Global) -> Result<Vec<u8>, AllocError> {
    let mut script = Vec::new(alloc);
    for _ in 0..129 {
        script.extend_from_slice(b"zygote new a java.lang.Object\n")?;
    }
    script.extend_from_slice(b"zygote seal\nzygote dump\n")?;
    Ok(script)
}

#[test]
fn a_segment_has_a_limit(rt: HostRuntime) -> Result<(), Fail> {
    let script = many_objects(rt.alloc())?;
    let called = call(rt.alloc(), &Request::sound(&["run"], &script))?;
    holds(&rt, called.report.ends_with(b"131: dump 1 objects 129\n"));
    let shelf = &called.shelf;
    holds(&rt, shelf.count() == 2);
    if shelf.count() == 2 {
        let dump = shelf.bytes_at(0);
        holds(&rt, dump.len() == 2_678);
        holds(&rt, has_segment(dump, 301, 2_324));
        holds(&rt, has_segment(dump, 2_634, 26));
    }
    Ok(())
}
