//! Dumps that are read by the word `read`.
use crate::call::{Called, Request, call, gives};
use crate::runs::CUTTINGS;
use crate::wanted::{counts, ends, holds};
use artheap_top::Status;
use std::alloc::{AllocError, Global};
use std::process::Abort;
use std::test::Fail;

/// A record that is passed over, and a segment with an array without its numbers.
const DUMP: [u8; 69] = [
    0x4a, 0x41, 0x56, 0x41, 0x20, 0x50, 0x52, 0x4f, 0x46, 0x49, 0x4c, 0x45, 0x20, 0x31, 0x2e, 0x30,
    0x2e, 0x33, 0x00, 0x00, 0x00, 0x00, 0x04, 0x00, 0x00, 0x00, 0x00, 0x00, 0x00, 0x00, 0x00, 0x0e,
    0x00, 0x00, 0x00, 0x00, 0x00, 0x00, 0x00, 0x06, 0x00, 0x00, 0x00, 0x00, 0x00, 0x00, 0x1c, 0x00,
    0x00, 0x00, 0x00, 0x00, 0x00, 0x00, 0x0e, 0xc3, 0x80, 0x00, 0x00, 0x00, 0x00, 0x00, 0x00, 0x00,
    0x00, 0x00, 0x30, 0x00, 0x08,
];

/// Its listing.
const LISTING: &[u8] =
    b"JAVA PROFILE 1.0.3 id 4 time 0\nother 0x0e length 6\nsegment 0x1c length 14\nnodata 0x80000000 stack 0 count 12288 type 8\nrecords 2 classes 0 objects 1 roots 0\n";

/// A reading of a text that comes in pieces of 7 bytes, with these calls of the source and of the sink failing.
fn reading<'a>(text: &'a [u8], takes: &'a [u64], puts: &'a [u64]) -> Request<'a> {
    Request {
        words: &["read"],
        script: text,
        piece: 7,
        takes,
        puts,
    }
}

#[test]
fn dumps_are_listed(rt: HostRuntime) -> Result<(), Fail> {
    for piece in CUTTINGS {
        let asked = Request {
            piece,
            ..reading(&DUMP, &[], &[])
        };
        let called = gives(&rt, rt.alloc(), &asked, LISTING, Status::Ok)?;
        counts(&rt, called.left, 0);
        counts(&rt, called.machine.live_count(), 0);
    }
    Ok(())
}

/// What is told of the first bytes of the dump: some are dumps too.
fn told_of(bytes: usize) -> (Status, &'static [u8]) {
    match bytes {
        0..=18 => (Status::NotDump, b"not a dump: H1 at 0\n"),
        19..=22 => (Status::NotDump, b"not a dump: H3 at 19\n"),
        23..=30 => (Status::NotDump, b"not a dump: H3 at 23\n"),
        31 => (
            Status::Ok,
            b"JAVA PROFILE 1.0.3 id 4 time 0\nrecords 0 classes 0 objects 0 roots 0\n",
        ),
        32..=45 => (Status::NotDump, b"not a dump: H3 at 31\n"),
        46 => (
            Status::Ok,
            b"JAVA PROFILE 1.0.3 id 4 time 0\nother 0x0e length 6\nrecords 1 classes 0 objects 0 roots 0\n",
        ),
        _ => (Status::NotDump, b"not a dump: H3 at 46\n"),
    }
}

#[test]
fn each_front_of_a_dump_is_told(rt: HostRuntime) -> Result<(), Fail> {
    for bytes in 0..DUMP.len() {
        let (status, text) = told_of(bytes);
        gives(
            &rt,
            rt.alloc(),
            &reading(&DUMP[..bytes], &[], &[]),
            text,
            status,
        )?;
    }
    Ok(())
}

#[test]
fn each_take_may_fail(rt: HostRuntime) -> Result<(), Fail> {
    // ten pieces of 7 bytes, and the end
    for take in 1..=11 {
        gives(
            &rt,
            rt.alloc(),
            &reading(&DUMP, &[take], &[]),
            b"",
            Status::ReadFault,
        )?;
    }
    gives(
        &rt,
        rt.alloc(),
        &reading(&DUMP, &[12], &[]),
        LISTING,
        Status::Ok,
    )?;
    Ok(())
}

/// Reads the dump with a put failing. Tells whether the listing was put whole, since no such put came.
fn put_fails(rt: &impl Abort, alloc: Global, put: u64) -> Result<bool, AllocError> {
    let called: Called = call(alloc, &reading(&DUMP, &[], &[put]))?;
    holds(rt, LISTING.starts_with(called.report.as_slice()));
    let whole = called.report.len() == LISTING.len();
    ends(
        rt,
        called.status,
        if whole {
            Status::Ok
        } else {
            Status::WriteFault
        },
    );
    Ok(whole)
}

#[test]
fn each_put_may_fail(rt: HostRuntime) -> Result<(), Fail> {
    for put in 1..=100 {
        if put_fails(&rt, rt.alloc(), put)? {
            return Ok(());
        }
    }
    holds(&rt, false);
    Ok(())
}

#[test]
fn no_word_follows(rt: HostRuntime) -> Result<(), Fail> {
    let asked = Request {
        words: &["read", "read"],
        ..reading(&DUMP, &[1], &[1])
    };
    let called = gives(&rt, rt.alloc(), &asked, b"", Status::Usage)?;
    counts(&rt, called.left, DUMP.len());
    Ok(())
}
