//! What `convert` puts of wide dumps, of those in which an instance has no layout, and of texts that are none.
use crate::bytes::EACH;
use crate::call::{Request, call};
use crate::wanted::{ends, holds};
use crate::wide_bytes::{
    CLASS_BEHIND, CLASS_BEHIND_CONVERTED, COUNT_PAST_END, CYCLE, EACH_WIDE, EACH_WIDE_CONVERTED,
    HALVES, HALVES_CONVERTED, LOOP_OF_ONE, LOOP_OF_ONE_CONVERTED, NARROW, NARROW_CONVERTED,
    NO_CLASS, ONE_STRING, ONE_STRING_CONVERTED, OTHER_SIZE, OTHERS, OTHERS_CONVERTED,
};
use artheap_top::Status;
use std::test::Fail;

/// Wide dumps and what they are converted to, with the lengths of both.
const CONVERTED: [(&[u8], usize, &[u8], usize); 7] = [
    (LOOP_OF_ONE, 153, LOOP_OF_ONE_CONVERTED, 109),
    (ONE_STRING, 49, ONE_STRING_CONVERTED, 45),
    (OTHERS, 84, OTHERS_CONVERTED, 54),
    (CLASS_BEHIND, 286, CLASS_BEHIND_CONVERTED, 198),
    (HALVES, 115, HALVES_CONVERTED, 83),
    (NARROW, 141, NARROW_CONVERTED, 141),
    (EACH_WIDE, 479, EACH_WIDE_CONVERTED, 339),
];

/// Texts that aren't converted, and what is told of them.
const REFUSED: [(&[u8], &[u8]); 14] = [
    (NO_CLASS, b"not a dump: H7 at 40\n"),
    (CYCLE, b"not a dump: H7 at 191\n"),
    (OTHER_SIZE, b"not a dump: H7 at 129\n"),
    (&EACH, b"not a dump: H7 at 215\n"),
    (b"", b"not a dump: H1 at 0\n"),
    (
        b"JAVA PROFILE 1.0.1\0\0\0\0\x08\0\0\0\0\0\0\0\0",
        b"not a dump: H1 at 0\n",
    ),
    (
        b"JAVA PROFILE 1.0.2\0\0\0\0\x06\0\0\0\0\0\0\0\0",
        b"not a dump: H2 at 19\n",
    ),
    (b"JAVA PROFILE 1.0.2\0\0\0\0", b"not a dump: H3 at 19\n"),
    (
        b"JAVA PROFILE 1.0.2\0\0\0\0\x08\0\0\0\0\0\0\0",
        b"not a dump: H3 at 23\n",
    ),
    (
        b"JAVA PROFILE 1.0.2\0\0\0\0\x08\0\0\0\0\0\0\0\0\x2c\0\0\0\0\0\0\0\x01",
        b"not a dump: H3 at 31\n",
    ),
    (
        b"JAVA PROFILE 1.0.2\0\0\0\0\x08\0\0\0\0\0\0\0\0\x1c\0\0\0\0\0\0\0\x01\x24",
        b"not a dump: H4 at 40\n",
    ),
    (
        b"JAVA PROFILE 1.0.2\0\0\0\0\x08\0\0\0\0\0\0\0\0\x01\0\0\0\0\0\0\0\x07\0\0\0\0\0\0\x01",
        b"not a dump: H5 at 31\n",
    ),
    (COUNT_PAST_END, b"not a dump: H5 at 49\n"),
    (
        b"JAVA PROFILE 1.0.2\0\0\0\0\x08\0\0\0\0\0\0\0\0\x1c\0\0\0\0\0\0\0\x12\
\xc3\0\0\0\0\0\0\0\x30\0\0\0\0\0\0\0\x01\x02",
        b"not a dump: H6 at 57\n",
    ),
];

#[test]
fn each_is_converted(rt: HostRuntime) -> Result<(), Fail> {
    for (wide, wide_count, dump, count) in CONVERTED {
        holds(&rt, wide.len() == wide_count && dump.len() == count);
        let called = call(rt.alloc(), &Request::sound(&["convert"], wide))?;
        ends(&rt, &called, Status::Ok, dump);
    }
    Ok(())
}

#[test]
fn what_is_put_is_a_dump_that_stays(rt: HostRuntime) -> Result<(), Fail> {
    for (_, _, dump, _) in CONVERTED {
        let again = call(rt.alloc(), &Request::sound(&["convert"], dump))?;
        ends(&rt, &again, Status::Ok, dump);
        let listed = call(rt.alloc(), &Request::sound(&["read"], dump))?;
        holds(&rt, listed.status == Status::Ok);
    }
    Ok(())
}

#[test]
fn what_is_no_wide_dump_is_told(rt: HostRuntime) -> Result<(), Fail> {
    for (text, line) in REFUSED {
        let called = call(rt.alloc(), &Request::sound(&["convert"], text))?;
        ends(&rt, &called, Status::NotDump, line);
    }
    Ok(())
}

#[test]
fn no_word_stands_behind(rt: HostRuntime) -> Result<(), Fail> {
    for words in [
        ["convert", ""].as_slice(),
        &["convert", "convert"],
        &["Convert"],
    ] {
        let called = call(rt.alloc(), &Request::sound(words, ONE_STRING))?;
        ends(&rt, &called, Status::Usage, b"");
    }
    Ok(())
}

/// A conversion that stops at a fault, its source giving 20 bytes at once.
fn faulty<'a>(takes: &'a [u64], puts: &'a [u64]) -> Request<'a> {
    Request {
        words: &["convert"],
        input: LOOP_OF_ONE,
        piece: 20,
        takes,
        puts,
        shelvings: &[],
    }
}

#[test]
fn it_stops_at_a_fault(rt: HostRuntime) -> Result<(), Fail> {
    for take in 1..=9 {
        let called = call(rt.alloc(), &faulty(&[take], &[]))?;
        ends(&rt, &called, Status::ReadFault, b"");
    }
    for put in 1..=8 {
        let called = call(rt.alloc(), &faulty(&[], &[put]))?;
        holds(&rt, called.status == Status::WriteFault);
        holds(
            &rt,
            LOOP_OF_ONE_CONVERTED.starts_with(called.report.as_slice()),
        );
    }
    Ok(())
}
