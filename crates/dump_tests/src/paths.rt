//! What `path` tells of a dump that a run has written, of a dump made by hand, and of texts that are none.
use crate::bytes::SMALL;
use crate::call::{Request, call};
use crate::wanted::{ends, holds};
use artheap_top::Status;
use std::test::Fail;

/// An object that a root holds, and one that it refers to.
const LINKED: &[u8] =
    b"zygote class N java.lang.Object n:ref\nzygote new a N\nzygote new b N\nzygote set a n b\nzygote drop b\nzygote seal\nzygote dump\n";

/// What is told of identifiers in the dump of that script.
const TOLD: [(&str, &[u8]); 4] = [
    (
        "20000010",
        b"path 1\n0x20000000\n0x20000010\nlevel 0 0x20000000\nlevel 1 0x20000010\n",
    ),
    ("20000000", b"path 0\n0x20000000\nlevel 0 0x20000000\n"),
    (
        "10000080",
        b"no path\nlevel 0 0x20000000\nlevel 1 0x20000010\n",
    ),
    ("20000020", b"no node 0x20000020\n"),
];

/// A root of a class that holds an instance by a static field, behind the 31 bytes of a header.
const STATIC: [u8; 123] = [
    0x4a, 0x41, 0x56, 0x41, 0x20, 0x50, 0x52, 0x4f, 0x46, 0x49, 0x4c, 0x45, 0x20, 0x31, 0x2e, 0x30,
    0x2e, 0x33, 0x00, 0x00, 0x00, 0x00, 0x04, 0x00, 0x00, 0x00, 0x00, 0x00, 0x00, 0x00, 0x00, 0x1c,
    0x00, 0x00, 0x00, 0x00, 0x00, 0x00, 0x00, 0x4a, 0x05, 0x10, 0x00, 0x00, 0x80, 0x20, 0x10, 0x00,
    0x00, 0x80, 0x00, 0x00, 0x00, 0x00, 0x00, 0x00, 0x00, 0x00, 0x00, 0x00, 0x00, 0x00, 0x00, 0x00,
    0x00, 0x00, 0x00, 0x00, 0x00, 0x00, 0x00, 0x00, 0x00, 0x00, 0x00, 0x00, 0x00, 0x00, 0x00, 0x00,
    0x00, 0x08, 0x00, 0x00, 0x00, 0x01, 0x00, 0x00, 0x00, 0x03, 0x02, 0x20, 0x00, 0x00, 0x10, 0x00,
    0x00, 0x21, 0x20, 0x00, 0x00, 0x10, 0x00, 0x00, 0x00, 0x00, 0x10, 0x00, 0x00, 0x80, 0x00, 0x00,
    0x00, 0x00, 0x2c, 0x00, 0x00, 0x00, 0x00, 0x00, 0x00, 0x00, 0x00,
];

#[test]
fn a_path_in_a_written_dump(rt: HostRuntime) -> Result<(), Fail> {
    let ran = call(rt.alloc(), &Request::sound(&["run"], LINKED))?;
    holds(&rt, ran.status == Status::Ok && ran.shelf.count() == 2);
    if ran.shelf.count() == 2 {
        for (id, report) in TOLD {
            let asked = call(
                rt.alloc(),
                &Request::sound(&["path", id], ran.shelf.bytes_at(0)),
            )?;
            ends(&rt, &asked, Status::Ok, report);
        }
    }
    Ok(())
}

#[test]
fn a_static_field_leads_on(rt: HostRuntime) -> Result<(), Fail> {
    let asked = call(rt.alloc(), &Request::sound(&["path", "20000010"], &STATIC))?;
    ends(
        &rt,
        &asked,
        Status::Ok,
        b"path 1\n0x10000080\n0x20000010\nlevel 0 0x10000080\nlevel 1 0x20000010\n",
    );
    Ok(())
}

#[test]
fn words_of_other_forms(rt: HostRuntime) -> Result<(), Fail> {
    for words in [
        ["path", "2000001"].as_slice(),
        &["path", "200000100"],
        &["path", "2000001A"],
        &["path", "0x200000"],
        &["path", ""],
        &["path"],
        &["path", "20000010", "20000010"],
    ] {
        let asked = call(rt.alloc(), &Request::sound(words, &SMALL))?;
        ends(&rt, &asked, Status::Usage, b"");
    }
    Ok(())
}

#[test]
fn a_text_that_is_no_dump(rt: HostRuntime) -> Result<(), Fail> {
    let asked = call(rt.alloc(), &Request::sound(&["path", "20000010"], b"JAVA"))?;
    ends(&rt, &asked, Status::NotDump, b"not a dump: H1 at 0\n");
    Ok(())
}
