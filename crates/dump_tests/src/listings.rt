//! Dumps that `artheap read` lists, and texts that it refuses.
use crate::bytes::{BUILT_IN, FORKED};
use crate::call::{Request, call};
use crate::wanted::{ends, holds};
use artheap_top::Status;
use std::test::Fail;

#[test]
fn a_listing_ends_with_counts(rt: HostRuntime) -> Result<(), Fail> {
    for (dump, last) in [
        (
            BUILT_IN.as_slice(),
            "records 13 classes 3 objects 0 roots 0\n",
        ),
        (
            FORKED.as_slice(),
            "records 16 classes 4 objects 3 roots 3\n",
        ),
    ] {
        let called = call(rt.alloc(), &Request::sound(&["read"], dump))?;
        holds(&rt, called.status == Status::Ok);
        holds(&rt, called.report.ends_with(last.as_bytes()));
    }
    Ok(())
}

#[test]
fn a_cut_dump_is_told(rt: HostRuntime) -> Result<(), Fail> {
    let called = call(rt.alloc(), &Request::sound(&["read"], &BUILT_IN[..452]))?;
    ends(&rt, &called, Status::NotDump, b"not a dump: H3 at 444\n");
    Ok(())
}
