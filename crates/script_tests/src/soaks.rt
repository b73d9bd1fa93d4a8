//! Soaks with their summaries.
use crate::call::{Request, gives};
use artheap_top::Status;
use std::test::Fail;

/// The words of a soak, its summary, and how it ends.
struct Row {
    words: &'static [&'static str],
    fails: &'static [u64],
    summary: &'static [u8],
    status: Status,
}

const ROWS: [Row; 4] = [
    Row {
        words: &["soak", "1", "0", "--regions", "64"],
        fails: &[],
        summary: b"soak 1 0\nlines 11\nrefused 0\ncollections 0\nprocesses 1\nobjects 9\nframes 1\n",
        status: Status::Ok,
    },
    Row {
        words: &["soak", "1", "2", "--regions", "64"],
        fails: &[],
        summary: b"soak 1 2\nlines 13\nrefused 0\ncollections 0\nprocesses 1\nobjects 9\nframes 1\n",
        status: Status::Ok,
    },
    // forks, full heaps and collections
    Row {
        words: &["soak", "7", "500", "--regions", "1"],
        fails: &[],
        summary: b"soak 7 500\nlines 511\nrefused 9\ncollections 5\nprocesses 2\nobjects 123\nframes 12\n",
        status: Status::Refused,
    },
    // a write fault
    Row {
        words: &["soak", "1", "0", "--regions", "64"],
        fails: &[1],
        summary: b"",
        status: Status::WriteFault,
    },
];

#[test]
fn soaks_give_their_summaries(rt: HostRuntime) -> Result<(), Fail> {
    for row in &ROWS {
        let made = Request {
            words: row.words,
            script: b"",
            piece: 1,
            takes: &[1],
            puts: row.fails,
        };
        let _ = gives(&rt, rt.alloc(), &made, row.summary, row.status)?;
    }
    Ok(())
}
