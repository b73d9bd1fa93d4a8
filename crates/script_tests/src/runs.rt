//! Whole runs: reports, statuses, and what a machine counts after them.
ghost use Rattle.heap_world.specs.Commands.{HasFewFields};

use crate::call::{Request, call, gives};
use crate::rows::ROWS;
use crate::wanted::{counts, holds, sums, tells};
use artheap_top::{Machine, Status};
use class_layout::Name;
use heap_world::{Command, Refusal, Reply, Verb};
use std::alloc::AllocError;
use std::process::Abort;
use std::test::Fail;

const THREE_LINES: &[u8] =
    b"zygote class P java.lang.Object x:int\nzygote new a P\nzygote get a x\n";

/// How many bytes a source gives at once.
pub(crate) const CUTTINGS: [usize; 5] = [1, 2, 3, 7, 4_096];

#[test]
fn scripts_give_their_reports(rt: HostRuntime) -> Result<(), Fail> {
    for row in &ROWS {
        for piece in CUTTINGS {
            let made = Request {
                words: &["run", "--regions", row.regions],
                script: row.script,
                piece,
                takes: &[],
                puts: &[],
            };
            let called = gives(&rt, rt.alloc(), &made, row.report, row.status)?;
            counts(&rt, called.left, 0);
        }
    }
    Ok(())
}

/// A call, and how it ends.
struct Case {
    words: &'static [&'static str],
    script: &'static [u8],
    takes: &'static [u64],
    puts: &'static [u64],
    report: &'static [u8],
    status: Status,
}

const CASES: [Case; 21] = [
    Case {
        words: &["run"],
        script: b"",
        takes: &[],
        puts: &[],
        report: b"",
        status: Status::Ok,
    },
    Case {
        words: &["run"],
        script: THREE_LINES,
        takes: &[1],
        puts: &[],
        report: b"",
        status: Status::ReadFault,
    },
    Case {
        words: &["run"],
        script: THREE_LINES,
        takes: &[2],
        puts: &[],
        report: b"1: class 2\n2: #1\n3: 0\n",
        status: Status::ReadFault,
    },
    Case {
        words: &["run"],
        script: THREE_LINES,
        takes: &[],
        puts: &[2],
        report: b"1: class 2\n",
        status: Status::WriteFault,
    },
    Case {
        words: &["run", "--regions", "512"],
        script: b"",
        takes: &[],
        puts: &[],
        report: b"",
        status: Status::Ok,
    },
    Case {
        words: &["run", "--regions", "0"],
        script: b"",
        takes: &[1],
        puts: &[],
        report: b"",
        status: Status::Usage,
    },
    Case {
        words: &["run", "--regions", "513"],
        script: b"",
        takes: &[1],
        puts: &[],
        report: b"",
        status: Status::Usage,
    },
    Case {
        words: &["run", "--regions", "+1"],
        script: b"",
        takes: &[1],
        puts: &[],
        report: b"",
        status: Status::Usage,
    },
    Case {
        words: &["run", "--regions", "01"],
        script: b"",
        takes: &[1],
        puts: &[],
        report: b"",
        status: Status::Usage,
    },
    Case {
        words: &["run", "--regions", "1", "--regions", "1"],
        script: b"",
        takes: &[1],
        puts: &[],
        report: b"",
        status: Status::Usage,
    },
    Case {
        words: &["walk"],
        script: THREE_LINES,
        takes: &[1],
        puts: &[1],
        report: b"",
        status: Status::Usage,
    },
    Case {
        words: &["soak", "1"],
        script: b"",
        takes: &[1],
        puts: &[1],
        report: b"",
        status: Status::Usage,
    },
    Case {
        words: &["soak", "2147483648", "1"],
        script: b"",
        takes: &[1],
        puts: &[1],
        report: b"",
        status: Status::Usage,
    },
    Case {
        words: &["soak", "1", "1000001"],
        script: b"",
        takes: &[1],
        puts: &[1],
        report: b"",
        status: Status::Usage,
    },
    Case {
        words: &[],
        script: THREE_LINES,
        takes: &[1],
        puts: &[1],
        report: b"",
        status: Status::Usage,
    },
    Case {
        words: &["run", "--regions", "1", "--time", "18446744073709551615"],
        script: b"",
        takes: &[],
        puts: &[],
        report: b"",
        status: Status::Ok,
    },
    Case {
        words: &["run", "--time", "18446744073709551616"],
        script: b"",
        takes: &[1],
        puts: &[],
        report: b"",
        status: Status::Usage,
    },
    Case {
        words: &["run", "--time", "01"],
        script: b"",
        takes: &[1],
        puts: &[],
        report: b"",
        status: Status::Usage,
    },
    Case {
        words: &["run", "--time"],
        script: b"",
        takes: &[1],
        puts: &[],
        report: b"",
        status: Status::Usage,
    },
    Case {
        words: &["run", "--time", "1", "--regions", "1"],
        script: b"",
        takes: &[1],
        puts: &[],
        report: b"",
        status: Status::Usage,
    },
    Case {
        words: &["soak", "1", "2", "--time", "1"],
        script: b"",
        takes: &[1],
        puts: &[],
        report: b"",
        status: Status::Usage,
    },
];

#[test]
fn words_faults_and_limits_have_their_status(rt: HostRuntime) -> Result<(), Fail> {
    for case in &CASES {
        let made = Request {
            words: case.words,
            script: case.script,
            piece: 100_000,
            takes: case.takes,
            puts: case.puts,
        };
        let _ = gives(&rt, rt.alloc(), &made, case.report, case.status)?;
    }
    Ok(())
}

/// A run of a script, in one piece and without a fault.
fn run(script: &[u8]) -> Request<'_> {
    Request {
        words: &["run"],
        script,
        piece: 100_000,
        takes: &[],
        puts: &[],
    }
}

/// Lines at the edges of the grammar; the last one lacks its name.
const EDGES: &[u8] =
    b"zygote gc\r\nzygote set a x -0\nzygote set a x 9223372036854775808\nzygote get a\nzygote at a 01\nzygote show a\xc3\nzygote show a\x00b\nzygote show ";

/// Their replies, behind those of a line of 4,096 blanks and of one with a blank more.
const EDGE_REPLIES: &[u8] =
    b"2: E2 line too long\n3: E16 not sealed\n4: E1 bad line\n5: E1 bad line\n6: E1 bad line\n7: E1 bad line\n8: E1 bad line\n9: E1 bad line\n10: E1 bad line\n";

/// Adds a line of one byte, repeated.
fn push_line(script: &mut Vec<u8>, byte: u8, count: usize) -> Result<(), AllocError> {
    for _ in 0..count {
        script.push(byte)?;
    }
    script.push(b'\n')?;
    Ok(())
}

#[test]
fn lines_at_the_edges_of_the_grammar(rt: HostRuntime) -> Result<(), Fail> {
    let mut script = Vec::new(rt.alloc());
    push_line(&mut script, b' ', 4_096)?;
    push_line(&mut script, b' ', 4_097)?;
    script.extend_from_slice(EDGES)?;
    push_line(&mut script, b'a', 129)?;
    let _ = gives(
        &rt,
        rt.alloc(),
        &run(&script),
        EDGE_REPLIES,
        Status::Refused,
    )?;
    Ok(())
}

/// A command that makes an object of class 0.
fn make(root: Name) -> Command
    ensures { HasFewFields result.verb }
{
    Command {
        process: Name::of(b"zygote").unwrap(),
        verb: Verb::New {
            root,
            class: Name::of(b"java.lang.Object").unwrap(),
        },
    }
}

#[test]
fn numbers_end(rt: HostRuntime) -> Result<(), Fail> {
    let mut machine = Machine::new(rt.alloc());
    machine.prepare(64, 268_435_455)?;
    let first = machine.step(1, &make(Name::of(b"a").unwrap()))?;
    assert!(rt;
        matches!(
            first,
            Reply::Made {
                number: 268_435_455,
                collected: false
            }
        )
    );
    let second = machine.step(2, &make(Name::of(b"b").unwrap()))?;
    assert!(rt; matches!(second, Reply::Refused(Refusal::NumberLimit)));
    Ok(())
}

const FORKED: &[u8] =
    b"zygote class P java.lang.Object x:int\nzygote new a P\nzygote seal\nzygote new b P\nzygote fork app\napp new c P\napp set a x 7\nzygote new d P\nzygote new e P\n";

const PARENT_EXITED: &[u8] =
    b"zygote class P java.lang.Object x:int\nzygote new a P\nzygote seal\nzygote new b P\nzygote fork app\napp new c P\napp set a x 7\nzygote new d P\nzygote new e P\nzygote exit\n";

/// What counts a machine: its live processes, the objects of `zygote` and of `app`, all objects, and the frames.
struct Counts {
    script: &'static [u8],
    live: usize,
    in_zygote: Option<usize>,
    in_app: Option<usize>,
    objects: u128,
    frames: u64,
}

const COUNTS: [Counts; 3] = [
    Counts {
        script: b"",
        live: 1,
        in_zygote: Some(0),
        in_app: None,
        objects: 0,
        frames: 0,
    },
    Counts {
        script: FORKED,
        live: 2,
        in_zygote: Some(4),
        in_app: Some(3),
        objects: 7,
        frames: 5,
    },
    Counts {
        script: PARENT_EXITED,
        live: 1,
        in_zygote: None,
        in_app: Some(3),
        objects: 3,
        frames: 3,
    },
];

/// A process has so many objects, or doesn't live.
fn has_objects(rt: &impl Abort, machine: &Machine, process: &Name, wanted: Option<usize>) {
    holds(rt, machine.is_live(process) == wanted.is_some());
    tells(rt, machine.object_count(process), wanted);
}

#[test]
fn machines_count(rt: HostRuntime) -> Result<(), Fail> {
    let zygote = Name::of(b"zygote").unwrap();
    let app = Name::of(b"app").unwrap();
    for row in &COUNTS {
        let machine = call(rt.alloc(), &run(row.script))?.machine;
        counts(&rt, machine.live_count(), row.live);
        has_objects(&rt, &machine, &zygote, row.in_zygote);
        has_objects(&rt, &machine, &app, row.in_app);
        sums(&rt, machine.objects(), row.objects);
        sums(
            &rt,
            u128::from(machine.frames_used()?),
            u128::from(row.frames),
        );
    }
    Ok(())
}
