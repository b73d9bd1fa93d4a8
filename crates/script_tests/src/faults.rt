//! Where a run stops when its source or its sink fails.
use crate::call::{Called, Request, call, gives};
use crate::wanted::{counts, ends, has, holds, sums};
use artheap_top::Status;
use class_layout::Name;
use plain_dumps::address;
use std::alloc::{AllocError, Global};
use std::process::Abort;
use std::test::Fail;

/// A line of a script, its line in the report, and then how many processes live and how many objects they have.
#[derive(Drop)]
struct Step {
    line: &'static [u8],
    reply: &'static [u8],
    live: usize,
    objects: u128,
}

/// A store after a fork, and an exit.
const STEPS: [Step; 15] = [
    Step {
        line: b"zygote class P java.lang.Object x:int\n",
        reply: b"1: class 2\n",
        live: 1,
        objects: 0,
    },
    Step {
        line: b"zygote seal\n",
        reply: b"2: ok\n",
        live: 1,
        objects: 0,
    },
    Step {
        line: b"zygote new a P\n",
        reply: b"3: #1\n",
        live: 1,
        objects: 1,
    },
    Step {
        line: b"zygote set a x 7\n",
        reply: b"4: ok\n",
        live: 1,
        objects: 1,
    },
    Step {
        line: b"zygote fork c1\n",
        reply: b"5: ok\n",
        live: 2,
        objects: 2,
    },
    Step {
        line: b"c1 set a x 9\n",
        reply: b"6: ok\n",
        live: 2,
        objects: 2,
    },
    Step {
        line: b"zygote get a x\n",
        reply: b"7: 7\n",
        live: 2,
        objects: 2,
    },
    Step {
        line: b"c1 get a x\n",
        reply: b"8: 9\n",
        live: 2,
        objects: 2,
    },
    Step {
        line: b"c1 pages\n",
        reply: b"9: image 0 0 zygote 1 1 large 0 0\n",
        live: 2,
        objects: 2,
    },
    Step {
        line: b"zygote pages\n",
        reply: b"10: image 0 0 zygote 1 0 large 0 0\n",
        live: 2,
        objects: 2,
    },
    Step {
        line: b"zygote frames\n",
        reply: b"11: frames 2\n",
        live: 2,
        objects: 2,
    },
    Step {
        line: b"zygote exit\n",
        reply: b"12: ok\n",
        live: 1,
        objects: 1,
    },
    Step {
        line: b"c1 get a x\n",
        reply: b"13: 9\n",
        live: 1,
        objects: 1,
    },
    Step {
        line: b"c1 frames\n",
        reply: b"14: frames 1\n",
        live: 1,
        objects: 1,
    },
    Step {
        line: b"zygote get a x\n",
        reply: b"15: E4 process exited\n",
        live: 1,
        objects: 1,
    },
];

/// How many bytes a source gives at once here.
const PIECE: usize = 20;

/// What is wanted of a run that stopped behind some lines.
#[derive(Drop)]
struct Wanted {
    report: Vec<u8>,
    taken: usize,
    live: usize,
    objects: u128,
}

/// The bytes of the script.
fn script(alloc: Global) -> Result<Vec<u8>, AllocError> {
    let mut text = Vec::new(alloc);
    for step in &STEPS {
        text.extend_from_slice(step.line)?;
    }
    Ok(text)
}

/// How many lines have their line feed within the first bytes.
fn lines_within(bytes: usize) -> usize {
    let mut end = 0usize;
    let mut count = 0usize;
    for step in &STEPS {
        end = end.saturating_add(step.line.len());
        if end <= bytes {
            count = count.saturating_add(1);
        }
    }
    count
}

/// What is wanted where so many replies were put whole and so many lines were run.
fn wanted_after(alloc: Global, replies: usize, lines: usize) -> Result<Wanted, AllocError> {
    let mut wanted = Wanted {
        report: Vec::new(alloc),
        taken: 0,
        live: 1,
        objects: 0,
    };
    for (k, step) in STEPS.iter().enumerate() {
        if k < replies {
            wanted.report.extend_from_slice(step.reply)?;
        }
        if k < lines {
            wanted.taken = wanted.taken.saturating_add(step.line.len());
            wanted.live = step.live;
            wanted.objects = step.objects;
        }
    }
    Ok(wanted)
}

/// Runs the script with these calls of the source and of the sink failing.
fn run_with(alloc: Global, takes: &[u64], puts: &[u64]) -> Result<Called, AllocError> {
    let text = script(alloc)?;
    call(
        alloc,
        &Request {
            words: &["run"],
            script: &text,
            piece: PIECE,
            takes,
            puts,
        },
    )
}

/// A run took so many of the script's bytes, and left what is wanted.
fn left(rt: &impl Abort, called: &Called, taken: usize, all: usize, wanted: &Wanted) {
    counts(rt, called.left, all.saturating_sub(taken));
    has(rt, &called.report, &wanted.report);
    counts(rt, called.machine.live_count(), wanted.live);
    sums(rt, called.machine.objects(), wanted.objects);
}

/// The bytes that a source with pieces has given once it gave so many: whole pieces, or all.
fn whole_pieces(bytes: usize, all: usize) -> usize {
    bytes.div_ceil(PIECE).saturating_mul(PIECE).min(all)
}

#[test]
fn each_take_may_fail(rt: HostRuntime) -> Result<(), Fail> {
    let alloc = rt.alloc();
    let all = script(alloc)?.len();
    for k in 0..100 {
        let called = run_with(alloc, &[k + 1], &[])?;
        let taken = usize::from(k as u8).saturating_mul(PIECE).min(all);
        let lines = lines_within(taken);
        left(
            &rt,
            &called,
            taken,
            all,
            &wanted_after(alloc, lines, lines)?,
        );
        if called.status == Status::Refused {
            counts(&rt, lines, STEPS.len());
            return Ok(());
        }
        ends(&rt, called.status, Status::ReadFault);
    }
    holds(&rt, false);
    Ok(())
}

#[test]
fn each_put_may_fail(rt: HostRuntime) -> Result<(), Fail> {
    let alloc = rt.alloc();
    let all = script(alloc)?.len();
    for k in 0..STEPS.len() {
        let called = run_with(alloc, &[], &[k as u64 + 1])?;
        let wanted = wanted_after(alloc, k, k + 1)?;
        ends(&rt, called.status, Status::WriteFault);
        left(&rt, &called, whole_pieces(wanted.taken, all), all, &wanted);
    }
    let called = run_with(alloc, &[], &[STEPS.len() as u64 + 1])?;
    ends(&rt, called.status, Status::Refused);
    Ok(())
}

/// Two lines, and then as many remarks.
fn remarks_behind(alloc: Global, remarks: usize) -> Result<Vec<u8>, AllocError> {
    let mut text = Vec::new(alloc);
    text.extend_from_slice(b"zygote class P java.lang.Object x:int\nzygote new a P\n")?;
    for _ in 0..remarks {
        text.extend_from_slice(b"#\n")?;
    }
    Ok(text)
}

#[test]
fn a_failed_put_ends_the_taking(rt: HostRuntime) -> Result<(), Fail> {
    let alloc = rt.alloc();
    let text = remarks_behind(alloc, 20_000)?;
    counts(&rt, text.len(), 40_053);
    let made = Request {
        words: &["run"],
        script: &text,
        piece: 40_053,
        takes: &[],
        puts: &[2],
    };
    let called = gives(&rt, alloc, &made, b"1: class 2\n", Status::WriteFault)?;
    holds(&rt, called.left >= 35_905);
    let zygote = Name::of(b"zygote").unwrap();
    let at = address(alloc, &called.machine, &zygote, 1)?;
    holds(&rt, at.map(|at| at.0) == Some(0x2000_0000));
    Ok(())
}
