//! An ordinary session, and an input that is too long.
use crate::call::{Request, call, call_over, gives};
use crate::runs::CUTTINGS;
use crate::wanted::{ends, has, holds};
use ah_outside::{Failed, MemorySink, Source};
use artheap_top::Status;
use std::alloc::{AllocError, Global};
use std::marker::Model;
use std::test::Fail;

const PROCESSES: [&str; 3] = ["app0", "app1", "app2"];

/// A script and its report.
#[derive(Drop)]
struct Session {
    script: String,
    report: String,
    lines: u64,
}

impl Session {
    /// Adds a line and its reply.
    fn line(&mut self, line: &str, reply: &str) -> Result<(), AllocError> {
        self.lines = self.lines.saturating_add(1);
        writeln!(self.script, "{line}")?;
        writeln!(self.report, "{}: {reply}", self.lines)
    }
}

/// 30 classes and 2,000 objects in the image, and the seal.
fn boot(alloc: Global, session: &mut Session) -> Result<(), AllocError> {
    for i in 0..30u32 {
        let line = format!(in alloc; "zygote class C{i} java.lang.Object n:ref x:int")?;
        session.line(&line, &format!(in alloc; "class {}", i + 2)?)?;
    }
    for i in 0..2_000u32 {
        let line = format!(in alloc; "zygote new o{i} C{}", i % 30)?;
        session.line(&line, &format!(in alloc; "#{}", i + 1)?)?;
    }
    session.line("zygote seal", "ok")
}

/// 500 new objects in a process, of which 50 roots hold the last ones.
fn work(alloc: Global, session: &mut Session, process: &str) -> Result<(), AllocError> {
    for j in 0..500u32 {
        let line = format!(in alloc; "{process} new t{} C{}", j % 50, j % 30)?;
        session.line(&line, &format!(in alloc; "#{}", j + 2_001)?)?;
    }
    Ok(())
}

/// A session of 3,538 lines: an image, three forks, and work in each child.
fn whole_session(alloc: Global) -> Result<Session, AllocError> {
    let mut session = Session {
        script: String::new(alloc),
        report: String::new(alloc),
        lines: 0,
    };
    boot(alloc, &mut session)?;
    for process in PROCESSES {
        session.line(&format!(in alloc; "zygote fork {process}")?, "ok")?;
    }
    for process in PROCESSES {
        work(alloc, &mut session, process)?;
    }
    session.line("app0 set o0 n t0", "ok")?;
    session.line("app0 gc", "kept 50 freed 450")?;
    session.line("app0 pages", "image 8 1 zygote 0 0 large 0 0")?;
    session.line("app0 frames", "frames 14")?;
    Ok(session)
}

#[test]
fn a_session_gives_its_report_in_any_pieces(rt: HostRuntime) -> Result<(), Fail> {
    let alloc = rt.alloc();
    let session = whole_session(alloc)?;
    holds(&rt, session.lines == 3_538);
    for piece in CUTTINGS {
        let made = Request {
            words: &["run"],
            script: session.script.as_bytes(),
            piece,
            takes: &[],
            puts: &[],
        };
        let _ = gives(&rt, alloc, &made, session.report.as_bytes(), Status::Ok)?;
    }
    Ok(())
}

/// A source of so many bytes, `#` and line feed by turns. It doesn't tell them.
#[derive(Drop)]
struct Remarks {
    left: usize,
}

impl Source for Remarks {
    ghost use Rattle.std.specs.Prelude.{None};

    ghost left = { λ _. None };

    ghost fault_count = { λ _. 0 };

    fn faults(&self) -> u64 {
        0
    }

    fn take(&mut self, buf: &mut [u8]) -> Result<usize, Failed> {
        let count = self.left.min(buf.len());
        for (i, b) in buf[..count].iter_mut().enumerate() {
            *b = if i % 2 == 0 { b'#' } else { b'\n' };
        }
        self.left -= count;
        Ok(count)
    }
}

#[test]
fn one_byte_is_too_many(rt: HostRuntime) -> Result<(), Fail> {
    let alloc = rt.alloc();
    let mut source = Remarks { left: 268_435_457 };
    let mut sink = MemorySink::new(alloc, 1_000, &[])?;
    let (status, _) = call_over(alloc, &["run"], &mut source, &mut sink)?;
    ends(&rt, status, Status::TooLong);
    has(&rt, sink.bytes(), b"");
    Ok(())
}

#[test]
fn a_long_soak_puts_the_same_twice(rt: HostRuntime) -> Result<(), Fail> {
    let made = Request {
        words: &["soak", "7", "100000", "--regions", "2"],
        script: b"zygote gc\n",
        piece: 7,
        takes: &[],
        puts: &[],
    };
    let first = call(rt.alloc(), &made)?.report;
    holds(
        &rt,
        first.starts_with(b"soak 7 100000\nlines 100011\nrefused "),
    );
    let _ = gives(&rt, rt.alloc(), &made, &first, Status::Refused)?;
    Ok(())
}
