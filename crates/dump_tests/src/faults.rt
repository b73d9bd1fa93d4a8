//! Where a run that dumps stops when its source, its sink or its shelf fails.
use crate::call::{Called, Request, call};
use crate::runs::{FORKED_ENTRIES, FORKING};
use crate::wanted::{begins, ends, holds, shelves};
use artheap_top::Status;
use class_layout::Name;
use plain_dumps::address;
use std::alloc::{AllocError, Global};
use std::process::Abort;
use std::test::Fail;

/// A line's end in the script, its line in the report, and then the addresses of the object of the image, of the one that
/// the fork takes along, each in `zygote`, and of the child's own.
#[derive(Drop)]
struct Step {
    end: usize,
    reply: &'static [u8],
    addresses: [Option<u32>; 3],
}

const IN_IMAGE: Option<u32> = Some(0x2000_0000);

const IN_ZYGOTE: Option<u32> = Some(0x3000_0000);

const IN_REGION: Option<u32> = Some(0x4000_0000);

const STEPS: [Step; 8] = [
    Step {
        end: 38,
        reply: b"1: class 2\n",
        addresses: [None, None, None],
    },
    Step {
        end: 53,
        reply: b"2: #1\n",
        addresses: [IN_IMAGE, None, None],
    },
    Step {
        end: 65,
        reply: b"3: ok\n",
        addresses: [IN_IMAGE, None, None],
    },
    Step {
        end: 80,
        reply: b"4: #2\n",
        addresses: [IN_IMAGE, IN_REGION, None],
    },
    Step {
        end: 95,
        reply: b"5: ok\n",
        addresses: [IN_IMAGE, IN_ZYGOTE, None],
    },
    Step {
        end: 106,
        reply: b"6: #3\n",
        addresses: [IN_IMAGE, IN_ZYGOTE, IN_REGION],
    },
    Step {
        end: 112,
        reply: b"7: kept 1 freed 0\n",
        addresses: [IN_IMAGE, IN_ZYGOTE, IN_REGION],
    },
    Step {
        end: 120,
        reply: b"8: dump 1 objects 3\n",
        addresses: [IN_IMAGE, IN_ZYGOTE, IN_REGION],
    },
];

/// How many bytes a source gives at once here.
const PIECE: usize = 20;

/// Runs the script with these calls of the source, of the sink and of the shelf failing.
fn run_with(
    alloc: Global,
    takes: &[u64],
    puts: &[u64],
    shelvings: &[u64],
) -> Result<Called, AllocError> {
    call(
        alloc,
        &Request {
            words: &["run"],
            input: FORKING,
            piece: PIECE,
            takes,
            puts,
            shelvings,
        },
    )
}

/// The report of the first lines.
fn report_of(alloc: Global, lines: usize) -> Result<Vec<u8>, AllocError> {
    let mut report = Vec::new(alloc);
    for step in STEPS.iter().take(lines) {
        report.extend_from_slice(step.reply)?;
    }
    Ok(report)
}

/// An object of a process stands at this address.
fn stands(
    rt: &impl Abort,
    alloc: Global,
    called: &Called,
    process: &Name,
    number: u32,
    wanted: Option<u32>,
) -> Result<(), AllocError> {
    let at = address(alloc, &called.machine, process, number)?;
    holds(rt, at.map(|at| at.0) == wanted);
    Ok(())
}

/// The shelf has both entries of the dump, or none.
fn shelves_all_or_none(rt: &impl Abort, called: &Called, all: bool) {
    if all {
        shelves(rt, called, &FORKED_ENTRIES);
    } else {
        shelves(rt, called, &[]);
    }
}

/// The machine of a call stands as after the first lines.
fn stands_after(
    rt: &impl Abort,
    alloc: Global,
    called: &Called,
    lines: usize,
) -> Result<(), AllocError> {
    let mut addresses = [None; 3];
    for step in STEPS.iter().take(lines) {
        addresses = step.addresses;
    }
    let zygote = Name::of(b"zygote").unwrap();
    let child = Name::of(b"c1").unwrap();
    stands(rt, alloc, called, &zygote, 1, addresses[0])?;
    stands(rt, alloc, called, &zygote, 2, addresses[1])?;
    stands(rt, alloc, called, &child, 3, addresses[2])
}

/// How many lines have their line feed within the first bytes.
fn lines_within(bytes: usize) -> usize {
    STEPS.iter().filter(|step| step.end <= bytes).count()
}

#[test]
fn each_take_may_fail(rt: HostRuntime) -> Result<(), Fail> {
    // six takes give the whole script, and the seventh its end
    for (before, take) in (1..=7u64).enumerate() {
        let called = run_with(rt.alloc(), &[take], &[], &[])?;
        let lines = lines_within(before.saturating_mul(PIECE));
        let report = report_of(rt.alloc(), lines)?;
        ends(&rt, &called, Status::ReadFault, &report);
        shelves_all_or_none(&rt, &called, lines == STEPS.len());
        stands_after(&rt, rt.alloc(), &called, lines)?;
    }
    let called = run_with(rt.alloc(), &[8], &[], &[])?;
    ends(&rt, &called, Status::Ok, &report_of(rt.alloc(), 8)?);
    Ok(())
}

#[test]
fn each_put_may_fail(rt: HostRuntime) -> Result<(), Fail> {
    for (before, put) in (1..=8u64).enumerate() {
        let called = run_with(rt.alloc(), &[], &[put], &[])?;
        let report = report_of(rt.alloc(), before)?;
        ends(&rt, &called, Status::WriteFault, &report);
        shelves_all_or_none(&rt, &called, put == 8);
        stands_after(&rt, rt.alloc(), &called, before + 1)?;
    }
    let called = run_with(rt.alloc(), &[], &[9], &[])?;
    ends(&rt, &called, Status::Ok, &report_of(rt.alloc(), 8)?);
    Ok(())
}

#[test]
fn no_entry_can_be_begun(rt: HostRuntime) -> Result<(), Fail> {
    let asked = Request {
        shelvings: &[1],
        ..Request::sound(&["run"], b"zygote seal\nzygote dump\n")
    };
    let called = call(rt.alloc(), &asked)?;
    ends(&rt, &called, Status::ShelfFault, b"1: ok\n");
    shelves(&rt, &called, &[]);
    Ok(())
}

#[test]
fn each_call_of_the_shelf_may_fail(rt: HostRuntime) -> Result<(), Fail> {
    for call in 1..=50u64 {
        let called = run_with(rt.alloc(), &[], &[], &[call])?;
        if called.status == Status::Ok {
            // begins and finishes two entries, and puts the dump and its table in a piece each at least
            holds(&rt, call > 6);
            ends(&rt, &called, Status::Ok, &report_of(rt.alloc(), 8)?);
            shelves(&rt, &called, &FORKED_ENTRIES);
            return Ok(());
        }
        ends(&rt, &called, Status::ShelfFault, &report_of(rt.alloc(), 7)?);
        begins(&rt, &called, &FORKED_ENTRIES);
        stands_after(&rt, rt.alloc(), &called, 8)?;
    }
    holds(&rt, false);
    Ok(())
}
