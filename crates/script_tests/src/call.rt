//! A call of `artheap` over forms in memory.
use crate::wanted::{ends, has};
use ah_outside::{MemorySink, MemorySource, SoundShelf, Source};
use artheap_top::{Machine, Status, artheap};
use std::alloc::{AllocError, Global};
use std::process::Abort;

/// How many bytes a sink of a call has room for.
const ROOM: usize = 100_000;

/// What a call is asked: its words, the bytes of its source, how many of them it gives at once, and the numbers of the
/// calls of the source and of the sink that fail.
#[derive(Clone, Copy, Drop)]
pub(crate) struct Request<'a> {
    pub(crate) words: &'a [&'a str],
    pub(crate) script: &'a [u8],
    pub(crate) piece: usize,
    pub(crate) takes: &'a [u64],
    pub(crate) puts: &'a [u64],
}

/// How a call ended: what its sink has then, how many bytes its source has left, and its machine.
#[derive(Drop)]
pub(crate) struct Called {
    pub(crate) status: Status,
    pub(crate) report: Vec<u8>,
    pub(crate) left: usize,
    pub(crate) machine: Machine,
}

/// Calls `artheap` with these words over a source and a sink, with a sound shelf, and gives the machine.
pub(crate) fn call_over<S: Source>(
    alloc: Global,
    words: &[&str],
    source: &mut S,
    sink: &mut MemorySink,
) -> Result<(Status, Machine), AllocError> {
    let mut shelf = SoundShelf::new();
    let mut machine = Machine::new(alloc);
    let mut owned = Vec::new(alloc);
    for word in words {
        owned.push(String::from_str(alloc, word)?)?;
    }
    let status = artheap(
        alloc,
        owned.as_slice(),
        source,
        sink,
        &mut shelf,
        &mut machine,
    );
    Ok((status, machine))
}

/// Makes a call.
pub(crate) fn call(alloc: Global, asked: &Request<'_>) -> Result<Called, AllocError> {
    let mut source = MemorySource::new(alloc, asked.script, asked.piece.max(1), asked.takes)?;
    let mut sink = MemorySink::new(alloc, ROOM, asked.puts)?;
    let (status, machine) = call_over(alloc, asked.words, &mut source, &mut sink)?;
    Ok(Called {
        status,
        report: Vec::from_slice(alloc, sink.bytes())?,
        left: source.left().len(),
        machine,
    })
}

/// A call ends with this report and so.
pub(crate) fn gives(
    rt: &impl Abort,
    alloc: Global,
    asked: &Request<'_>,
    report: &[u8],
    status: Status,
) -> Result<Called, AllocError> {
    let called = call(alloc, asked)?;
    has(rt, &called.report, report);
    ends(rt, called.status, status);
    Ok(called)
}
