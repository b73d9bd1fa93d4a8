//! A call of `artheap` over forms in memory, with a shelf.
use ah_outside::{MemoryShelf, MemorySink, MemorySource};
use artheap_top::{Machine, Status, artheap};
use std::alloc::{AllocError, Global};

/// How many bytes the sink and the shelf of a call have room for.
const ROOM: usize = 20_000;

/// What a call is asked: its words, its input, how many bytes of that come at once, and the numbers of the calls of the
/// source, of the sink and of the shelf that fail.
#[derive(Clone, Copy, Drop)]
pub(crate) struct Request<'a> {
    pub(crate) words: &'a [&'a str],
    pub(crate) input: &'a [u8],
    pub(crate) piece: usize,
    pub(crate) takes: &'a [u64],
    pub(crate) puts: &'a [u64],
    pub(crate) shelvings: &'a [u64],
}

impl<'a> Request<'a> {
    /// A call in one piece, without a fault.
    pub(crate) fn sound(words: &'a [&'a str], input: &'a [u8]) -> Request<'a> {
        Request {
            words,
            input,
            piece: 100_000,
            takes: &[],
            puts: &[],
            shelvings: &[],
        }
    }
}

/// How a call ended: its status, what its sink and its shelf have then, and its machine.
#[derive(Drop)]
pub(crate) struct Called {
    pub(crate) status: Status,
    pub(crate) report: Vec<u8>,
    pub(crate) shelf: MemoryShelf,
    pub(crate) machine: Machine,
}

/// Makes a call.
pub(crate) fn call(alloc: Global, asked: &Request<'_>) -> Result<Called, AllocError> {
    let mut words = Vec::new(alloc);
    for word in asked.words {
        words.push(String::from_str(alloc, word)?)?;
    }
    let mut source = MemorySource::new(alloc, asked.input, asked.piece.max(1), asked.takes)?;
    let mut sink = MemorySink::new(alloc, ROOM, asked.puts)?;
    let mut shelf = MemoryShelf::new(alloc, 6, ROOM, asked.shelvings)?;
    let mut machine = Machine::new(alloc);
    let status = artheap(
        alloc,
        words.as_slice(),
        &mut source,
        &mut sink,
        &mut shelf,
        &mut machine,
    );
    Ok(Called {
        status,
        report: Vec::from_slice(alloc, sink.bytes())?,
        shelf,
        machine,
    })
}
