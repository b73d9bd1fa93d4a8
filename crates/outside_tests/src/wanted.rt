//! What a test wants of an answer. Tests call these rather than `assert_eq!`, whose steps would each lengthen the
//! test's proof: the time for that grows as the square of its length.
ghost use Rattle.std.specs.Prelude.{◌≡◌};

use ah_outside::{Failed, MemoryShelf};
use std::process::Abort;

/// A call moves as many bytes as wanted, or fails.
pub(crate) fn moves(rt: &impl Abort, answer: Result<usize, Failed>, wanted: Result<usize, Failed>) {
    assert_eq!(rt; answer, wanted);
}

/// A call does its work, or fails.
pub(crate) fn does(rt: &impl Abort, answer: Result<(), Failed>, wanted: Result<(), Failed>)
    ensures { answer ≡ wanted }
{
    assert_eq!(rt; answer, wanted);
}

/// Bytes are those that are wanted.
pub(crate) fn has(rt: &impl Abort, bytes: &[u8], wanted: &[u8]) {
    assert_eq!(rt; bytes, wanted);
}

/// So many calls failed.
pub(crate) fn failed(rt: &impl Abort, faults: u64, wanted: u64) {
    assert_eq!(rt; faults, wanted);
}

/// A test of a value answers so.
pub(crate) fn tells(rt: &impl Abort, told: bool, wanted: bool) {
    assert_eq!(rt; told, wanted);
}

/// A shelf has one entry, of this name and these bytes.
pub(crate) fn has_entry(
    rt: &impl Abort,
    shelf: &MemoryShelf,
    name: &[u8],
    bytes: &[u8],
    closed: bool,
) {
    assert_eq!(rt; shelf.count(), 1);
    has(rt, shelf.name_at(0), name);
    has(rt, shelf.bytes_at(0), bytes);
    assert_eq!(rt; shelf.closed_at(0), closed);
}
