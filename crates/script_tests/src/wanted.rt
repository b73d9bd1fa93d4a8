//! What a test wants of an answer. Tests call these rather than `assert_eq!`, whose steps would each lengthen the
//! test's proof: the time for that grows as the square of its length.
use artheap_top::Status;
use std::process::Abort;

/// Bytes are those that are wanted.
pub(crate) fn has(rt: &impl Abort, bytes: &[u8], wanted: &[u8]) {
    assert_eq!(rt; bytes, wanted);
}

/// A call ends so.
pub(crate) fn ends(rt: &impl Abort, status: Status, wanted: Status) {
    assert_eq!(rt; status, wanted);
}

/// A count is as wanted.
pub(crate) fn counts(rt: &impl Abort, count: usize, wanted: usize) {
    assert_eq!(rt; count, wanted);
}

/// A sum is as wanted.
pub(crate) fn sums(rt: &impl Abort, sum: u128, wanted: u128) {
    assert_eq!(rt; sum, wanted);
}

/// A number, if there is one, is as wanted.
pub(crate) fn tells(rt: &impl Abort, told: Option<usize>, wanted: Option<usize>) {
    assert_eq!(rt; told, wanted);
}

/// Something holds.
pub(crate) fn holds(rt: &impl Abort, is: bool) {
    assert!(rt; is);
}
