//! What a test wants of a call. Tests call these rather than `assert_eq!`, whose steps would each lengthen the test's
//! proof: the time for that grows as the square of its length.
use crate::call::Called;
use artheap_top::Status;
use std::process::Abort;

/// The name and the bytes of an entry.
pub(crate) type Entry<'a> = (&'a str, &'a [u8]);

/// Something holds.
pub(crate) fn holds(rt: &impl Abort, is: bool) {
    assert!(rt; is);
}

/// A call ends with this status and this report.
pub(crate) fn ends(rt: &impl Abort, called: &Called, status: Status, report: &[u8]) {
    assert_eq!(rt; called.status, status);
    assert_eq!(rt; called.report.as_slice(), report);
}

/// The shelf has these entries and no others, each closed.
pub(crate) fn shelves(rt: &impl Abort, called: &Called, entries: &[Entry<'_>]) {
    assert_eq!(rt; called.shelf.count(), entries.len());
    for (k, (name, bytes)) in entries.iter().enumerate() {
        if k < called.shelf.count() {
            assert_eq!(rt; called.shelf.name_at(k), name.as_bytes());
            assert_eq!(rt; called.shelf.bytes_at(k), *bytes);
            assert!(rt; called.shelf.closed_at(k));
        }
    }
}

/// The shelf has the first of these entries, the last of them maybe in part.
pub(crate) fn begins(rt: &impl Abort, called: &Called, entries: &[Entry<'_>]) {
    let count = called.shelf.count();
    assert!(rt; count <= entries.len());
    for (k, (name, bytes)) in entries.iter().enumerate() {
        if k < count {
            assert_eq!(rt; called.shelf.name_at(k), name.as_bytes());
            assert!(rt; bytes.starts_with(called.shelf.bytes_at(k)));
            let is_whole = called.shelf.closed_at(k) && called.shelf.bytes_at(k) == *bytes;
            assert!(rt; is_whole || (k + 1 == count && !called.shelf.closed_at(k)));
        }
    }
}
