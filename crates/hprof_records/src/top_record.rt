use crate::{Bytes, Ids, SubList};

/// A record of a dump. Its time is in microseconds since that of the header.
#[derive(Drop)]
pub enum TopRecord {
    /// A string: the text's bytes, under an identifier.
    Text {
        time: u32,
        id: u32,
        bytes: Bytes,
    },
    /// A class that was loaded, with the identifier of its name.
    LoadClass {
        time: u32,
        serial: u32,
        class: u32,
        stack: u32,
        name: u32,
        /// Bytes after the last field, which mean nothing.
        rest: Bytes,
    },
    /// A stack trace.
    Trace {
        time: u32,
        serial: u32,
        thread: u32,
        frames: Ids,
        /// Bytes after the last frame, which mean nothing.
        rest: Bytes,
    },
    /// A segment of the heap dump, and the length of its parts in bytes.
    Segment {
        time: u32,
        tag: u8,
        length: u32,
        parts: SubList,
    },
    /// A record that is passed over, the end of a heap dump among them.
    Other {
        time: u32,
        tag: u8,
        body: Bytes,
    },
}
