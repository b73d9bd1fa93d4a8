use crate::{WideIds, WideSubList};
use hprof_records::Bytes;
use std::alloc::{AllocError, Global};
use std::marker::Model;

/// A record of a wide dump. Its identifiers have the dump's width, and its time is in microseconds since that of the header.
#[derive(Drop)]
pub enum WideTop {
    /// A string: the text's bytes, under an identifier.
    Text {
        time: u32,
        id: u64,
        bytes: Bytes,
    },
    /// A class that was loaded, with the identifier of its name.
    LoadClass {
        time: u32,
        serial: u32,
        class: u64,
        stack: u32,
        name: u64,
        /// Bytes after the last field, which mean nothing.
        rest: Bytes,
    },
    /// A stack trace.
    Trace {
        time: u32,
        serial: u32,
        thread: u32,
        frames: WideIds,
        /// Bytes after the last frame, which mean nothing.
        rest: Bytes,
    },
    /// A segment of the heap dump, and the length of its parts in bytes.
    Segment {
        time: u32,
        tag: u8,
        length: u32,
        parts: WideSubList,
    },
    /// A record that is passed over, the end of a heap dump among them.
    Other {
        time: u32,
        tag: u8,
        body: Bytes,
    },
}

/// The records of a wide dump, in order.
#[derive(Drop)]
pub struct WideList {
    records: Vec<WideTop>,
}

impl Model for WideList {
    ghost use Rattle.std.specs.Prelude.{List};
    ghost use Rattle.hprof_wide.specs.declared.wide_top.WideTop.{WideTop};

    ghost Value = { List WideTop };

    ghost view = { λ l. l.records.items };
}

impl WideList {
    ghost use Rattle.std.specs.Prelude.{◌≡◌, [], ◌∷◌, ◌++◌, OnOk, OnErr};

    /// No records. It takes no memory.
    pub fn new(alloc: Global) -> WideList
        ensures { result ≡ [] }
    {
        WideList {
            records: Vec::new(alloc),
        }
    }

    /// Puts a record behind the others. After an error the list is as before.
    pub fn push(&mut self, one: WideTop) -> Result<(), AllocError>
        ensures pushed { OnOk result (self.new ≡ self.old ++ one ∷ []) }
        ensures unchanged { OnErr result (self.new ≡ self.old) }
    {
        self.records.push(one)?;
        Ok(())
    }

    /// The records, in order.
    pub fn as_slice(&self) -> &[WideTop]
        ensures { result.now ≡ self.now }
    {
        &self.records
    }
}
