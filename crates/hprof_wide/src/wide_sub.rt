use crate::{WideFieldNames, WideIds, WideStatics};
use hprof_records::{Bytes, Constants};
use std::alloc::{AllocError, Global};
use std::marker::Model;

/// What stands in a segment of a wide dump: a root, a class, or an object. Its identifiers have the dump's width.
#[derive(Drop)]
pub enum WideSub {
    /// A root, or an object that was found to be unreachable, with the further fields that its tag has.
    /// The further field of a global reference of JNI, 0x01, is an identifier. Each other one has 4 bytes.
    Root {
        tag: u8,
        id: u64,
        first: Option<u64>,
        second: Option<u64>,
    },
    /// The heap of the objects that follow, and the identifier of its name.
    HeapInfo {
        heap: u32,
        name: u64,
    },
    /// A class.
    ClassDump {
        id: u64,
        stack: u32,
        parent: u64,
        loader: u64,
        signers: u64,
        domain: u64,
        spare_a: u64,
        spare_b: u64,
        /// The bytes of an instance.
        size: u32,
        constants: Constants,
        statics: WideStatics,
        fields: WideFieldNames,
    },
    /// An object of a class, with the bytes of its values.
    Instance {
        id: u64,
        stack: u32,
        class: u64,
        bytes: Bytes,
    },
    /// An array of references.
    ObjectArray {
        id: u64,
        stack: u32,
        class: u64,
        items: WideIds,
    },
    /// An array of numbers, with the code of their type and their bytes.
    PrimitiveArray {
        id: u64,
        stack: u32,
        code: u8,
        count: u32,
        bytes: Bytes,
    },
    /// An array of numbers, without them.
    NoData {
        id: u64,
        stack: u32,
        count: u32,
        code: u8,
    },
}

/// What stands in a segment, in order.
#[derive(Drop)]
pub struct WideSubList {
    parts: Vec<WideSub>,
}

impl Model for WideSubList {
    ghost use Rattle.std.specs.Prelude.{List};
    ghost use Rattle.hprof_wide.specs.declared.wide_sub.WideSub.{WideSub};

    ghost Value = { List WideSub };

    ghost view = { λ l. l.parts.items };
}

impl WideSubList {
    ghost use Rattle.std.specs.Prelude.{◌≡◌, [], ◌∷◌, ◌++◌, OnOk, OnErr};

    /// Nothing. It takes no memory.
    pub fn new(alloc: Global) -> WideSubList
        ensures { result ≡ [] }
    {
        WideSubList {
            parts: Vec::new(alloc),
        }
    }

    /// Puts a part behind the others. After an error the list is as before.
    pub fn push(&mut self, part: WideSub) -> Result<(), AllocError>
        ensures pushed { OnOk result (self.new ≡ self.old ++ part ∷ []) }
        ensures unchanged { OnErr result (self.new ≡ self.old) }
    {
        self.parts.push(part)?;
        Ok(())
    }

    /// The parts, in order.
    pub fn as_slice(&self) -> &[WideSub]
        ensures { result.now ≡ self.now }
    {
        &self.parts
    }
}
