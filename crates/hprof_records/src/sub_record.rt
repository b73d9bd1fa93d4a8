use crate::{Bytes, Constants, FieldNames, Ids, Statics};
use std::alloc::{AllocError, Global};
use std::marker::Model;

/// What stands in a segment of a dump: a root, a class, or an object.
#[derive(Drop)]
pub enum SubRecord {
    /// A root, or an object that was found to be unreachable, with the further fields that its tag has.
    Root {
        tag: u8,
        id: u32,
        first: Option<u32>,
        second: Option<u32>,
    },
    /// The heap of the objects that follow, and the identifier of its name.
    HeapInfo {
        heap: u32,
        name: u32,
    },
    /// A class.
    ClassDump {
        id: u32,
        stack: u32,
        parent: u32,
        loader: u32,
        signers: u32,
        domain: u32,
        spare_a: u32,
        spare_b: u32,
        /// The bytes of an instance.
        size: u32,
        constants: Constants,
        statics: Statics,
        fields: FieldNames,
    },
    /// An object of a class, with the bytes of its values.
    Instance {
        id: u32,
        stack: u32,
        class: u32,
        bytes: Bytes,
    },
    /// An array of references.
    ObjectArray {
        id: u32,
        stack: u32,
        class: u32,
        items: Ids,
    },
    /// An array of numbers, with the code of their type and their bytes.
    PrimitiveArray {
        id: u32,
        stack: u32,
        code: u8,
        count: u32,
        bytes: Bytes,
    },
    /// An array of numbers, without them.
    NoData {
        id: u32,
        stack: u32,
        count: u32,
        code: u8,
    },
}

/// What stands in a segment, in order.
#[derive(Drop)]
pub struct SubList {
    parts: Vec<SubRecord>,
}

impl Model for SubList {
    ghost use Rattle.std.specs.Prelude.{List};
    ghost use Rattle.hprof_records.specs.declared.sub_record.SubRecord.{SubRecord};

    ghost Value = { List SubRecord };

    ghost view = { λ l. l.parts.items };
}

impl SubList {
    ghost use Rattle.std.specs.Prelude.{◌≡◌, [], ◌∷◌, ◌++◌, OnOk, OnErr};

    /// Nothing. It takes no memory.
    pub fn new(alloc: Global) -> SubList
        ensures { result ≡ [] }
    {
        SubList {
            parts: Vec::new(alloc),
        }
    }

    /// Puts a part behind the others. After an error the list is as before.
    pub fn push(&mut self, part: SubRecord) -> Result<(), AllocError>
        ensures pushed { OnOk result (self.new ≡ self.old ++ part ∷ []) }
        ensures unchanged { OnErr result (self.new ≡ self.old) }
    {
        self.parts.push(part)?;
        Ok(())
    }

    /// The parts, in order.
    pub fn as_slice(&self) -> &[SubRecord]
        ensures { result.now ≡ self.now }
    {
        &self.parts
    }
}
