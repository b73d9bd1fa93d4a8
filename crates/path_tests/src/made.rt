//! Dumps that are made part by part.
use hprof_read::{Dump, TopList};
use hprof_records::{Bytes, Constants, FieldNames, Ids, Statics, SubList, SubRecord, TopRecord};
use std::alloc::{AllocError, Global};

/// A root with a tag.
pub(crate) fn root(tag: u8, id: u32) -> SubRecord {
    SubRecord::Root {
        tag,
        id,
        first: None,
        second: None,
    }
}

/// A class with fields of these types, and static references to these identifiers.
pub(crate) fn class(
    alloc: Global,
    id: u32,
    parent: u32,
    codes: &[u8],
    held: &[u32],
) -> Result<SubRecord, AllocError> {
    let mut fields = FieldNames::new(alloc);
    for code in codes {
        fields.push((1, *code))?;
    }
    let mut statics = Statics::new(alloc);
    for to in held {
        statics.push((1, 2, Bytes::of(alloc, &to.to_be_bytes())?))?;
    }
    Ok(SubRecord::ClassDump {
        id,
        stack: 0,
        parent,
        loader: 0,
        signers: 0,
        domain: 0,
        spare_a: 0,
        spare_b: 0,
        size: 0,
        constants: Constants::new(alloc),
        statics,
        fields,
    })
}

/// An instance with the bytes of its values.
pub(crate) fn instance(
    alloc: Global,
    id: u32,
    class: u32,
    bytes: &[u8],
) -> Result<SubRecord, AllocError> {
    Ok(SubRecord::Instance {
        id,
        stack: 0,
        class,
        bytes: Bytes::of(alloc, bytes)?,
    })
}

/// An array of references.
pub(crate) fn array(alloc: Global, id: u32, held: &[u32]) -> Result<SubRecord, AllocError> {
    let mut items = Ids::new(alloc);
    for to in held {
        items.push(*to)?;
    }
    Ok(SubRecord::ObjectArray {
        id,
        stack: 0,
        class: 0,
        items,
    })
}

/// An array of numbers, without them.
pub(crate) fn no_data(id: u32) -> SubRecord {
    SubRecord::NoData {
        id,
        stack: 0,
        count: 1,
        code: 8,
    }
}

/// A dump with one segment of these parts.
pub(crate) fn dump(alloc: Global, parts: SubList) -> Result<Dump, AllocError> {
    let mut top = TopList::new(alloc);
    top.push(TopRecord::Segment {
        time: 0,
        tag: 0x1c,
        length: 0,
        parts,
    })?;
    Ok(Dump { time: 0, top })
}
