use class_layout::{FieldAt, Kind, Name};

/// What an object is: an instance of a class, by the class's number, or an array of a kind with a count of elements.
#[derive(Clone, Copy, Debug, PartialEq, Eq)]
pub enum Shape {
    Instance(u32),
    Array { kind: Kind, count: u32 },
}

/// Where an object stands. A spot is an address.
#[derive(Clone, Copy, Debug, PartialEq, Eq)]
pub enum Place {
    /// In the image, where it stays.
    Image(u32),
    /// In the zygote window, where a fork put it.
    Zygote(u32),
    /// In a region, until a fork promotes it; a collection may move it.
    Young,
    /// In a large slot.
    Large,
    /// In a large slot, and of the zygote since a fork.
    Promoted,
}

/// What a field or an element holds: a number, nothing, or an object by its allocation number.
#[derive(Clone, Copy, Debug, PartialEq, Eq)]
pub enum Content {
    Number(i64),
    Null,
    Object(u32),
}

/// What a root holds: nothing, or an object by its allocation number.
#[derive(Clone, Copy, Debug, PartialEq, Eq)]
pub enum Held {
    Null,
    Object(u32),
}

/// A field or an element that was stored to: where it stands in its object, and what it holds.
#[derive(Clone, Copy, Debug, PartialEq, Eq)]
pub struct Stored {
    pub at: FieldAt,
    pub value: Content,
}

/// A root: its name, and what it holds.
#[derive(Clone, Copy, Debug)]
pub struct Root {
    pub name: Name,
    pub holds: Held,
}
