ghost use Rattle.std.specs.Prelude.{◌≡◌, ◌+◌, ◌^◌, ◌<◌, ◌≤◌};
ghost use Rattle.class_layout.specs.Kinds.{in_range, is_ref, kind_bytes, next_multiple};
ghost use Rattle.class_layout.specs.Placing.{rank_of};

use crate::Name;

/// What a field or an element holds.
#[derive(Clone, Copy, Debug, PartialEq, Eq)]
pub enum Kind {
    /// An object or null, in 4 bytes.
    Ref,
    /// 0 or 1, in 1 byte.
    Boolean,
    /// -128 to 127, in 1 byte.
    Byte,
    /// 0 to 65,535, in 2 bytes.
    Char,
    /// -32,768 to 32,767, in 2 bytes.
    Short,
    /// -2^31 to 2^31 - 1, in 4 bytes.
    Int,
    /// -2^63 to 2^63 - 1, in 8 bytes.
    Long,
}

impl Kind {
    /// The bytes of a value: 1, 2, 4 or 8. A reference has 4.
    pub fn bytes(self) -> u32
        ensures { result ≡ kind_bytes self }
    {
        match self {
            Kind::Boolean | Kind::Byte => 1,
            Kind::Char | Kind::Short => 2,
            Kind::Ref | Kind::Int => 4,
            Kind::Long => 8,
        }
    }

    /// Whether values are references.
    pub(crate) fn is_ref(self) -> bool
        ensures { result ≡ is_ref self }
    {
        matches!(self, Kind::Ref)
    }

    /// The place of the kind's group in an object.
    pub(crate) fn rank(self) -> u8
        ensures { result ≡ rank_of self }
    {
        match self {
            Kind::Ref => 0,
            Kind::Long => 1,
            Kind::Int => 2,
            Kind::Char | Kind::Short => 3,
            Kind::Boolean | Kind::Byte => 4,
        }
    }

    /// The first place at or behind `at` where a value may stand.
    pub(crate) fn place_from(self, at: u32) -> u32
        requires { at + 7 < 2 ^ 32 }
        ensures value { result ≡ next_multiple (kind_bytes self) at }
        ensures near { result ≤ at + 7 }
    {
        at.next_multiple_of(self.bytes())
    }
}

/// A field as a class declares it.
#[derive(Clone, Copy, Debug)]
pub struct FieldDecl {
    pub name: Name,
    pub kind: Kind,
}

/// A field's place in an object.
#[derive(Clone, Copy, Debug, PartialEq, Eq)]
pub struct FieldAt {
    pub kind: Kind,
    /// Bytes from the start of the object.
    pub offset: u32,
    /// Whether a collection ignores the field when it looks for what is reached.
    pub weak: bool,
}

/// What is stored into a field or an element.
#[derive(Clone, Copy, Debug)]
pub enum Value {
    Number(i64),
    Null,
    /// What the root of this name holds.
    Root(Name),
}

/// Whether the number is a value of the kind. No number is a reference.
pub fn fits(kind: Kind, v: i64) -> bool
    ensures { result ≡ in_range kind v }
{
    match kind {
        Kind::Ref => false,
        Kind::Boolean => (0..=1).contains(&v),
        Kind::Byte => (-128..=127).contains(&v),
        Kind::Char => (0..=65_535).contains(&v),
        Kind::Short => (-32_768..=32_767).contains(&v),
        Kind::Int => (-2_147_483_648..=2_147_483_647).contains(&v),
        Kind::Long => true,
    }
}
