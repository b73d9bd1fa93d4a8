/// A type of a value: a reference, or a number of one of Java's eight primitive types.
#[derive(Clone, Copy, Debug, PartialEq, Eq)]
pub enum TypeCode {
    Ref,
    Boolean,
    Char,
    Float,
    Double,
    Byte,
    Short,
    Int,
    Long,
}

impl TypeCode {
    ghost use Rattle.std.specs.Prelude.{◌≡◌, ◌↔◌, IsSome, IfSome};
    ghost use Rattle.hprof_records.specs.Types.{code_of, value_bytes, IsType};

    /// The type of a code. `None` exactly where the code is neither 2 nor 4 to 11.
    pub fn of(code: u8) -> Option<TypeCode>
        ensures found { IsSome result ↔ IsType code }
        ensures value { IfSome result (λ t. code_of t ≡ code) }
    {
        match code {
            2 => Some(TypeCode::Ref),
            4 => Some(TypeCode::Boolean),
            5 => Some(TypeCode::Char),
            6 => Some(TypeCode::Float),
            7 => Some(TypeCode::Double),
            8 => Some(TypeCode::Byte),
            9 => Some(TypeCode::Short),
            10 => Some(TypeCode::Int),
            11 => Some(TypeCode::Long),
            _ => None,
        }
    }

    /// The type's code.
    pub fn code(&self) -> u8
        ensures { result ≡ code_of self.now }
    {
        match self {
            TypeCode::Ref => 2,
            TypeCode::Boolean => 4,
            TypeCode::Char => 5,
            TypeCode::Float => 6,
            TypeCode::Double => 7,
            TypeCode::Byte => 8,
            TypeCode::Short => 9,
            TypeCode::Int => 10,
            TypeCode::Long => 11,
        }
    }

    /// How many bytes a value of the type has.
    pub fn bytes(&self) -> u32
        ensures { result ≡ value_bytes (code_of self.now) }
    {
        match self {
            TypeCode::Boolean | TypeCode::Byte => 1,
            TypeCode::Char | TypeCode::Short => 2,
            TypeCode::Ref | TypeCode::Float | TypeCode::Int => 4,
            TypeCode::Double | TypeCode::Long => 8,
        }
    }
}
