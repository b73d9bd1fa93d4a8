use crate::Bytes;
use std::alloc::{AllocError, Global};
use std::marker::Model;

/// The constants of a class dump: each one's index, the code of its type, and its value's bytes.
#[derive(Drop)]
pub struct Constants {
    constants: Vec<(u16, u8, Bytes)>,
}

impl Model for Constants {
    ghost use Rattle.std.specs.Prelude.{ℕ, List};

    ghost Value = { List (ℕ × ℕ × List ℕ) };

    ghost view = { λ l. l.constants.items };
}

impl Constants {
    ghost use Rattle.std.specs.Prelude.{◌≡◌, [], ◌∷◌, ◌++◌, OnOk, OnErr};

    /// No constants. It takes no memory.
    pub fn new(alloc: Global) -> Constants
        ensures { result ≡ [] }
    {
        Constants {
            constants: Vec::new(alloc),
        }
    }

    /// Puts a constant behind the others. After an error the list is as before.
    pub fn push(&mut self, constant: (u16, u8, Bytes)) -> Result<(), AllocError>
        ensures pushed { OnOk result (self.new ≡ self.old ++ constant ∷ []) }
        ensures unchanged { OnErr result (self.new ≡ self.old) }
    {
        self.constants.push(constant)?;
        Ok(())
    }

    /// The constants, in order.
    pub fn as_slice(&self) -> &[(u16, u8, Bytes)]
        ensures { result.now ≡ self.now }
    {
        &self.constants
    }
}

/// The static fields of a class dump: the identifier of each one's name, the code of its type, and its value's bytes.
#[derive(Drop)]
pub struct Statics {
    statics: Vec<(u32, u8, Bytes)>,
}

impl Model for Statics {
    ghost use Rattle.std.specs.Prelude.{ℕ, List};

    ghost Value = { List (ℕ × ℕ × List ℕ) };

    ghost view = { λ l. l.statics.items };
}

impl Statics {
    ghost use Rattle.std.specs.Prelude.{◌≡◌, [], ◌∷◌, ◌++◌, OnOk, OnErr};

    /// No static fields. It takes no memory.
    pub fn new(alloc: Global) -> Statics
        ensures { result ≡ [] }
    {
        Statics {
            statics: Vec::new(alloc),
        }
    }

    /// Puts a static field behind the others. After an error the list is as before.
    pub fn push(&mut self, field: (u32, u8, Bytes)) -> Result<(), AllocError>
        ensures pushed { OnOk result (self.new ≡ self.old ++ field ∷ []) }
        ensures unchanged { OnErr result (self.new ≡ self.old) }
    {
        self.statics.push(field)?;
        Ok(())
    }

    /// The static fields, in order.
    pub fn as_slice(&self) -> &[(u32, u8, Bytes)]
        ensures { result.now ≡ self.now }
    {
        &self.statics
    }
}

/// The fields of a class dump: the identifier of each one's name, and the code of its type.
#[derive(Drop)]
pub struct FieldNames {
    fields: Vec<(u32, u8)>,
}

impl Model for FieldNames {
    ghost use Rattle.std.specs.Prelude.{ℕ, List};

    ghost Value = { List (ℕ × ℕ) };

    ghost view = { λ l. l.fields.items };
}

impl FieldNames {
    ghost use Rattle.std.specs.Prelude.{◌≡◌, [], ◌∷◌, ◌++◌, OnOk, OnErr};

    /// No fields. It takes no memory.
    pub fn new(alloc: Global) -> FieldNames
        ensures { result ≡ [] }
    {
        FieldNames {
            fields: Vec::new(alloc),
        }
    }

    /// Puts a field behind the others. After an error the list is as before.
    pub fn push(&mut self, field: (u32, u8)) -> Result<(), AllocError>
        ensures pushed { OnOk result (self.new ≡ self.old ++ field ∷ []) }
        ensures unchanged { OnErr result (self.new ≡ self.old) }
    {
        self.fields.push(field)?;
        Ok(())
    }

    /// The fields, in order.
    pub fn as_slice(&self) -> &[(u32, u8)]
        ensures { result.now ≡ self.now }
    {
        &self.fields
    }
}
