use hprof_records::Bytes;
use std::alloc::{AllocError, Global};
use std::marker::Model;

/// Identifiers of 4 or 8 bytes, as the elements of an array of objects.
#[derive(Drop)]
pub struct WideIds {
    ids: Vec<u64>,
}

impl Model for WideIds {
    ghost use Rattle.std.specs.Prelude.{ℕ, List};

    ghost Value = { List ℕ };

    ghost view = { λ l. l.ids.items };
}

impl WideIds {
    ghost use Rattle.std.specs.Prelude.{◌≡◌, [], ◌∷◌, ◌++◌, OnOk, OnErr};

    /// No identifiers. It takes no memory.
    pub fn new(alloc: Global) -> WideIds
        ensures { result ≡ [] }
    {
        WideIds {
            ids: Vec::new(alloc),
        }
    }

    /// Puts an identifier behind the others. After an error the list is as before.
    pub fn push(&mut self, id: u64) -> Result<(), AllocError>
        ensures pushed { OnOk result (self.new ≡ self.old ++ id ∷ []) }
        ensures unchanged { OnErr result (self.new ≡ self.old) }
    {
        self.ids.push(id)?;
        Ok(())
    }

    /// The identifiers, in order.
    pub fn as_slice(&self) -> &[u64]
        ensures { result.now ≡ self.now }
    {
        &self.ids
    }
}

/// The static fields of a class dump: the identifier of each one's name, the code of its type, and its value's bytes.
#[derive(Drop)]
pub struct WideStatics {
    statics: Vec<(u64, u8, Bytes)>,
}

impl Model for WideStatics {
    ghost use Rattle.std.specs.Prelude.{ℕ, List};

    ghost Value = { List (ℕ × ℕ × List ℕ) };

    ghost view = { λ l. l.statics.items };
}

impl WideStatics {
    ghost use Rattle.std.specs.Prelude.{◌≡◌, [], ◌∷◌, ◌++◌, OnOk, OnErr};

    /// No static fields. It takes no memory.
    pub fn new(alloc: Global) -> WideStatics
        ensures { result ≡ [] }
    {
        WideStatics {
            statics: Vec::new(alloc),
        }
    }

    /// Puts a static field behind the others. After an error the list is as before.
    pub fn push(&mut self, field: (u64, u8, Bytes)) -> Result<(), AllocError>
        ensures pushed { OnOk result (self.new ≡ self.old ++ field ∷ []) }
        ensures unchanged { OnErr result (self.new ≡ self.old) }
    {
        self.statics.push(field)?;
        Ok(())
    }

    /// The static fields, in order.
    pub fn as_slice(&self) -> &[(u64, u8, Bytes)]
        ensures { result.now ≡ self.now }
    {
        &self.statics
    }
}

/// The fields of a class dump: the identifier of each one's name, and the code of its type.
#[derive(Drop)]
pub struct WideFieldNames {
    fields: Vec<(u64, u8)>,
}

impl Model for WideFieldNames {
    ghost use Rattle.std.specs.Prelude.{ℕ, List};

    ghost Value = { List (ℕ × ℕ) };

    ghost view = { λ l. l.fields.items };
}

impl WideFieldNames {
    ghost use Rattle.std.specs.Prelude.{◌≡◌, [], ◌∷◌, ◌++◌, OnOk, OnErr};

    /// No fields. It takes no memory.
    pub fn new(alloc: Global) -> WideFieldNames
        ensures { result ≡ [] }
    {
        WideFieldNames {
            fields: Vec::new(alloc),
        }
    }

    /// Puts a field behind the others. After an error the list is as before.
    pub fn push(&mut self, field: (u64, u8)) -> Result<(), AllocError>
        ensures pushed { OnOk result (self.new ≡ self.old ++ field ∷ []) }
        ensures unchanged { OnErr result (self.new ≡ self.old) }
    {
        self.fields.push(field)?;
        Ok(())
    }

    /// The fields, in order.
    pub fn as_slice(&self) -> &[(u64, u8)]
        ensures { result.now ≡ self.now }
    {
        &self.fields
    }
}
