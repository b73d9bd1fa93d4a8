use class_layout::{FieldDecl, Kind, Name, Value};
use std::alloc::{AllocError, Global};
use std::marker::Model;

/// The fields that a class declares, in order.
#[derive(Drop)]
pub struct FieldList {
    fields: Vec<FieldDecl>,
}

impl Model for FieldList {
    ghost use Rattle.std.specs.Prelude.{List};
    ghost use Rattle.class_layout.specs.declared.kind.FieldDecl.{FieldDecl};

    ghost Value = { List FieldDecl };

    ghost view = { λ l. l.fields.items };
}

impl FieldList {
    ghost use Rattle.std.specs.Prelude.{◌≡◌, [], ◌∷◌, ◌++◌, OnOk, OnErr};

    /// A list without fields. It takes no memory.
    pub fn new(alloc: Global) -> FieldList
        ensures { result ≡ [] }
    {
        FieldList {
            fields: Vec::new(alloc),
        }
    }

    /// Puts a field behind the others. After an error the list is as before.
    pub fn push(&mut self, field: FieldDecl) -> Result<(), AllocError>
        ensures pushed { OnOk result (self.new ≡ self.old ++ field ∷ []) }
        ensures unchanged { OnErr result (self.new ≡ self.old) }
    {
        self.fields.push(field)?;
        Ok(())
    }

    /// The fields, in order.
    pub fn as_slice(&self) -> &[FieldDecl]
        ensures { result.now ≡ self.now }
    {
        &self.fields
    }
}

/// What a line asks of a process.
#[derive(Drop)]
pub struct Command {
    pub process: Name,
    pub verb: Verb,
}

/// What is asked, with the words that the line gives.
#[derive(Drop)]
pub enum Verb {
    /// Defines a class.
    Class {
        name: Name,
        parent: Name,
        fields: FieldList,
    },
    /// Makes an object that the root holds.
    New {
        root: Name,
        class: Name,
    },
    /// Makes an array that the root holds.
    Array {
        root: Name,
        kind: Kind,
        count: u32,
    },
    /// Makes a weak reference to what another root holds.
    Weak {
        root: Name,
        referent: Name,
    },
    /// Stores a value in a field.
    Set {
        root: Name,
        field: Name,
        value: Value,
    },
    /// Stores a value in an element.
    Put {
        root: Name,
        index: u32,
        value: Value,
    },
    /// Reads a field.
    Get {
        root: Name,
        field: Name,
    },
    /// Reads an element.
    At {
        root: Name,
        index: u32,
    },
    /// Lets a root hold what another holds.
    Copy {
        to: Name,
        from: Name,
    },
    /// Lets a root hold what a reference field holds.
    Load {
        to: Name,
        from: Name,
        field: Name,
    },
    /// Lets a root hold what an element holds.
    LoadAt {
        to: Name,
        from: Name,
        index: u32,
    },
    /// Removes a root.
    Drop {
        root: Name,
    },
    /// Names what a root holds.
    Show {
        root: Name,
    },
    /// Seals the image.
    Seal,
    /// Collects.
    Gc,
    /// Makes a process.
    Fork {
        child: Name,
    },
    /// Ends the process.
    Exit,
    /// Tells the free regions.
    Free,
    /// Counts the process's pages.
    Pages,
    /// Counts the frames of all processes.
    Frames,
    /// Writes a dump of the process and its table of addresses.
    Dump,
}
