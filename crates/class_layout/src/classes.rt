ghost use Rattle.std.specs.Prelude.{◌≡◌, ℕ, ◌+◌, ◌^◌, ◌<◌, ◌≤◌, List, ◌∷◌, [], ◌++◌, Option, Some, Ok, Err, length, map, slice_get, IfOk, IfErr, IfSome, OnErr, MatchResult};
ghost use Rattle.std.specs.List.{list_any};
ghost use Rattle.std.specs.Option.{option_map};
ghost use Rattle.model_numbers.specs.Numbers.{field_limit};
ghost use Rattle.class_layout.specs.ClassList.{Class, builtin_classes, layout_of, size_of, own_fields_of, number_of, declares, repeats, occurs_in, define_class, IsClassList};
ghost use Rattle.class_layout.specs.Defining.{IsDefinable};
ghost use Rattle.class_layout.specs.Kinds.{next_multiple};
ghost use Rattle.class_layout.specs.Layout.{field_named, references};
ghost use Rattle.class_layout.specs.Names.{same_name};
ghost use Rattle.class_layout.specs.Rows.{IsRow};

use crate::row::Row;
use crate::{FieldAt, FieldDecl, Kind, Name};
use indexmap::IndexMap;
use model_numbers::CLASS_LIMIT;
use std::alloc::{AllocError, AllocFailed, Global};
use std::marker::Model;

// The class whose one field is weak.
const WEAK_REFERENCE: u32 = 1;

/// Why a class can't be defined.
#[derive(Clone, Copy, Debug, PartialEq, Eq)]
pub enum DefineError {
    /// A class has the name.
    Taken,
    /// No class has the superclass's name.
    NoSuper,
    /// 65,536 classes stand.
    Limit,
    /// A field name occurs twice, or in a superclass.
    FieldTaken,
    /// There is no memory for the class.
    OutOfMemory,
}

impl From<AllocError> for DefineError {
    ghost use Rattle.class_layout.specs.declared.classes.DefineError.TheVariants.{OutOfMemory};

    ghost from_gives = { λ _ e. e ≡ OutOfMemory };

    fn from(_e: AllocError) -> DefineError {
        DefineError::OutOfMemory
    }
}

impl<T: Drop> From<AllocFailed<T>> for DefineError {
    ghost use Rattle.class_layout.specs.declared.classes.DefineError.TheVariants.{OutOfMemory};

    ghost from_gives = { λ _ e. e ≡ OutOfMemory };

    fn from(_e: AllocFailed<T>) -> DefineError {
        DefineError::OutOfMemory
    }
}

/// The classes of a process, by name and by number. A contract sees the list of the classes by number.
#[derive(Drop)]
pub struct Classes {
    rows: IndexMap<Name, Row>,
}

impl Model for Classes {
    ghost use Rattle.std.specs.Prelude.{List};
    ghost use Rattle.class_layout.specs.ClassList.{Class};

    ghost Value = { List Class };

    ghost use Rattle.class_layout.specs.Rows.{classes_of, AreRows};

    ghost view = { λ m. classes_of m.rows.entries };

    ghost invariant = { λ m. AreRows m.rows.entries };
}

impl Classes {
    /// The two built-in classes: `java.lang.Object` without fields, which is class 0, and below it
    /// `java.lang.ref.WeakReference` with the weak field `referent`, which is class 1.
    pub fn new(alloc: Global) -> Result<Classes, AllocError>
        ensures { IfOk result (λ cs. cs ≡ builtin_classes) }
    {
        let object = Row::header(alloc);
        let referent = FieldDecl {
            name: Name::of(b"referent").unwrap(),
            kind: Kind::Ref,
        };
        let weak_reference = Row::behind(alloc, 0, &object, &[referent])?;
        let mut rows = IndexMap::new(alloc);
        rows.insert(Name::of(b"java.lang.Object").unwrap(), object)?;
        rows.insert(
            Name::of(b"java.lang.ref.WeakReference").unwrap(),
            weak_reference,
        )?;
        Ok(Classes { rows })
    }

    /// Adds a class at the end of the list, below the class of the name `parent`, and gives its number.
    ///
    /// The refusals come in the order `Taken`, `NoSuper`, `Limit`, `FieldTaken`, and before any memory is asked for.
    /// After an error nothing has changed.
    pub fn define(
        &mut self,
        name: Name,
        parent: &Name,
        fields: &[FieldDecl],
    ) -> Result<u32, DefineError>
        requires { length fields.now ≤ field_limit }
        ensures made { IfOk result (λ class. (class + 1 ≡ length self.new) × (define_class self.old name parent.now fields.now ≡ Ok self.new)) }
        ensures refused { IfErr (define_class self.old name parent.now fields.now) (λ e. result ≡ Err e) }
        ensures defined { IfOk (define_class self.old name parent.now fields.now) (λ cs.
            MatchResult result (λ class. (class ≡ length self.old) × (self.new ≡ cs)) (λ e. e ≡ DefineError.OutOfMemory)) }
        ensures err { OnErr result (self.new ≡ self.old) }
    {
        let parent = self.superclass_for(&name, parent, fields)?;
        let class = self.count();
        let (_, before) = self.entry(parent);
        let row = Row::behind(*self.rows.allocator(), parent, before, fields)?;
        self.rows.insert(name, row)?;
        Ok(class)
    }

    /// How many classes there are, at most 65,536.
    pub fn count(&self) -> u32
        ensures value { result ≡ length self.now }
        ensures formed { IsClassList self.now }
    {
        self.rows.len() as u32
    }

    /// The number of the class of a name, or `None` where no class has it.
    pub fn find(&self, name: &Name) -> Option<u32>
        ensures { result ≡ number_of self.now name.now }
    {
        let i = self.rows.get_index_of(name)?;
        Some(i as u32)
    }

    /// The name of a class.
    pub fn name(&self, class: u32) -> Name
        requires { class < length self.now }
        ensures { slice_get (map (λ c. c.name) self.now) class ≡ Some result }
    {
        *self.entry(class).0
    }

    /// The number of the superclass. `None` for class 0 alone.
    pub fn parent(&self, class: u32) -> Option<u32>
        requires { class < length self.now }
        ensures { slice_get (map (λ c. c.parent) self.now) class ≡ Some result }
    {
        self.entry(class).1.parent
    }

    /// The fields that the class declares itself, in the order of declaration.
    pub fn own_fields(&self, class: u32) -> &[FieldDecl]
        requires { class < length self.now }
        ensures { slice_get (map (λ c. c.fields) self.now) class ≡ Some result.now }
    {
        &self.entry(class).1.fields
    }

    /// The field of a name, of the class or of one of its superclasses. `None` where none of them has it.
    pub fn field(&self, class: u32, name: &Name) -> Option<FieldAt>
        requires { class < length self.now }
        ensures { result ≡ field_named (layout_of self.now class) name.now }
    {
        let mut at = class;
        loop {
            let (_, row) = self.entry(at);
            match row.own_field(name) {
                Some(j) => return Some(row.field_at(j, at == WEAK_REFERENCE)),
                None => at = row.parent?,
            }
        }
    }

    /// The place of the class's own field number `k`, counted from 0 in the order of declaration.
    pub fn field_at(&self, class: u32, k: usize) -> FieldAt
        requires class { class < length self.now }
        requires own { k < length (own_fields_of self.now class) }
        ensures { IfSome (slice_get (own_fields_of self.now class) k) (λ f. field_named (layout_of self.now class) f.name ≡ Some result) }
    {
        self.entry(class).1.field_at(k, class == WEAK_REFERENCE)
    }

    /// Where the last field of an object ends, in bytes from its start. At least 8, for the header.
    pub fn unrounded(&self, class: u32) -> u64
        requires { class < length self.now }
        ensures value { result ≡ (layout_of self.now class).end }
        ensures small { result < 2 ^ 32 }
    {
        u64::from(self.entry(class).1.end)
    }

    /// The bytes of an object: `unrounded`, rounded up to a multiple of 8.
    pub fn size(&self, class: u32) -> u64
        requires { class < length self.now }
        ensures { result ≡ size_of self.now class }
    {
        self.unrounded(class).div_ceil(8) * 8
    }

    /// The offset in bytes of reference number `k` of an object, counted from 0 by rising offset, and whether it is weak.
    /// `None` from the number of references on.
    pub fn ref_offset(&self, class: u32, k: usize) -> Option<(u32, bool)>
        requires { class < length self.now }
        ensures { result ≡ option_map (λ at. (at.offset, at.weak)) (slice_get (references (layout_of self.now class)) k) }
    {
        let mut at = class;
        loop {
            let (_, row) = self.entry(at);
            match k.checked_sub(row.refs_before as usize) {
                Some(own) if own < row.refs as usize => {
                    return Some((row.first_ref + 4 * own as u32, at == WEAK_REFERENCE));
                }
                Some(_) => return None,
                None => at = row.parent?,
            }
        }
    }

    /// The same classes again.
    pub fn copied(&self) -> Result<Classes, AllocError>
        ensures { IfOk result (λ cs. cs ≡ self.now) }
    {
        let rows = self.rows.clone()?;
        Ok(Classes { rows })
    }

    // The name and the row of a class.
    fn entry(&self, class: u32) -> (&Name, &Row)
        requires { class < length self.now }
        ensures row { IsRow self.now class result.0.now result.1.now }
        ensures formed { IsClassList self.now }
    {
        self.rows.get_index(class as usize).unwrap()
    }

    // Whether a class or one of its superclasses has one of these field names.
    fn has_any(&self, class: u32, fields: &[FieldDecl]) -> bool
        requires { class < length self.now }
        ensures { result ≡ occurs_in (layout_of self.now class) fields.now }
    {
        fields.iter().any(|f| self.has_field(class, &f.name))
    }

    fn has_field(&self, class: u32, name: &Name) -> bool
        requires { class < length self.now }
        ensures { result ≡ list_any (λ p. same_name p.name name.now) (layout_of self.now class).fields }
    {
        self.field(class, name).is_some()
    }

    // The number of the superclass, where a class of this name and these fields may be defined.
    fn superclass_for(
        &self,
        name: &Name,
        parent: &Name,
        fields: &[FieldDecl],
    ) -> Result<u32, DefineError>
        ensures { MatchResult result
            (λ p. (number_of self.now parent.now ≡ Some p) × IsDefinable self.now name.now p fields.now)
            (λ e. define_class self.now name.now parent.now fields.now ≡ Err e) }
    {
        if self.find(name).is_some() {
            return Err(DefineError::Taken);
        }
        let parent = self.find(parent).ok_or(DefineError::NoSuper)?;
        if self.count() == CLASS_LIMIT {
            return Err(DefineError::Limit);
        }
        if repeats(fields) || self.has_any(parent, fields) {
            return Err(DefineError::FieldTaken);
        }
        Ok(parent)
    }
}

// Whether a field name occurs twice.
fn repeats(fields: &[FieldDecl]) -> bool
    ensures { result ≡ repeats fields.now }
{
    let mut rest = fields;
    while let Some((first, others)) = rest.split_first() {
        if declares(others, &first.name) {
            return true;
        }
        rest = others;
    }
    false
}

// Whether one of the fields has the name.
fn declares(fields: &[FieldDecl], name: &Name) -> bool
    ensures { result ≡ declares fields.now name.now }
{
    fields.iter().any(|f| f.name == *name)
}
