//! The classes of a dump, each by its first class dump.
ghost use Rattle.std.specs.Prelude.{◌≡◌, ◌<◌, ◌++◌, true, nat_eq, map, length, sum_by, IfOk, OnOk};
ghost use Rattle.dump_graph.specs.Classes.{class_of, classes};
ghost use Rattle.dump_graph.specs.Firsts.{firsts, with_first, IsApart};

use crate::climb::{Climb, Up, climbed};
use crate::numbers::Numbers;
use crate::references::read_fields;
use hprof_records::{FieldNames, SubRecord};
use std::alloc::{AllocError, Global};
use std::marker::Model;

/// A class: its identifier, its superclass, and the codes of the types of its own fields.
#[derive(Drop)]
pub(crate) struct KnownClass {
    pub(crate) id: u32,
    pub(crate) parent: u32,
    pub(crate) codes: Vec<u8>,
}

impl Model for KnownClass {
    ghost use Rattle.dump_graph.specs.Classes.{Class};

    ghost Value = { Class };

    ghost view = { λ c. record { id = c.id; parent = c.parent; codes = c.codes.items } };
}

/// The codes of the types of fields.
fn codes_of(alloc: Global, fields: &FieldNames) -> Result<Vec<u8>, AllocError>
    ensures { IfOk result (λ codes. codes.items ≡ map (λ f. f.1) fields.now) }
{
    let list = fields.as_slice();
    let mut codes = Vec::new(alloc);
    for field in list {
        codes.push(field.1)?;
    }
    Ok(codes)
}

/// The class that a part tells.
fn class_of(alloc: Global, part: &SubRecord) -> Result<Option<KnownClass>, AllocError>
    ensures { IfOk result (λ class. class ≡ class_of part.now) }
{
    match part {
        SubRecord::ClassDump {
            id,
            parent,
            fields,
            ..
        } => {
            let codes = codes_of(alloc, fields)?;
            Ok(Some(KnownClass {
                id: *id,
                parent: *parent,
                codes,
            }))
        }
        _ => Ok(None),
    }
}

/// Adds a class, if it is new.
fn add_class(
    numbers: &mut Numbers,
    known: &mut Vec<KnownClass>,
    class: KnownClass,
) -> Result<(), AllocError>
    requires { numbers.old ≡ map (λ c. c.id) known.old.items }
    ensures known { OnOk result (known.new.items ≡ with_first (λ c. c.id) known.old.items class) }
    ensures numbers { OnOk result (numbers.new ≡ map (λ c. c.id) known.new.items) }
    ensures apart { OnOk result (IsApart numbers.old → IsApart numbers.new) }
{
    if numbers.add(class.id)? {
        known.push(class)?;
    }
    Ok(())
}

/// The first class dump of each class, with their numbers, and the number of all class dumps.
fn known_classes(
    alloc: Global,
    parts: &[&SubRecord],
) -> Result<(Numbers, Vec<KnownClass>, usize), AllocError>
    ensures known { IfOk result (λ r. r.1.items ≡ firsts (λ c. c.id) (classes (map (λ p. p.now) parts.now))) }
    ensures numbers { IfOk result (λ r. r.0 ≡ map (λ c. c.id) r.1.items) }
    ensures apart { IfOk result (λ r. IsApart r.0) }
    ensures dumps { IfOk result (λ r. r.2 ≡ length (classes (map (λ p. p.now) parts.now))) }
{
    let mut numbers = Numbers::new(alloc);
    let mut known = Vec::new(alloc);
    let mut dumps = 0;
    for part in parts {
        if let Some(class) = class_of(alloc, part)? {
            add_class(&mut numbers, &mut known, class)?;
            dumps += 1;
        }
    }
    numbers.settle(alloc)?;
    Ok((numbers, known, dumps))
}

/// The classes by their numbers, for each as many steps up as there are class dumps, and the number of these.
#[derive(Drop)]
pub(crate) struct Classes {
    numbers: Numbers,
    known: Vec<KnownClass>,
    climbs: Vec<Climb>,
    dumps: usize,
}

impl Model for Classes {
    ghost use Rattle.dump_graph.specs.Tables.{Known};

    ghost Value = { Known };

    ghost view = { λ c. record { first = c.known.items; dumps = c.dumps } };

    ghost use Rattle.dump_graph.specs.ClassTable.{IsClassTable};

    ghost invariant = { λ c. IsClassTable c.numbers c.known.items c.climbs.items c.dumps };
}

impl Classes {
    ghost use Rattle.dump_graph.specs.Tables.{known_of};
    ghost use Rattle.dump_graph.specs.Classes.{codes_within};
    ghost use Rattle.dump_graph.specs.Climbing.{climb, gathered};
    ghost use Rattle.dump_graph.specs.References.{instance_references, references_in};
    ghost use Rattle.dump_graph.specs.ClassTable.{laid_out, IsLaidOut};
    ghost use Rattle.hprof_records.specs.Types.{value_bytes};

    /// The classes of a dump's parts.
    pub(crate) fn of(alloc: Global, parts: &[&SubRecord]) -> Result<Classes, AllocError>
        ensures { IfOk result (λ c. c ≡ known_of (classes (map (λ p. p.now) parts.now))) }
    {
        let (numbers, known, dumps) = known_classes(alloc, parts)?;
        let climbs = climbed(alloc, &numbers, &known, dumps)?;
        Ok(Classes {
            numbers,
            known,
            climbs,
            dumps,
        })
    }

    /// The number of a class whose superclasses are all known and end.
    fn laid_out(&self, class: u32) -> Option<usize>
        ensures { result ≡ laid_out self.now.first self.now.dumps class }
    {
        let number = self.numbers.number_of(class)?;
        match self.climbs[number].next {
            Up::Top => Some(number),
            Up::Above(_) | Up::Lost => None,
        }
    }

    /// Puts the references among an instance's values behind others, where the fields of its class and of the
    /// superclasses have as many bytes. Tells whether they do.
    fn read_values(
        &self,
        class: usize,
        bytes: &[u8],
        found: &mut Vec<u32>,
    ) -> Result<bool, AllocError>
        requires { IsLaidOut self.now.first self.now.dumps class }
        ensures fits { IfOk result (λ fits. fits ≡ nat_eq (sum_by value_bytes (gathered self.now.first self.now.dumps class)) (length bytes.now)) }
        ensures found { IfOk result (λ fits. fits ≡ true → found.new.items ≡ found.old.items ++ references_in (gathered self.now.first self.now.dumps class) bytes.now) }
    {
        let mut rest = bytes;
        let mut at = Some(class);
        for _ in 0..self.dumps {
            let Some(number) = at else {
                break;
            };
            let one = &self.known[number];
            let Some(after) = read_fields(&one.codes, rest, found)? else {
                return Ok(false);
            };
            rest = after;
            at = self.climbs[number].fielded;
        }
        Ok(rest.is_empty())
    }

    /// Finds the references among the values of an instance of a class: none where it has no layout. What was found
    /// before is taken out.
    pub(crate) fn find_references(
        &self,
        class: u32,
        bytes: &[u8],
        found: &mut Vec<u32>,
    ) -> Result<(), AllocError>
        ensures { OnOk result (found.new.items ≡ instance_references (codes_within self.now.first self.now.dumps class) bytes.now) }
    {
        found.clear();
        let Some(number) = self.laid_out(class) else {
            return Ok(());
        };
        if !self.read_values(number, bytes, found)? {
            found.clear();
        }
        Ok(())
    }
}
