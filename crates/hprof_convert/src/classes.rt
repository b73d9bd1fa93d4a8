//! The classes of a wide dump, and the layouts of their instances.
ghost use Rattle.std.specs.Prelude.{◌≡◌, ℕ, ◌+◌, ◌<◌, ◌++◌, List, [], map, length, sum_by, option_to_list, IfOk, OnOk, MatchOption, option_map};
ghost use Rattle.std.specs.List.{filter_map};
ghost use Rattle.hprof_wide.specs.Parts.{wide_value_bytes};
ghost use Rattle.dump_graph.specs.Classes.{Class};
ghost use Rattle.dump_graph.specs.Climbing.{if_fielded, own_codes, step_from};
ghost use Rattle.hprof_convert.specs.Layouts.{wide_class_of, wide_classes, wide_parts_of};

use crate::places::Places;
use crate::values::size_of;
use dump_graph::{Climb, Up, climbed_by};
use hprof_wide::{WideFieldNames, WideSub, WideTop};
use std::alloc::{AllocError, Global};
use std::marker::Model;

/// A class: its identifier, its superclass, and the codes of the types of its own fields.
#[derive(Drop)]
pub(crate) struct WideClass {
    pub(crate) id: u64,
    pub(crate) parent: u64,
    pub(crate) codes: Vec<u8>,
}

impl Model for WideClass {
    ghost use Rattle.dump_graph.specs.Classes.{Class};

    ghost Value = { Class };

    ghost view = { λ c. record { id = c.id; parent = c.parent; codes = c.codes.items } };
}

/// The codes of the types of fields.
fn codes_of(alloc: Global, fields: &WideFieldNames) -> Result<Vec<u8>, AllocError>
    ensures { IfOk result (λ codes. codes.items ≡ map (λ f. f.1) fields.now) }
{
    let list = fields.as_slice();
    let mut codes = Vec::new(alloc);
    for field in list {
        codes.push(field.1)?;
    }
    Ok(codes)
}

/// The class that a part tells.
fn class_of(alloc: Global, part: &WideSub) -> Result<Option<WideClass>, AllocError>
    ensures { IfOk result (λ class. class ≡ wide_class_of part.now) }
{
    match part {
        WideSub::ClassDump {
            id,
            parent,
            fields,
            ..
        } => {
            let codes = codes_of(alloc, fields)?;
            Ok(Some(WideClass {
                id: *id,
                parent: *parent,
                codes,
            }))
        }
        _ => Ok(None),
    }
}

/// Puts the class that a part tells behind others.
fn add_class(alloc: Global, known: &mut Vec<WideClass>, part: &WideSub) -> Result<(), AllocError>
    ensures { OnOk result (known.new.items ≡ known.old.items ++ option_to_list (wide_class_of part.now)) }
{
    if let Some(class) = class_of(alloc, part)? {
        known.push(class)?;
    }
    Ok(())
}

/// Puts the classes that parts tell behind others.
fn add_classes(
    alloc: Global,
    known: &mut Vec<WideClass>,
    parts: &[WideSub],
) -> Result<(), AllocError>
    ensures { OnOk result (known.new.items ≡ known.old.items ++ filter_map wide_class_of parts.now) }
{
    for part in parts {
        add_class(alloc, known, part)?;
    }
    Ok(())
}

/// The parts of a record.
pub(crate) fn parts_of(one: &WideTop) -> &[WideSub]
    ensures { result.now ≡ wide_parts_of one.now }
{
    match one {
        WideTop::Segment { parts, .. } => parts.as_slice(),
        _ => &[],
    }
}

/// The class dumps, in order.
fn known_classes(alloc: Global, records: &[WideTop]) -> Result<Vec<WideClass>, AllocError>
    ensures { IfOk result (λ known. known.items ≡ wide_classes records.now) }
{
    let mut known = Vec::new(alloc);
    for one in records {
        add_classes(alloc, &mut known, parts_of(one))?;
    }
    Ok(known)
}

/// The places of the classes' identifiers.
fn places_of(alloc: Global, known: &[WideClass]) -> Result<Places, AllocError>
    ensures { IfOk result (λ places. places ≡ map (λ c. c.id) known.now) }
{
    let mut places = Places::new(alloc);
    for class in known {
        places.push(class.id)?;
    }
    Ok(places)
}

/// The number of a class, if it has fields.
fn if_fielded(known: &[WideClass], class: usize) -> Option<usize>
    requires { class < length known.now }
    ensures { result ≡ if_fielded (own_codes known.now class) class }
{
    let one = &known[class];
    if one.codes.is_empty() {
        None
    } else {
        Some(class)
    }
}

/// The step from a class to its superclass.
fn step_from(places: &Places, known: &[WideClass], class: &WideClass) -> Climb
    requires { places.now ≡ map (λ c. c.id) known.now }
    ensures { result ≡ step_from known.now class.now }
{
    if class.parent == 0 {
        return Climb {
            fielded: None,
            next: Up::Top,
        };
    }
    match places.place_of(class.parent) {
        None => Climb {
            fielded: None,
            next: Up::Lost,
        },
        Some(parent) => Climb {
            fielded: if_fielded(known, parent as usize),
            next: Up::Above(parent as usize),
        },
    }
}

/// The step up from each class.
fn all_steps(alloc: Global, places: &Places, known: &[WideClass]) -> Result<Vec<Climb>, AllocError>
    requires { places.now ≡ map (λ c. c.id) known.now }
    ensures { IfOk result (λ steps. steps.items ≡ map (step_from known.now) known.now) }
{
    let mut steps = Vec::with_capacity(alloc, known.len())?;
    for class in known {
        steps.push(step_from(places, known, class))?;
    }
    Ok(steps)
}

/// How many bytes are left behind values of these types. `None` exactly where there are too few bytes.
fn behind(width: u32, codes: &[u8], size: usize) -> Option<usize>
    ensures { MatchOption result (size < sum_by (wide_value_bytes width) codes.now) (λ left. left + sum_by (wide_value_bytes width) codes.now ≡ size) }
{
    let mut left = size;
    for code in codes {
        left = left.checked_sub(size_of(width, *code))?;
    }
    Some(left)
}

/// The class dumps of a dump, and for each as many steps up as there are class dumps.
#[derive(Drop)]
pub(crate) struct WideClasses {
    places: Places,
    known: Vec<WideClass>,
    climbs: Vec<Climb>,
}

impl Model for WideClasses {
    ghost use Rattle.std.specs.Prelude.{List};
    ghost use Rattle.dump_graph.specs.Classes.{Class};
    ghost use Rattle.hprof_convert.specs.Placed.{AreClimbed};

    ghost Value = { List Class };

    ghost view = { λ c. c.known.items };

    ghost invariant = { λ c. AreClimbed c.places c.known.items c.climbs.items };
}

impl WideClasses {
    ghost use Rattle.std.specs.Prelude.{None, Some, nat_eq};
    ghost use Rattle.dump_graph.specs.Climbing.{gathered};
    ghost use Rattle.dump_graph.specs.ClassTable.{laid_out, IsLaidOut};
    ghost use Rattle.hprof_convert.specs.Layouts.{if_of_size, instance_layout};

    /// The classes of a dump's records.
    pub(crate) fn of(alloc: Global, records: &[WideTop]) -> Result<WideClasses, AllocError>
        ensures { IfOk result (λ c. c ≡ wide_classes records.now) }
    {
        let known = known_classes(alloc, records)?;
        let places = places_of(alloc, &known)?;
        let steps = all_steps(alloc, &places, &known)?;
        let climbs = climbed_by(alloc, steps, known.len())?;
        Ok(WideClasses {
            places,
            known,
            climbs,
        })
    }

    /// The place of a class whose superclasses are all known and end.
    fn laid_out(&self, class: u64) -> Option<usize>
        ensures { result ≡ laid_out self.now (length self.now) class }
    {
        let place = self.places.place_of(class)? as usize;
        match self.climbs[place].next {
            Up::Top => Some(place),
            Up::Above(_) | Up::Lost => None,
        }
    }

    /// The types of the values of a class's instances with so many bytes: the codes of its fields and of the superclasses'.
    fn gather(
        &self,
        alloc: Global,
        width: u32,
        class: usize,
        size: usize,
    ) -> Result<Option<Vec<u8>>, AllocError>
        requires { IsLaidOut self.now (length self.now) class }
        ensures { IfOk result (λ o. option_map (λ codes. codes.items) o ≡ if_of_size width size (gathered self.now (length self.now) class)) }
    {
        let mut codes = Vec::new(alloc);
        let mut left = size;
        let mut at = Some(class);
        for _ in 0..self.known.len() {
            let Some(place) = at else {
                break;
            };
            let own = &self.known[place].codes;
            let Some(after) = behind(width, own, left) else {
                return Ok(None);
            };
            codes.extend_from_slice(own)?;
            left = after;
            at = self.climbs[place].fielded;
        }
        if left == 0 { Ok(Some(codes)) } else { Ok(None) }
    }

    /// The layout of an instance of a class, with so many bytes.
    pub(crate) fn layout(
        &self,
        alloc: Global,
        width: u32,
        class: u64,
        size: usize,
    ) -> Result<Option<Vec<u8>>, AllocError>
        ensures { IfOk result (λ o. option_map (λ codes. codes.items) o ≡ instance_layout width self.now class size) }
    {
        match self.laid_out(class) {
            None => Ok(None),
            Some(place) => self.gather(alloc, width, place, size),
        }
    }
}
