//! How far one comes from a class by its superclasses. It is worked out for all classes together, by putting climbs of as
//! many steps as twice those before one behind the other, so that neither long chains of classes nor cycles make it slow.
ghost use Rattle.std.specs.Prelude.{◌≡◌, ℕ, ◌<◌, List, length, map, get_or, IfOk, All};
ghost use Rattle.dump_graph.specs.Classes.{Class};
ghost use Rattle.std.specs.List.{range_with_len};
ghost use Rattle.dump_graph.specs.Climbing.{AreClimbs, ComesWithin, if_fielded, join, join_with, lost, own_codes, standing, step_from};

use crate::classes::KnownClass;
use crate::numbers::Numbers;
use std::alloc::{AllocError, Global};

/// Where one stands after some steps up from a class: behind the last superclass, at a class, or at a superclass that no
/// class dump tells.
#[derive(Clone, Copy, Debug, PartialEq, Eq)]
pub enum Up {
    Top,
    Above(usize),
    Lost,
}

/// Some steps up from a class: the first of the classes above it that has fields, and where one stands after them.
#[derive(Clone, Copy, Debug, PartialEq, Eq)]
pub struct Climb {
    pub fielded: Option<usize>,
    pub next: Up,
}

/// A climb, and from where it comes to the one of these that begins there.
fn joined(one: Climb, more: &[Climb]) -> Climb
    requires { ComesWithin (length more.now) one.next }
    ensures { result ≡ join one (λ n. get_or more.now n lost) }
{
    match one.next {
        Up::Above(class) => {
            let rest = more[class];
            Climb {
                fielded: one.fielded.or(rest.fielded),
                next: rest.next,
            }
        }
        Up::Top | Up::Lost => one,
    }
}

/// The climbs from all classes, each with one of these others behind it.
fn all_joined(alloc: Global, climbs: &[Climb], more: &[Climb]) -> Result<Vec<Climb>, AllocError>
    requires { All (λ c. ComesWithin (length more.now) c.next) climbs.now }
    ensures { IfOk result (λ longer. longer.items ≡ map (join_with more.now) climbs.now) }
{
    let mut longer = Vec::with_capacity(alloc, climbs.len())?;
    for one in climbs {
        longer.push(joined(*one, more))?;
    }
    Ok(longer)
}

/// Climbs of no steps, from so many classes.
fn all_standing(alloc: Global, count: usize) -> Result<Vec<Climb>, AllocError>
    ensures { IfOk result (λ climbs. climbs.items ≡ map standing (range_with_len 0 count)) }
{
    let mut climbs = Vec::with_capacity(alloc, count)?;
    for class in 0..count {
        climbs.push(Climb {
            fielded: None,
            next: Up::Above(class),
        })?;
    }
    Ok(climbs)
}

/// The number of a class, if it has fields.
fn if_fielded(known: &[KnownClass], class: usize) -> Option<usize>
    requires { class < length known.now }
    ensures { result ≡ if_fielded (own_codes known.now class) class }
{
    let one = &known[class];
    if one.codes.is_empty() {
        None
    } else {
        Some(class)
    }
}

/// The step from a class to its superclass.
fn step_from(numbers: &Numbers, known: &[KnownClass], class: &KnownClass) -> Climb
    requires { numbers.now ≡ map (λ c. c.id) known.now }
    ensures { result ≡ step_from known.now class.now }
{
    if class.parent == 0 {
        return Climb {
            fielded: None,
            next: Up::Top,
        };
    }
    match numbers.number_of(class.parent) {
        None => Climb {
            fielded: None,
            next: Up::Lost,
        },
        Some(parent) => Climb {
            fielded: if_fielded(known, parent),
            next: Up::Above(parent),
        },
    }
}

/// The step up from each class.
fn all_steps(
    alloc: Global,
    numbers: &Numbers,
    known: &[KnownClass],
) -> Result<Vec<Climb>, AllocError>
    requires { numbers.now ≡ map (λ c. c.id) known.now }
    ensures { IfOk result (λ steps. steps.items ≡ map (step_from known.now) known.now) }
{
    let mut steps = Vec::with_capacity(alloc, known.len())?;
    for class in known {
        steps.push(step_from(numbers, known, class))?;
    }
    Ok(steps)
}

/// The climbs of so many steps from all classes, by those of one step.
pub fn climbed_by(alloc: Global, one: Vec<Climb>, steps: usize) -> Result<Vec<Climb>, AllocError>
    requires { (known : List Class) × (one.items ≡ map (step_from known) known) }
    ensures { IfOk result (λ climbs. (known : List Class) → one.items ≡ map (step_from known) known → AreClimbs known steps climbs.items) }
{
    let mut climbs = all_standing(alloc, one.len())?;
    let mut power = one;
    let mut left = steps;
    while left > 0 {
        if left % 2 == 1 {
            climbs = all_joined(alloc, &climbs, &power)?;
        }
        power = all_joined(alloc, &power, &power)?;
        left /= 2;
    }
    Ok(climbs)
}

/// The climbs of so many steps from all classes.
pub(crate) fn climbed(
    alloc: Global,
    numbers: &Numbers,
    known: &[KnownClass],
    steps: usize,
) -> Result<Vec<Climb>, AllocError>
    requires { numbers.now ≡ map (λ c. c.id) known.now }
    ensures { IfOk result (λ climbs. AreClimbs known.now steps climbs.items) }
{
    let one = all_steps(alloc, numbers, known)?;
    climbed_by(alloc, one, steps)
}
