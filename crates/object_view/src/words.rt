//! The words at the head of an object.
ghost use Rattle.std.specs.Prelude.{◌≡◌, ℕ, ◌+◌, ◌*◌, ◌^◌, ◌<◌, ◌≢◌, Some, MatchOption};
ghost use Rattle.object_view.specs.Objects.{IsKnown};
ghost use Rattle.object_view.specs.Words.{array_word, class_word, lock_word, IsHeader};

use crate::Header;
use class_layout::{Classes, Kind};
use cow_pages::Addr;
use heap_graph::Shape;
use model_numbers::{CLASS_BASE, CLASS_BYTES};

/// Lock words from here on tell where an object went, those below its number.
const FORWARD_LOCK: u32 = 0xc000_0000;

const NUMBER_LOCK: u32 = 0x8000_0000;

pub fn array_word(kind: Kind) -> u32
    ensures { result ≡ array_word kind }
{
    match kind {
        Kind::Ref => CLASS_BASE + 0x20,
        Kind::Boolean => CLASS_BASE + 0x24,
        Kind::Byte => CLASS_BASE + 0x28,
        Kind::Char => CLASS_BASE + 0x2c,
        Kind::Short => CLASS_BASE + 0x30,
        Kind::Int => CLASS_BASE + 0x34,
        Kind::Long => CLASS_BASE + 0x38,
    }
}

/// The kind of array whose class word it is.
pub fn array_kind(word: u32) -> Option<Kind>
    ensures { MatchOption result ((kind : Kind) → word ≢ array_word kind) (λ kind. word ≡ array_word kind) }
{
    match word.checked_sub(CLASS_BASE)? {
        0x20 => Some(Kind::Ref),
        0x24 => Some(Kind::Boolean),
        0x28 => Some(Kind::Byte),
        0x2c => Some(Kind::Char),
        0x30 => Some(Kind::Short),
        0x34 => Some(Kind::Int),
        0x38 => Some(Kind::Long),
        _ => None,
    }
}

/// The number of the class whose class word it is.
pub fn class_of(word: u32) -> u32
    requires { (class : ℕ) × (word ≡ class_word (Shape.Instance class)) }
    ensures { word ≡ class_word (Shape.Instance result) }
{
    (word - CLASS_BASE) / CLASS_BYTES
}

pub fn class_word(classes: &Classes, shape: Shape) -> u32
    requires { IsKnown classes.now shape }
    ensures { result ≡ class_word shape }
{
    match shape {
        Shape::Instance(class) => {
            prove!(class < classes.count());
            CLASS_BASE + CLASS_BYTES * class
        }
        Shape::Array { kind, .. } => array_word(kind),
    }
}

pub fn lock_word(header: Header) -> u32
    requires { IsHeader header }
    ensures { result ≡ lock_word header }
{
    match header {
        Header::Number(number) => NUMBER_LOCK + number,
        Header::Forward(to) => FORWARD_LOCK + to.0 / 8,
    }
}

/// What a lock word tells.
pub fn header_of(word: u32) -> Header
    requires { (header : Header) × IsHeader header × (word ≡ lock_word header) }
    ensures header { IsHeader result }
    ensures word { word ≡ lock_word result }
{
    if word < FORWARD_LOCK {
        Header::Number(word - NUMBER_LOCK)
    } else {
        Header::Forward(Addr((word - FORWARD_LOCK) * 8))
    }
}
