//! The strings of a dump.
ghost use Rattle.std.specs.Prelude.{◌≡◌, ◌∷◌, fold, length, map, IfOk, OnOk};
ghost use Rattle.hprof_write.specs.Strings.{string_id, strings, with_text};

use class_layout::{Classes, FieldDecl, Name};
use indexmap::IndexSet;
use std::alloc::{AllocError, Global};

/// The different texts of a dump of these classes, in order of first appearance.
pub(crate) fn strings_of(alloc: Global, classes: &Classes) -> Result<IndexSet<Name>, AllocError>
    ensures { IfOk result (λ s. s.keys ≡ strings classes.now) }
{
    let mut strings = IndexSet::new(alloc);
    for class in 0..classes.count() {
        add_class(&mut strings, classes.name(class), classes.own_fields(class))?;
    }
    add_text(&mut strings, Name::of(b"java.lang.Object[]").unwrap())?;
    add_text(&mut strings, Name::of(b"app").unwrap())?;
    add_text(&mut strings, Name::of(b"image").unwrap())?;
    add_text(&mut strings, Name::of(b"zygote").unwrap())?;
    Ok(strings)
}

// A text, which goes last where it is new.
fn add_text(strings: &mut IndexSet<Name>, text: Name) -> Result<(), AllocError>
    ensures { OnOk result (strings.new.keys ≡ with_text strings.old.keys text) }
{
    strings.insert(text)?;
    Ok(())
}

// The name of a class, and those of its fields.
fn add_class(
    strings: &mut IndexSet<Name>,
    name: Name,
    fields: &[FieldDecl],
) -> Result<(), AllocError>
    ensures { OnOk result (strings.new.keys ≡ fold with_text strings.old.keys (name ∷ map (λ f. f.name) fields.now)) }
{
    strings.insert(name)?;
    for f in fields {
        strings.insert(f.name)?;
    }
    Ok(())
}

/// The identifier of a text. It has 32 bits, as far as there is memory for the texts.
pub(crate) fn string_id(strings: &IndexSet<Name>, text: &Name) -> Result<u32, AllocError>
    ensures { IfOk result (λ id. id ≡ string_id strings.now.keys text.now) }
{
    let index = strings.get_index_of(text).unwrap_or(0);
    if index < u32::MAX as usize {
        Ok(index as u32 + 1)
    } else {
        Err(AllocError)
    }
}
