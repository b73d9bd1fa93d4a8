ghost use Rattle.std.specs.Prelude.{◌≡◌};
ghost use Rattle.std.specs.List.{list_all};
ghost use Rattle.script_lang.specs.Forms.{is_letter, is_root_byte, is_class_byte, is_field_start, is_field_byte, is_spelled, root_of, class_of, field_of, kind_of, value_of, decl_of};

use crate::numbers::number;
use crate::parts::cut;
use class_layout::{FieldDecl, Kind, Name, Value};

fn in_root(b: u8) -> bool
    ensures { result ≡ is_root_byte b }
{
    b.is_ascii_alphanumeric() || b == b'_'
}

fn in_class(b: u8) -> bool
    ensures { result ≡ is_class_byte b }
{
    in_root(b) || b == b'$' || b == b'.'
}

fn in_field(b: u8) -> bool
    ensures { result ≡ is_field_byte b }
{
    in_root(b) || b == b'$'
}

fn all_in_root(bytes: &[u8]) -> bool
    ensures { result ≡ list_all is_root_byte bytes.now }
{
    bytes.iter().all(|b| in_root(*b))
}

fn all_in_class(bytes: &[u8]) -> bool
    ensures { result ≡ list_all is_class_byte bytes.now }
{
    bytes.iter().all(|b| in_class(*b))
}

fn all_in_field(bytes: &[u8]) -> bool
    ensures { result ≡ list_all is_field_byte bytes.now }
{
    bytes.iter().all(|b| in_field(*b))
}

fn spells_root(word: &[u8]) -> bool
    ensures { result ≡ is_spelled is_letter is_root_byte word.now }
{
    match word.split_first() {
        None => false,
        Some((first, more)) => { first.is_ascii_alphabetic() && all_in_root(more) }
    }
}

fn spells_class(word: &[u8]) -> bool
    ensures { result ≡ is_spelled is_letter is_class_byte word.now }
{
    match word.split_first() {
        None => false,
        Some((first, more)) => { first.is_ascii_alphabetic() && all_in_class(more) }
    }
}

fn spells_field(word: &[u8]) -> bool
    ensures { result ≡ is_spelled is_field_start is_field_byte word.now }
{
    match word.split_first() {
        None => false,
        Some((first, more)) => {
            (first.is_ascii_alphabetic() || *first == b'_') && all_in_field(more)
        }
    }
}

/// The name of a root or of a process that the word is.
pub(crate) fn root_name(word: &[u8]) -> Option<Name>
    ensures { result ≡ root_of word.now }
{
    if spells_root(word) && word != b"null".as_slice() {
        Name::of(word)
    } else {
        None
    }
}

/// The class's name that the word is.
pub(crate) fn class_name(word: &[u8]) -> Option<Name>
    ensures { result ≡ class_of word.now }
{
    if spells_class(word) {
        Name::of(word)
    } else {
        None
    }
}

/// The field's name that the word is.
pub(crate) fn field_name(word: &[u8]) -> Option<Name>
    ensures { result ≡ field_of word.now }
{
    if spells_field(word) {
        Name::of(word)
    } else {
        None
    }
}

/// The kind that the word is.
pub(crate) fn kind(word: &[u8]) -> Option<Kind>
    ensures { result ≡ kind_of word.now }
{
    match word {
        b"ref" => Some(Kind::Ref),
        b"boolean" => Some(Kind::Boolean),
        b"byte" => Some(Kind::Byte),
        b"char" => Some(Kind::Char),
        b"short" => Some(Kind::Short),
        b"int" => Some(Kind::Int),
        b"long" => Some(Kind::Long),
        _ => None,
    }
}

/// The value that the word is.
pub(crate) fn value(word: &[u8]) -> Option<Value>
    ensures { result ≡ value_of word.now }
{
    if word == b"null".as_slice() {
        return Some(Value::Null);
    }
    match number(word) {
        Some(number) => Some(Value::Number(number)),
        None => Some(Value::Root(root_name(word)?)),
    }
}

/// The field and its kind that the word is, with a colon between them.
pub(crate) fn field_decl(word: &[u8]) -> Option<FieldDecl>
    ensures { result ≡ decl_of word.now }
{
    let (name, kind_word) = cut(word, b':');
    Some(FieldDecl {
        name: field_name(name)?,
        kind: kind(kind_word?)?,
    })
}
