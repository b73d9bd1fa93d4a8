ghost use Rattle.std.specs.Prelude.{◌≡◌, ◌∷◌, [], IfSome};
ghost use Rattle.heap_world.specs.Commands.{HasFewFields};
ghost use Rattle.heap_world.specs.declared.command.Verb.TheVariants as verb;
ghost use Rattle.script_lang.specs.Numbers.{count_of};
ghost use Rattle.script_lang.specs.Forms.{root_of, class_of, field_of, kind_of, value_of};
ghost use Rattle.script_lang.specs.Grammar.{one, two, three, verb_in, alone_entries, counting_entries, doing_entries, one_entries, two_entries, three_entries, fixed_entries};

use crate::Verb;
use crate::forms::{class_name, field_name, kind, root_name, value};
use crate::numbers::count;
use crate::words::Words;

/// What a command's word asks to be done without further words.
fn doing_verb(word: &[u8]) -> Option<Verb>
    ensures asked { result ≡ verb_in doing_entries word.now [] }
    ensures few_fields { IfSome result HasFewFields }
{
    match word {
        b"seal" => Some(Verb::Seal),
        b"gc" => Some(Verb::Gc),
        b"exit" => Some(Verb::Exit),
        b"dump" => Some(Verb::Dump),
        _ => None,
    }
}

/// What a command's word asks to be counted without further words.
fn counting_verb(word: &[u8]) -> Option<Verb>
    ensures asked { result ≡ verb_in counting_entries word.now [] }
    ensures few_fields { IfSome result HasFewFields }
{
    match word {
        b"free" => Some(Verb::Free),
        b"pages" => Some(Verb::Pages),
        b"frames" => Some(Verb::Frames),
        _ => None,
    }
}

/// What a command's word asks without further words.
fn alone_verb(word: &[u8]) -> Option<Verb>
    ensures asked { result ≡ verb_in alone_entries word.now [] }
    ensures few_fields { IfSome result HasFewFields }
{
    match doing_verb(word) {
        Some(verb) => Some(verb),
        None => counting_verb(word),
    }
}

fn drop_verb(a: &[u8]) -> Option<Verb>
    ensures asked { result ≡ one root_of verb.Drop (a.now ∷ []) }
    ensures few_fields { IfSome result HasFewFields }
{
    Some(Verb::Drop {
        root: root_name(a)?,
    })
}

fn show_verb(a: &[u8]) -> Option<Verb>
    ensures asked { result ≡ one root_of verb.Show (a.now ∷ []) }
    ensures few_fields { IfSome result HasFewFields }
{
    Some(Verb::Show {
        root: root_name(a)?,
    })
}

fn fork_verb(a: &[u8]) -> Option<Verb>
    ensures asked { result ≡ one root_of verb.Fork (a.now ∷ []) }
    ensures few_fields { IfSome result HasFewFields }
{
    Some(Verb::Fork {
        child: root_name(a)?,
    })
}

/// What a command's word asks with one word behind it.
fn one_word_verb(word: &[u8], a: &[u8]) -> Option<Verb>
    ensures asked { result ≡ verb_in one_entries word.now (a.now ∷ []) }
    ensures few_fields { IfSome result HasFewFields }
{
    match word {
        b"drop" => drop_verb(a),
        b"show" => show_verb(a),
        b"fork" => fork_verb(a),
        _ => None,
    }
}

fn new_verb(a: &[u8], b: &[u8]) -> Option<Verb>
    ensures asked { result ≡ two root_of class_of verb.New (a.now ∷ b.now ∷ []) }
    ensures few_fields { IfSome result HasFewFields }
{
    Some(Verb::New {
        root: root_name(a)?,
        class: class_name(b)?,
    })
}

fn weak_verb(a: &[u8], b: &[u8]) -> Option<Verb>
    ensures asked { result ≡ two root_of root_of verb.Weak (a.now ∷ b.now ∷ []) }
    ensures few_fields { IfSome result HasFewFields }
{
    Some(Verb::Weak {
        root: root_name(a)?,
        referent: root_name(b)?,
    })
}

fn get_verb(a: &[u8], b: &[u8]) -> Option<Verb>
    ensures asked { result ≡ two root_of field_of verb.Get (a.now ∷ b.now ∷ []) }
    ensures few_fields { IfSome result HasFewFields }
{
    Some(Verb::Get {
        root: root_name(a)?,
        field: field_name(b)?,
    })
}

fn at_verb(a: &[u8], b: &[u8]) -> Option<Verb>
    ensures asked { result ≡ two root_of count_of verb.At (a.now ∷ b.now ∷ []) }
    ensures few_fields { IfSome result HasFewFields }
{
    Some(Verb::At {
        root: root_name(a)?,
        index: count(b)?,
    })
}

fn copy_verb(a: &[u8], b: &[u8]) -> Option<Verb>
    ensures asked { result ≡ two root_of root_of verb.Copy (a.now ∷ b.now ∷ []) }
    ensures few_fields { IfSome result HasFewFields }
{
    Some(Verb::Copy {
        to: root_name(a)?,
        from: root_name(b)?,
    })
}

/// What a command's word asks with two words behind it.
fn two_word_verb(word: &[u8], a: &[u8], b: &[u8]) -> Option<Verb>
    ensures asked { result ≡ verb_in two_entries word.now (a.now ∷ b.now ∷ []) }
    ensures few_fields { IfSome result HasFewFields }
{
    match word {
        b"new" => new_verb(a, b),
        b"weak" => weak_verb(a, b),
        b"get" => get_verb(a, b),
        b"at" => at_verb(a, b),
        b"copy" => copy_verb(a, b),
        _ => None,
    }
}

fn array_verb(a: &[u8], b: &[u8], c: &[u8]) -> Option<Verb>
    ensures asked { result ≡ three root_of kind_of count_of verb.Array (a.now ∷ b.now ∷ c.now ∷ []) }
    ensures few_fields { IfSome result HasFewFields }
{
    Some(Verb::Array {
        root: root_name(a)?,
        kind: kind(b)?,
        count: count(c)?,
    })
}

fn set_verb(a: &[u8], b: &[u8], c: &[u8]) -> Option<Verb>
    ensures asked { result ≡ three root_of field_of value_of verb.Set (a.now ∷ b.now ∷ c.now ∷ []) }
    ensures few_fields { IfSome result HasFewFields }
{
    Some(Verb::Set {
        root: root_name(a)?,
        field: field_name(b)?,
        value: value(c)?,
    })
}

fn put_verb(a: &[u8], b: &[u8], c: &[u8]) -> Option<Verb>
    ensures asked { result ≡ three root_of count_of value_of verb.Put (a.now ∷ b.now ∷ c.now ∷ []) }
    ensures few_fields { IfSome result HasFewFields }
{
    Some(Verb::Put {
        root: root_name(a)?,
        index: count(b)?,
        value: value(c)?,
    })
}

fn load_verb(a: &[u8], b: &[u8], c: &[u8]) -> Option<Verb>
    ensures asked { result ≡ three root_of root_of field_of verb.Load (a.now ∷ b.now ∷ c.now ∷ []) }
    ensures few_fields { IfSome result HasFewFields }
{
    Some(Verb::Load {
        to: root_name(a)?,
        from: root_name(b)?,
        field: field_name(c)?,
    })
}

fn load_at_verb(a: &[u8], b: &[u8], c: &[u8]) -> Option<Verb>
    ensures asked { result ≡ three root_of root_of count_of verb.LoadAt (a.now ∷ b.now ∷ c.now ∷ []) }
    ensures few_fields { IfSome result HasFewFields }
{
    Some(Verb::LoadAt {
        to: root_name(a)?,
        from: root_name(b)?,
        index: count(c)?,
    })
}

/// What a command's word asks with three words behind it.
fn three_word_verb(word: &[u8], a: &[u8], b: &[u8], c: &[u8]) -> Option<Verb>
    ensures asked { result ≡ verb_in three_entries word.now (a.now ∷ b.now ∷ c.now ∷ []) }
    ensures few_fields { IfSome result HasFewFields }
{
    match word {
        b"array" => array_verb(a, b, c),
        b"set" => set_verb(a, b, c),
        b"put" => put_verb(a, b, c),
        b"load" => load_verb(a, b, c),
        b"loadat" => load_at_verb(a, b, c),
        _ => None,
    }
}

/// What a command with a fixed number of words asks.
pub(crate) fn fixed_verb(word: &[u8], args: Words<'_>) -> Option<Verb>
    ensures asked { result ≡ verb_in fixed_entries word.now args.entry }
    ensures few_fields { IfSome result HasFewFields }
{
    let mut args = args;
    let Some(first) = args.next() else {
        return alone_verb(word);
    };
    let Some(second) = args.next() else {
        return one_word_verb(word, first);
    };
    let Some(third) = args.next() else {
        return two_word_verb(word, first, second);
    };
    match args.next() {
        None => three_word_verb(word, first, second, third),
        Some(_) => None,
    }
}
