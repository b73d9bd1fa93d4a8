ghost use Rattle.std.specs.Prelude.{◌≡◌, ◌≤◌, length, IfOk, IfSome, is_some};
ghost use Rattle.model_numbers.specs.Numbers.{line_limit};
ghost use Rattle.heap_world.specs.Commands.{HasFewFields};
ghost use Rattle.script_lang.specs.Forms.{decls_of};
ghost use Rattle.script_lang.specs.Grammar.{class_line, verb_in, entries, begins_with_hash, line_meaning};
ghost use Rattle.script_lang.specs.Reading.{ReadsFields, ReadsVerb, ReadsLine};

use crate::forms::{class_name, field_decl, root_name};
use crate::verbs::fixed_verb;
use crate::words::Words;
use crate::{Command, FieldList, Verb};
use std::alloc::{AllocError, Global};

/// Why a line can't be read.
#[derive(Clone, Copy, Debug, PartialEq, Eq)]
pub enum LineError {
    /// The line is no command.
    Bad,
    /// There is no memory for the fields of a class.
    OutOfMemory,
}

impl From<AllocError> for LineError {
    ghost use Rattle.std.specs.Prelude.{◌≡◌};
    ghost use Rattle.script_lang.specs.declared.read.LineError.TheVariants.{OutOfMemory};

    ghost from_gives = { λ _ e. e ≡ OutOfMemory };

    fn from(_: AllocError) -> LineError {
        LineError::OutOfMemory
    }
}

/// Whether each word that is left is a field.
fn are_fields(words: Words<'_>) -> bool
    ensures { result ≡ is_some (decls_of words.entry) }
{
    let mut words = words;
    while let Some(word) = words.next() {
        if field_decl(word).is_none() {
            return false;
        }
    }
    true
}

/// The fields that the words declare. Where memory is wanting, a word that is no field still makes the line bad.
fn read_fields(alloc: Global, words: Words<'_>) -> Result<FieldList, LineError>
    ensures { ReadsFields result (decls_of words.entry) }
{
    let mut words = words;
    let mut fields = FieldList::new(alloc);
    while let Some(word) = words.next() {
        let field = field_decl(word).ok_or(LineError::Bad)?;
        if fields.push(field).is_err() {
            return Err(if are_fields(words) {
                LineError::OutOfMemory
            } else {
                LineError::Bad
            });
        }
    }
    Ok(fields)
}

fn class_verb(alloc: Global, words: Words<'_>) -> Result<Verb, LineError>
    requires { length words ≤ line_limit }
    ensures meaning { ReadsVerb result (class_line words.entry) }
    ensures few_fields { IfOk result HasFewFields }
{
    let mut words = words;
    let Some(name) = words.next() else {
        return Err(LineError::Bad);
    };
    let Some(parent) = words.next() else {
        return Err(LineError::Bad);
    };
    let name = class_name(name).ok_or(LineError::Bad)?;
    let parent = class_name(parent).ok_or(LineError::Bad)?;
    let fields = read_fields(alloc, words)?;
    Ok(Verb::Class {
        name,
        parent,
        fields,
    })
}

fn read_verb(alloc: Global, word: &[u8], args: Words<'_>) -> Result<Verb, LineError>
    requires { length args ≤ line_limit }
    ensures meaning { ReadsVerb result (verb_in entries word.now args.entry) }
    ensures few_fields { IfOk result HasFewFields }
{
    if word == b"class".as_slice() {
        class_verb(alloc, args)
    } else {
        fixed_verb(word, args).ok_or(LineError::Bad)
    }
}

/// Whether a line whose first word this is has no reply.
fn is_remark(word: &[u8]) -> bool
    ensures { result ≡ begins_with_hash word.now }
{
    word.first() == Some(&b'#')
}

/// The command that a line of at most 4,096 bytes is, without its line feed. `Ok(None)` comes for a line without
/// words, or whose first word begins with `#`. `Bad` comes exactly where the line is neither that nor a command, and
/// `OutOfMemory` for a class line alone.
pub fn read_line(alloc: Global, bytes: &[u8]) -> Result<Option<Command>, LineError>
    requires { length bytes.now ≤ line_limit }
    ensures meaning { ReadsLine result (line_meaning bytes.now) }
    ensures few_fields { IfOk result (λ line. IfSome line (λ command. HasFewFields command.verb)) }
{
    let mut words = Words::of(bytes);
    let Some(first) = words.next() else {
        return Ok(None);
    };
    if is_remark(first) {
        return Ok(None);
    }
    let Some(process) = root_name(first) else {
        return Err(LineError::Bad);
    };
    let Some(command) = words.next() else {
        return Err(LineError::Bad);
    };
    match read_verb(alloc, command, words) {
        Ok(verb) => Ok(Some(Command { process, verb })),
        Err(error) => Err(error),
    }
}
