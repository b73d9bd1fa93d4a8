ghost use Rattle.std.specs.Prelude.{◌≡◌, ◌∷◌, [], MatchOption};
ghost use Rattle.std.specs.Option.{option_copied};
ghost use Rattle.script_lang.specs.Parts.{without_return, words_left};

use crate::parts::cut_blank;
use std::marker::Model;

/// A line without a carriage return that stands last in it.
fn without_return(line: &[u8]) -> &[u8]
    ensures { result.now ≡ without_return line.now }
{
    match line.split_last() {
        None => line,
        Some((last, front)) => { if *last == b'\r' { front } else { line } }
    }
}

/// The first word of what is left of a line, if there is one, and what is left behind it.
fn next_word(left: Option<&[u8]>) -> Option<(&[u8], Option<&[u8]>)>
    ensures { MatchOption result (words_left (option_copied left.entry) ≡ [])
        (λ r. words_left (option_copied left.entry) ≡ r.0.now ∷ words_left (option_copied r.1)) }
{
    let mut left = left;
    while let Some(text) = left {
        let (part, rest) = cut_blank(text);
        if !part.is_empty() {
            return Some((part, rest));
        }
        left = rest;
    }
    None
}

/// The words of a line that are still to be read. A contract sees the list of them.
#[derive(Drop)]
pub(crate) struct Words<'a> {
    rest: Option<&'a [u8]>,
}

impl<'a> Model for Words<'a> {
    ghost use Rattle.std.specs.Prelude.{ℕ, List};
    ghost use Rattle.std.specs.Option.{option_copied};
    ghost use Rattle.script_lang.specs.Parts.{words_left};

    ghost Value = { List (List ℕ) };

    ghost view = { λ w. words_left (option_copied w.rest) };
}

impl<'a> Words<'a> {
    ghost use Rattle.std.specs.Prelude.{◌≡◌, ◌≤◌, ◌∷◌, [], length, MatchOption};
    ghost use Rattle.script_lang.specs.Parts.{words};

    /// The words of a line.
    pub(crate) fn of(line: &'a [u8]) -> Words<'a>
        ensures words { result ≡ words line.now }
        ensures few { length result ≤ length line.now }
    {
        Words {
            rest: Some(without_return(line)),
        }
    }

    /// The next word.
    pub(crate) fn next(&mut self) -> Option<&'a [u8]>
        ensures { MatchOption result ((self.old ≡ []) × (self.new ≡ [])) (λ word. self.old ≡ word.now ∷ self.new) }
    {
        let (word, rest) = next_word(self.rest)?;
        self.rest = rest;
        Some(word)
    }
}
