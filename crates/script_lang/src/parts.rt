ghost use Rattle.std.specs.Prelude.{◌≡◌, ◌<◌, ◌∷◌, [], length, MatchOption, IfSome, IfNone};
ghost use Rattle.std.specs.Option.{option_copied};
ghost use Rattle.script_lang.specs.Parts.{is_blank, is_byte, parts, parts_left, lines};

use memchr::{memchr, memchr2};

/// The part in front of the first separator, and what follows that separator, if there is one.
pub(crate) fn cut(text: &[u8], separator: u8) -> (&[u8], Option<&[u8]>)
    ensures parts { parts (is_byte separator) text.now ≡ result.0.now ∷ parts_left (is_byte separator) (option_copied result.1) }
    ensures whole { IfNone result.1 (result.0.now ≡ text.now) }
    ensures shorter { IfSome result.1 (λ rest. length rest.now < length text.now) }
{
    match memchr(separator, text) {
        Some(at) => (&text[..at], Some(&text[at + 1..])),
        None => (text, None),
    }
}

/// The part in front of the first space or tab, and what follows that one, if there is one.
pub(crate) fn cut_blank(text: &[u8]) -> (&[u8], Option<&[u8]>)
    ensures parts { parts is_blank text.now ≡ result.0.now ∷ parts_left is_blank (option_copied result.1) }
    ensures shorter { IfSome result.1 (λ rest. length rest.now < length text.now) }
{
    match memchr2(b' ', b'\t', text) {
        Some(end) => (&text[..end], Some(&text[end + 1..])),
        None => (text, None),
    }
}
