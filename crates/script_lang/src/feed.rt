ghost use Rattle.std.specs.Prelude.{◌≡◌, ◌<◌, ◌≤◌, ◌+◌, ◌-◌, ◌^◌, ◌∷◌, ◌++◌, [], ℕ, List, true, false, length, take, drop, Some, IfOk, OnOk, IfSome, MatchOption, if◌then◌else◌};
ghost use Rattle.std.specs.Option.{option_copied};
ghost use Rattle.script_lang.specs.Parts.{lines};
ghost use Rattle.script_lang.specs.Feeding.{kept_line, fresh_feed, first_part, has_line_feed, taken, grown, has_bytes, after_feeding, after_end, at_next, line_at, numbered, ahead, FedLine, LinesCome};
ghost use Rattle.script_lang.specs.FedLines.{fed_bytes, fed_line};
ghost use Rattle.script_lang.specs.FeedState.{IsOneLine};

use crate::parts::cut;
use model_numbers::LINE_LIMIT;
use std::alloc::{AllocError, Global};
use std::marker::Model;

/// The bytes of a line so far, or none of them once they are more than a line may have.
#[derive(Debug, Drop)]
struct KeptBytes {
    bytes: Vec<u8>,
    is_long: bool,
}

impl Model for KeptBytes {
    ghost use Rattle.std.specs.Prelude.{◌≤◌, ℕ, List, Option, length, vec_capacity};
    ghost use Rattle.model_numbers.specs.Numbers.{line_limit};
    ghost use Rattle.script_lang.specs.FeedState.{bytes_unless};

    ghost Value = { Option (List ℕ) };

    ghost view = { λ s. bytes_unless s.is_long s.bytes.items };

    ghost invariant = { λ s. (length s.bytes.items ≤ line_limit) × (line_limit ≤ vec_capacity s.bytes) };
}

impl KeptBytes {
    /// No bytes so far, with memory for as many as a line may have.
    fn new(alloc: Global) -> Result<KeptBytes, AllocError>
        ensures { IfOk result (λ kept. kept ≡ Some []) }
    {
        Ok(KeptBytes {
            bytes: Vec::with_capacity(alloc, LINE_LIMIT)?,
            is_long: false,
        })
    }

    /// Keeps more bytes behind those so far, where both together aren't too many.
    fn grow(&mut self, more: &[u8])
        ensures { self.new ≡ grown self.old more.now }
    {
        if self.is_long || more.len() > LINE_LIMIT - self.bytes.len() {
            self.is_long = true;
            return;
        }
        self.bytes.extend_from_slice(more).unwrap();
    }

    /// No bytes so far.
    fn clear(&mut self)
        ensures { self.new ≡ Some [] }
    {
        self.bytes.clear();
        self.is_long = false;
    }

    fn has_bytes(&self) -> bool
        ensures { result ≡ has_bytes self.now }
    {
        self.is_long || !self.bytes.is_empty()
    }

    /// The bytes, unless there are too many.
    fn bytes(&self) -> Option<&[u8]>
        ensures { option_copied result ≡ self.now }
    {
        if self.is_long {
            return None;
        }
        Some(&self.bytes)
    }
}

/// A line that a `LineFeed` hands out. Lines are numbered from 1.
#[derive(Clone, Copy, Debug, Drop)]
pub enum Fed<'a> {
    /// A line of at most 4,096 bytes, without its line feed. A carriage return belongs to the bytes. With more bytes
    /// it means a line that is too long.
    Line { number: u64, bytes: &'a [u8] },
    /// A line of more than 4,096 bytes.
    TooLong { number: u64 },
}

/// Cuts lines from the pieces of a text, whatever the pieces: the lines that come, one after another, are those
/// of the whole text.
///
/// Feed a piece until all of its bytes are taken. Where a line is whole after a call, `line` hands it out and
/// `next` begins the next one. At the end of the text call `end`, and hand out the last line, if there is one.
#[derive(Debug, Drop)]
pub struct LineFeed {
    number: u64,
    kept: KeptBytes,
    is_whole: bool,
    is_ended: bool,
}

impl Model for LineFeed {
    ghost use Rattle.script_lang.specs.Feeding.{Feed};
    ghost use Rattle.script_lang.specs.FeedState.{IsOneLine, IsEmptyAtEnd};

    ghost Value = { Feed };

    ghost view = { λ s. record { number = s.number; kept = s.kept; whole = s.is_whole; ended = s.is_ended } };

    ghost invariant = { λ s. IsOneLine s.kept × IsEmptyAtEnd s.is_ended s.is_whole s.kept };
}

impl LineFeed {
    /// A feed at the start of a text. It takes the memory for a line, 4,096 bytes, and fails where there is
    /// none. No later call takes any.
    pub fn new(alloc: Global) -> Result<LineFeed, AllocError>
        ensures { IfOk result (λ feed. feed ≡ fresh_feed) }
    {
        Ok(LineFeed {
            number: 1,
            kept: KeptBytes::new(alloc)?,
            is_whole: false,
            is_ended: false,
        })
    }

    /// Takes the bytes of a piece up to and with its first line feed, or all of them, and tells how many.
    /// The line mustn't be whole already, nor the text ended. Once the line has more than 4,096 bytes, it is
    /// too long and none are kept.
    pub fn feed(&mut self, piece: &[u8]) -> usize
        requires unfinished { self.old.whole ≡ false }
        requires not_ended { self.old.ended ≡ false }
        ensures state { self.new ≡ after_feeding self.old piece.now }
        ensures count { result ≡ length (taken piece.now) }
        ensures bytes { take result piece.now ≡ taken piece.now }
        ensures within { result ≤ length piece.now }
        ensures some { 0 < length piece.now → 1 ≤ result }
        ensures kept { (part : List ℕ) → self.old.kept ≡ kept_line part → self.new.kept ≡ kept_line (part ++ first_part piece.now) }
        ensures lines { (rest : List ℕ) → ahead self.old (piece.now ++ rest) ≡ ahead self.new (drop result piece.now ++ rest) }
    {
        let (part, is_whole) = up_to_line_feed(piece);
        self.kept.grow(part);
        self.is_whole = is_whole;
        part.len() + usize::from(is_whole)
    }

    /// Ends the text. Its last line is whole then, if it has at least one byte.
    /// The line mustn't be whole already, nor the text ended.
    pub fn end(&mut self)
        requires unfinished { self.old.whole ≡ false }
        requires not_ended { self.old.ended ≡ false }
        ensures state { self.new ≡ after_end self.old }
        ensures lines { ahead self.old [] ≡ ahead self.new [] }
    {
        self.is_whole = self.kept.has_bytes();
        self.is_ended = true;
    }

    /// The line, once it is whole: once its line feed was taken, or the text ended behind at least one byte.
    pub fn line(&self) -> Option<Fed<'_>>
        ensures whole { MatchOption result (self.now.whole ≡ false) (λ fed. self.now.whole ≡ true) }
        ensures line { IfSome result (λ fed. fed_line fed ≡ line_at self.now) }
        ensures bytes { IfSome result (λ fed. fed_bytes fed ≡ self.now.kept) }
        ensures one_line { IfSome result (λ fed. IsOneLine (fed_line fed).kept) }
    {
        if !self.is_whole {
            return None;
        }
        match self.kept.bytes() {
            Some(bytes) => Some(Fed::Line {
                number: self.number,
                bytes,
            }),
            None => Some(Fed::TooLong {
                number: self.number,
            }),
        }
    }

    /// Begins the next line. The line must be whole, and its number below the greatest of 64 bits.
    pub fn next(&mut self)
        requires whole { self.old.whole ≡ true }
        requires in_range { self.old.number < 2 ^ 64 - 1 }
        ensures state { self.new ≡ at_next self.old }
        ensures lines { (text : List ℕ) → ahead self.old text ≡ line_at self.old ∷ ahead self.new text }
    {
        self.number += 1;
        self.kept.clear();
        self.is_whole = false;
    }
}

/// Law: at the start of a text its lines are ahead, numbered from 1. No call but `next` changes what is ahead,
/// and `next` takes from it just the line that was handed out.
///
/// So for every cutting into pieces the lines that come are those of the whole text.
pub fn pieces_give_the_lines()
    ensures start { (text : List ℕ) → ahead fresh_feed text ≡ numbered 1 (lines text) }
    ensures every_cutting { (text : List ℕ) (ls : List FedLine) → LinesCome fresh_feed text ls → ls ≡ numbered 1 (lines text) }
{}

/// Law: once the text ended and no line is whole, no line is ahead.
pub fn nothing_is_left(feed: &LineFeed)
    ensures { feed.now.ended ≡ true → feed.now.whole ≡ false → ahead feed.now [] ≡ [] }
{
    // opens the feed: what holds of every feed is then known
    let _ = &feed.kept;
}

/// The bytes of a piece in front of its first line feed, or all of them, and whether it has one.
fn up_to_line_feed(piece: &[u8]) -> (&[u8], bool)
    ensures part { result.0.now ≡ first_part piece.now }
    ensures ended { result.1 ≡ has_line_feed piece.now }
    ensures count { length (taken piece.now) ≡ length result.0.now + (if result.1 then 1 else 0) }
{
    let (part, rest) = cut(piece, b'\n');
    match rest {
        Some(_) => (part, true),
        None => (part, false),
    }
}
