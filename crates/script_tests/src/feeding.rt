//! Lines from the pieces of a text.
ghost use Rattle.std.specs.Prelude.{◌≡◌, ◌≤◌, false, OnOk};
ghost use Rattle.script_lang.specs.FedLines.{fed_line};

use crate::wanted::has;
use script_lang::{Fed, LineFeed};
use std::alloc::{AllocError, Global};
use std::process::Abort;
use std::test::Fail;

// Notes a line: its number, which is at most 9, a blank, its bytes, and a line feed.
fn note(noted: &mut Vec<u8>, fed: &Fed<'_>) -> Result<(), AllocError>
    ensures { OnOk result ((fed_line fed.now).number ≤ 9) }
{
    let number = match *fed {
        Fed::Line { number, .. } => number,
        Fed::TooLong { number } => number,
    };
    if number > 9 {
        return Err(AllocError);
    }
    noted.push(b"0123456789"[number as usize])?;
    noted.push(b' ')?;
    noted.extend_from_slice(match *fed {
        Fed::Line { bytes, .. } => bytes,
        Fed::TooLong { .. } => b"too long",
    })?;
    noted.push(b'\n')?;
    Ok(())
}

// Notes the line, if it is whole, and begins the next one.
fn note_line(feed: &mut LineFeed, noted: &mut Vec<u8>) -> Result<(), AllocError>
    ensures whole { OnOk result (feed.new.whole ≡ false) }
    ensures ended { OnOk result (feed.new.ended ≡ feed.old.ended) }
{
    let Some(fed) = feed.line() else {
        return Ok(());
    };
    note(noted, &fed)?;
    feed.next();
    Ok(())
}

// Feeds a piece, and notes the lines that come.
fn feed_piece(feed: &mut LineFeed, piece: &[u8], noted: &mut Vec<u8>) -> Result<(), AllocError>
    requires unfinished { feed.old.whole ≡ false }
    requires not_ended { feed.old.ended ≡ false }
    ensures whole { OnOk result (feed.new.whole ≡ false) }
    ensures ended { OnOk result (feed.new.ended ≡ false) }
{
    let mut rest = piece;
    while !rest.is_empty() {
        let taken = feed.feed(rest);
        rest = &rest[taken..];
        note_line(feed, noted)?;
    }
    Ok(())
}

// The lines that come of a text in pieces of this size, as they are noted.
fn lines_by(alloc: Global, text: &[u8], size: usize) -> Result<Vec<u8>, AllocError> {
    let mut feed = LineFeed::new(alloc)?;
    let mut noted = Vec::new(alloc);
    for piece in text.chunks(size.max(1)) {
        feed_piece(&mut feed, piece, &mut noted)?;
    }
    feed.end();
    note_line(&mut feed, &mut noted)?;
    Ok(noted)
}

// A text gives these lines in pieces of any size.
fn gives_lines(
    rt: &impl Abort,
    alloc: Global,
    text: &[u8],
    wanted: &[u8],
) -> Result<(), AllocError> {
    for size in [1, 2, 3, 7, 20_000] {
        has(rt, &lines_by(alloc, text, size)?, wanted);
    }
    Ok(())
}

// Bytes with more behind them: the longest line of `a`, and another text.
fn longest_between(alloc: Global, front: &[u8], end: &[u8]) -> Result<Vec<u8>, AllocError> {
    let mut text = Vec::from_slice(alloc, front)?;
    text.extend_from_slice(&vec![in alloc; b'a'; 4_096]?)?;
    text.extend_from_slice(end)?;
    Ok(text)
}

// Six lines, of which the third is the longest and the fourth is too long. The last has no line feed.
fn six_lines(alloc: Global) -> Result<Vec<u8>, AllocError> {
    let mut text = longest_between(alloc, b"first\r\n\n", b"\n")?;
    text.extend_from_slice(&longest_between(alloc, b"b", b"\n\nlast")?)?;
    Ok(text)
}

// The last line has no line feed, then one, and then a blank line follows.
#[test]
fn pieces_of_any_size_give_the_same_lines(rt: HostRuntime) -> Result<(), Fail> {
    let alloc = rt.alloc();
    let mut text = six_lines(alloc)?;
    let mut wanted = longest_between(alloc, b"1 first\r\n2 \n3 ", b"\n4 too long\n5 \n6 last\n")?;
    gives_lines(&rt, alloc, &text, &wanted)?;
    text.push(b'\n')?;
    gives_lines(&rt, alloc, &text, &wanted)?;
    text.push(b'\n')?;
    wanted.extend_from_slice(b"7 \n")?;
    gives_lines(&rt, alloc, &text, &wanted)?;
    gives_lines(&rt, alloc, b"", b"")?;
    Ok(())
}
