ghost use Rattle.std.specs.Prelude.{◌≡◌, ◌+◌, ◌≤◌, ◌++◌, length, take, decimal, codes};
ghost use Rattle.script_lang.specs.Texts.{refusal_text, collected_mark, reply_words, reply_line};

use crate::{Refusal, Reply};
use itoa::{Buffer, Integer};

/// Writes a piece behind the first `at` bytes of a buffer, and tells where it ends.
pub fn put(buf: &mut [u8; 512], at: usize, piece: &[u8]) -> usize
    requires { at + length piece.now ≤ 512 }
    ensures written { take result buf.new ≡ take at buf.old ++ piece.now }
    ensures end { result ≡ at + length piece.now }
{
    let end = at + piece.len();
    buf[at..end].copy_from_slice(piece);
    end
}

/// Writes a piece and a number in the same way. The number takes at most 40 bytes.
pub fn put_number<I: Integer>(buf: &mut [u8; 512], at: usize, piece: &[u8], number: I) -> usize
    requires { at + length piece.now + 40 ≤ 512 }
    ensures written { take result buf.new ≡ take at buf.old ++ piece.now ++ I.text number }
    ensures end { result ≤ at + length piece.now + 40 }
{
    let at = put(buf, at, piece);
    put(buf, at, Buffer::new().format(number).as_bytes())
}

/// Writes two pieces, each with a number behind it.
fn put_two(buf: &mut [u8; 512], at: usize, first: &[u8], a: u32, second: &[u8], b: u32) -> usize
    requires { at + length first.now + length second.now + 80 ≤ 512 }
    ensures written { take result buf.new ≡ take at buf.old ++ first.now ++ decimal a ++ second.now ++ decimal b }
    ensures end { result ≤ at + length first.now + length second.now + 80 }
{
    let at = put_number(buf, at, first, a);
    put_number(buf, at, second, b)
}

fn mark_words(collected: bool) -> &'static [u8]
    ensures text { result.now ≡ collected_mark collected }
    ensures short { length result.now ≤ 3 }
{
    if collected { b" gc" } else { b"" }
}

/// Writes a refusal's words behind the first `at` bytes, and tells where they end.
fn put_refusal(buf: &mut [u8; 512], at: usize, refusal: Refusal) -> usize
    requires { at ≤ 100 }
    ensures written { take result buf.new ≡ take at buf.old ++ refusal_text refusal }
    ensures end { result ≤ at + 200 }
{
    match refusal {
        Refusal::BadLine => put(buf, at, b"E1 bad line"),
        Refusal::LineTooLong => put(buf, at, b"E2 line too long"),
        Refusal::NoProcess => put(buf, at, b"E3 no such process"),
        Refusal::Exited => put(buf, at, b"E4 process exited"),
        Refusal::ClassTaken => put(buf, at, b"E5 class taken"),
        Refusal::NoClass => put(buf, at, b"E6 no such class"),
        Refusal::ClassLimit => put(buf, at, b"E7 class limit"),
        Refusal::FieldTaken => put(buf, at, b"E8 field taken"),
        Refusal::NoRoot => put(buf, at, b"E9 no such root"),
        Refusal::Null => put(buf, at, b"E10 null"),
        Refusal::NoField => put(buf, at, b"E11 no such field"),
        Refusal::NotArray => put(buf, at, b"E12 not an array"),
        Refusal::IndexRange => put(buf, at, b"E13 index out of range"),
        Refusal::Misfit => put(buf, at, b"E14 value does not fit"),
        Refusal::Sealed => put(buf, at, b"E15 already sealed"),
        Refusal::NotSealed => put(buf, at, b"E16 not sealed"),
        Refusal::TooLarge => put(buf, at, b"E17 object too large"),
        Refusal::ImageFull { fill, size } => {
            put_two(buf, at, b"E18 image full: fill ", fill, b" size ", size)
        }
        Refusal::HeapFull { free, needed } => {
            put_two(buf, at, b"E19 heap full: free ", free, b" needed ", needed)
        }
        Refusal::ZygoteFull { fill, total } => {
            put_two(buf, at, b"E20 zygote full: fill ", fill, b" total ", total)
        }
        Refusal::ProcessTaken => put(buf, at, b"E21 process name taken"),
        Refusal::NumberLimit => put(buf, at, b"E22 number limit"),
    }
}

/// Writes the words of a reply behind the first `at` bytes, and tells where they end.
fn put_reply(buf: &mut [u8; 512], at: usize, reply: &Reply) -> usize
    requires { at ≤ 100 }
    ensures written { take result buf.new ≡ take at buf.old ++ reply_words reply.now }
    ensures end { result ≤ at + 300 }
{
    match *reply {
        Reply::Class(id) => put_number(buf, at, b"class ", id),
        Reply::Made { number, collected } => {
            let at = put_number(buf, at, b"#", number);
            put(buf, at, mark_words(collected))
        }
        Reply::Done => put(buf, at, b"ok"),
        Reply::Number(value) => put_number(buf, at, b"", value),
        Reply::Null => put(buf, at, b"null"),
        Reply::Object(number) => put_number(buf, at, b"#", number),
        Reply::Shown { number, class } => {
            let at = put_number(buf, at, b"#", number);
            let at = put(buf, at, b" ");
            put(buf, at, class.as_bytes())
        }
        Reply::Kept { kept, freed } => put_two(buf, at, b"kept ", kept, b" freed ", freed),
        Reply::Regions(count) => put_number(buf, at, b"regions ", count),
        Reply::Pages {
            image,
            image_written,
            zygote,
            zygote_written,
            large,
            large_written,
        } => {
            let at = put_two(buf, at, b"image ", image, b" ", image_written);
            let at = put_two(buf, at, b" zygote ", zygote, b" ", zygote_written);
            put_two(buf, at, b" large ", large, b" ", large_written)
        }
        Reply::Frames(count) => put_number(buf, at, b"frames ", count),
        Reply::Dumped { count, objects } => {
            put_two(buf, at, b"dump ", count, b" objects ", objects)
        }
        Reply::Refused(refusal) => put_refusal(buf, at, refusal),
    }
}

/// Writes the report's line for a reply, with its line feed, into the front of `buf`, and tells how many bytes it
/// has.
pub fn reply_text(line: u64, reply: &Reply, buf: &mut [u8; 512]) -> usize
    ensures text { take result buf.new ≡ reply_line line reply.now }
    ensures fits { result ≤ 512 }
{
    let at = put_number(buf, 0, b"", line);
    let at = put(buf, at, b": ");
    let at = put_reply(buf, at, reply);
    put(buf, at, b"\n")
}
