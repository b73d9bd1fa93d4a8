ghost use Rattle.std.specs.Prelude.{◌≡◌, ◌+◌, ◌≤◌, ◌++◌, length, take, decimal};

use itoa::Buffer;

/// Writes a piece behind the first `at` bytes, and tells where it ends.
pub(crate) fn put(buf: &mut [u8; 64], at: usize, piece: &[u8]) -> usize
    requires { at + length piece.now ≤ 64 }
    ensures written { take result buf.new ≡ take at buf.old ++ piece.now }
    ensures end { result ≡ at + length piece.now }
{
    let end = at + piece.len();
    buf[at..end].copy_from_slice(piece);
    end
}

/// Writes a piece and a number in the same way. The number takes at most 5 bytes.
pub(crate) fn put_number(buf: &mut [u8; 64], at: usize, piece: &[u8], number: u16) -> usize
    requires { at + length piece.now + 5 ≤ 64 }
    ensures written { take result buf.new ≡ take at buf.old ++ piece.now ++ decimal number }
    ensures end { result ≤ at + length piece.now + 5 }
{
    let at = put(buf, at, piece);
    put(buf, at, Buffer::new().format(number).as_bytes())
}

/// Writes two pieces, each with a number behind it.
pub(crate) fn put_two(
    buf: &mut [u8; 64],
    at: usize,
    first: &[u8],
    a: u16,
    second: &[u8],
    b: u16,
) -> usize
    requires { at + length first.now + length second.now + 10 ≤ 64 }
    ensures written { take result buf.new ≡ take at buf.old ++ first.now ++ decimal a ++ second.now ++ decimal b }
    ensures end { result ≤ at + length first.now + length second.now + 10 }
{
    let at = put_number(buf, at, first, a);
    put_number(buf, at, second, b)
}
