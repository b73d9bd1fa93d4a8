//! Pieces of lines, put into a sink.
ghost use Rattle.std.specs.Prelude.{◌≡◌, ◌*◌, ◌<◌, ◌≤◌, [], ◌∷◌, ◌++◌, codes, map, length, take};
ghost use Rattle.std.specs.List.{flat_map};
ghost use Rattle.hprof_list.specs.Listing.{hex_digit, hex_byte, hex, id_text, tag_text, value_text, is_plain, shown_byte, spaced_id, further_text};
ghost use Rattle.hprof_list.specs.Putting.{Puts, joined};

use ah_outside::{Failed, Sink, put_all};

/// A digit of base 16.
fn digit(n: u8) -> u8
    requires { n < 16 }
    ensures { result ≡ hex_digit n }
{
    b"0123456789abcdef"[n as usize]
}

/// A byte as two digits.
pub fn hex_of(byte: u8) -> [u8; 2]
    ensures { result ≡ hex_byte byte }
{
    [digit(byte / 16), digit(byte % 16)]
}

/// A tag, with its sign before it.
pub fn tag_of(tag: u8) -> [u8; 4]
    ensures { result ≡ tag_text tag }
{
    let [high, low] = hex_of(tag);
    [b'0', b'x', high, low]
}

/// An identifier, with its sign before it.
pub fn id_of(id: u32) -> [u8; 10]
    ensures { result ≡ id_text id }
{
    let [a, b, c, d] = id.to_be_bytes();
    let [a_high, a_low] = hex_of(a);
    let [b_high, b_low] = hex_of(b);
    let [c_high, c_low] = hex_of(c);
    let [d_high, d_low] = hex_of(d);
    [
        b'0', b'x', a_high, a_low, b_high, b_low, c_high, c_low, d_high, d_low,
    ]
}

/// Puts one piece.
pub fn put_piece<W: Sink>(sink: &mut W, piece: &[u8]) -> Result<(), Failed>
    ensures { Puts W.gained W.fault_count sink.old piece.now sink.new result }
{
    put_all(sink, piece)
}

/// Puts the pieces, one after another.
pub fn put_pieces<W: Sink>(sink: &mut W, pieces: &[&[u8]]) -> Result<(), Failed>
    ensures { Puts W.gained W.fault_count sink.old (flat_map (λ p. p.now) pieces.now) sink.new result }
{
    for piece in pieces {
        put_piece(sink, piece)?;
    }
    Ok(())
}

/// Writes the digits of the bytes to the front of a buffer.
fn write_hex(bytes: &[u8], out: &mut [u8])
    requires { 2 * length bytes.now ≤ length out.old }
    ensures written { take (2 * length bytes.now) out.new ≡ hex bytes.now }
{
    for i in 0..bytes.len() {
        let [high, low] = hex_of(bytes[i]);
        out[2 * i] = high;
        out[2 * i + 1] = low;
    }
}

/// So many bytes of a value are put at a time.
const CHUNK: usize = 64;

/// The digits of some bytes, in one piece.
fn put_chunk<W: Sink>(sink: &mut W, bytes: &[u8]) -> Result<(), Failed>
    requires { length bytes.now ≤ CHUNK }
    ensures { Puts W.gained W.fault_count sink.old (hex bytes.now) sink.new result }
{
    let mut digits = [0u8; 2 * CHUNK];
    write_hex(bytes, &mut digits);
    put_piece(sink, &digits[..2 * bytes.len()])
}

fn put_hex<W: Sink>(sink: &mut W, bytes: &[u8]) -> Result<(), Failed>
    ensures { Puts W.gained W.fault_count sink.old (hex bytes.now) sink.new result }
{
    let mut done = 0;
    while done < bytes.len() {
        let end = done + CHUNK.min(bytes.len() - done);
        put_chunk(sink, &bytes[done..end])?;
        done = end;
    }
    Ok(())
}

/// A value's bytes, and the end of the line.
fn put_value<W: Sink>(sink: &mut W, bytes: &[u8]) -> Result<(), Failed>
    ensures { Puts W.gained W.fault_count sink.old (value_text bytes.now ++ codes "\n") sink.new result }
{
    if bytes.is_empty() {
        return put_piece(sink, b"-\n");
    }
    put_hex(sink, bytes)?;
    put_piece(sink, b"\n")
}

fn put_shown<W: Sink>(sink: &mut W, byte: u8) -> Result<(), Failed>
    ensures { Puts W.gained W.fault_count sink.old (shown_byte byte) sink.new result }
{
    if byte != b'\\' && (0x20..=0x7e).contains(&byte) {
        put_piece(sink, &[byte])
    } else {
        let [high, low] = hex_of(byte);
        put_piece(sink, &[b'\\', b'x', high, low])
    }
}

fn put_all_shown<W: Sink>(sink: &mut W, bytes: &[u8]) -> Result<(), Failed>
    ensures { Puts W.gained W.fault_count sink.old (flat_map shown_byte bytes.now) sink.new result }
{
    for byte in bytes {
        put_shown(sink, *byte)?;
    }
    Ok(())
}

/// A text's bytes, and the end of the line.
fn put_text<W: Sink>(sink: &mut W, bytes: &[u8]) -> Result<(), Failed>
    ensures { Puts W.gained W.fault_count sink.old (flat_map shown_byte bytes.now ++ codes "\n") sink.new result }
{
    put_all_shown(sink, bytes)?;
    put_piece(sink, b"\n")
}

/// An identifier, with a space before it.
fn spaced(id: u32) -> [u8; 11]
    ensures { result ≡ spaced_id id }
{
    let [zero, x, a, b, c, d, e, f, g, h] = id_of(id);
    [b' ', zero, x, a, b, c, d, e, f, g, h]
}

fn put_spaced<W: Sink>(sink: &mut W, ids: &[u32]) -> Result<(), Failed>
    ensures { Puts W.gained W.fault_count sink.old (flat_map spaced_id ids.now) sink.new result }
{
    for id in ids {
        put_piece(sink, &spaced(*id))?;
    }
    Ok(())
}

/// Identifiers, and the end of the line.
fn put_ids<W: Sink>(sink: &mut W, ids: &[u32]) -> Result<(), Failed>
    ensures { Puts W.gained W.fault_count sink.old (flat_map spaced_id ids.now ++ codes "\n") sink.new result }
{
    put_spaced(sink, ids)?;
    put_piece(sink, b"\n")
}

/// A line that ends with a value.
pub fn put_value_line<W: Sink>(sink: &mut W, pieces: &[&[u8]], bytes: &[u8]) -> Result<(), Failed>
    ensures { Puts W.gained W.fault_count sink.old (joined (map (λ p. p.now) pieces.now) (value_text bytes.now ++ codes "\n")) sink.new result }
{
    put_pieces(sink, pieces)?;
    put_value(sink, bytes)
}

/// A line that ends with a text.
pub fn put_text_line<W: Sink>(sink: &mut W, pieces: &[&[u8]], bytes: &[u8]) -> Result<(), Failed>
    ensures { Puts W.gained W.fault_count sink.old (joined (map (λ p. p.now) pieces.now) (flat_map shown_byte bytes.now ++ codes "\n")) sink.new result }
{
    put_pieces(sink, pieces)?;
    put_text(sink, bytes)
}

/// A line that ends with identifiers.
pub fn put_ids_line<W: Sink>(sink: &mut W, pieces: &[&[u8]], ids: &[u32]) -> Result<(), Failed>
    ensures { Puts W.gained W.fault_count sink.old (joined (map (λ p. p.now) pieces.now) (flat_map spaced_id ids.now ++ codes "\n")) sink.new result }
{
    put_pieces(sink, pieces)?;
    put_ids(sink, ids)
}
