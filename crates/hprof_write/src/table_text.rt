//! The text of a table of addresses.
ghost use Rattle.std.specs.Prelude.{◌≡◌, ℕ, ◌+◌, ◌%◌, ◌<◌, ◌≤◌, List, ◌++◌, true, length, slice_get, IsSomeAnd, OnOk, OnErr};
ghost use Rattle.ah_outside.specs.Outside.{Appended, FaultRose, Shelved};
ghost use Rattle.object_view.specs.Seen.{seen_of, step_reads, RoseBy};
ghost use Rattle.hprof_write.specs.Outcomes.{AppendedBut, AppendedPrefix, IfShelfFault};
ghost use Rattle.hprof_write.specs.Reads.{table_reads};
ghost use Rattle.hprof_write.specs.TableText.{hex_digit, hex_digits, table_line, table_text};

use crate::DumpError;
use crate::pieces::{put_piece, put_rest};
use ah_outside::Shelf;
use itoa::Buffer;
use object_view::{HeapView, Seen};
use std::alloc::{AllocError, Global};

/// Appends the text of the view's table to the unfinished entry: for each object by rising number a line with its
/// number and its address. After an error some first bytes of the text may have been appended.
pub fn write_map<V: HeapView, F: Shelf>(
    alloc: Global,
    view: &mut V,
    shelf: &mut F,
) -> Result<(), DumpError>
    requires { (F.shelved shelf.old).unfinished ≡ true }
    ensures ok { OnOk result (Appended (F.shelved shelf.old) (table_text (V.graph view.old) (V.table view.old)) (F.shelved shelf.new)) }
    ensures failed { OnErr result (AppendedPrefix (F.shelved shelf.old) (table_text (V.graph view.old) (V.table view.old)) (F.shelved shelf.new)) }
    ensures cause { IfShelfFault result (FaultRose (F.fault_count shelf.old) (F.fault_count shelf.new)) }
    ensures never_falls { F.fault_count shelf.old ≤ F.fault_count shelf.new }
    ensures same { V.same view.old view.new }
    ensures reads { RoseBy (table_reads (V.graph view.old)) (V.read_count view.old) (V.read_count view.new) }
{
    let mut waiting = Vec::new(alloc);
    view.rewind();
    for _k in 0..view.object_count() {
        let seen = next_seen(view);
        put_line(&mut waiting, seen.number, seen.at.0)?;
        put_piece(shelf, &mut waiting)?;
    }
    put_rest(shelf, &waiting)?;
    Ok(())
}

/// The object that comes next, where not all were given.
pub(crate) fn next_seen<V: HeapView>(view: &mut V) -> Seen
    requires { V.given view.old < length (V.graph view.old).objects }
    ensures seen { IsSomeAnd (slice_get (V.graph view.old).objects (V.given view.old)) (λ o. result ≡ seen_of (V.table view.old) o) }
    ensures given { V.given view.new ≡ V.given view.old + 1 }
    ensures same { V.same view.old view.new }
    ensures reads { RoseBy (step_reads (slice_get (V.graph view.old).objects (V.given view.old))) (V.read_count view.old) (V.read_count view.new) }
{
    view.next_object().unwrap()
}

// The line of an object: its number, and its address in hexadecimal digits.
fn put_line(out: &mut Vec<u8>, number: u32, at: u32) -> Result<(), AllocError>
    ensures { OnOk result (out.new.items ≡ out.old.items ++ table_line number at) }
{
    out.extend_from_slice(b"#")?;
    out.extend_from_slice(Buffer::new().format(number).as_bytes())?;
    out.extend_from_slice(b" 0x")?;
    put_hex(out, at)?;
    out.push(b'\n')?;
    Ok(())
}

// The 8 hexadecimal digits of a number, the highest first.
fn put_hex(out: &mut Vec<u8>, n: u32) -> Result<(), AllocError>
    ensures { OnOk result (out.new.items ≡ out.old.items ++ hex_digits 8 n) }
{
    let digits = [
        hex_digit(n / 0x1000_0000),
        hex_digit(n / 0x100_0000),
        hex_digit(n / 0x10_0000),
        hex_digit(n / 0x1_0000),
        hex_digit(n / 0x1000),
        hex_digit(n / 0x100),
        hex_digit(n / 0x10),
        hex_digit(n),
    ];
    out.extend_from_slice(&digits)
}

// The last hexadecimal digit of a number.
fn hex_digit(n: u32) -> u8
    ensures { result ≡ hex_digit (n % 16) }
{
    let digit = (n % 16) as u8;
    if digit < 10 {
        b'0' + digit
    } else {
        b'a' + (digit - 10)
    }
}
