ghost use Rattle.std.specs.Prelude.{◌≡◌, ◌<◌, ◌≤◌, ◌↔◌, Some, None, IsSome, IfSome, MatchOption, length, slice_get, take};
ghost use Rattle.std.specs.Option.{option_copied};
ghost use Rattle.script_make.specs.Boot.{boot_lines};

/// The fixed line of a number, counted from 0.
fn fixed_line(k: usize) -> Option<&'static [u8]>
    ensures line { option_copied result ≡ slice_get boot_lines k }
    ensures short { IfSome result (λ line. length line.now ≤ 96) }
    ensures found { IsSome result ↔ (k < 11) }
{
    Some(match k {
        0 => b"zygote class Node java.lang.Object next:ref other:ref id:int",
        1 => b"zygote new r0 Node",
        2 => b"zygote new r1 Node",
        3 => b"zygote new r2 Node",
        4 => b"zygote new r3 Node",
        5 => b"zygote new r4 Node",
        6 => b"zygote new r5 Node",
        7 => b"zygote new r6 Node",
        8 => b"zygote new r7 Node",
        9 => b"zygote array t ref 64",
        10 => b"zygote seal",
        _ => return None,
    })
}

/// Writes the fixed line of a number, counted from 0, into the front of `buf`, without a line feed. Gives how many
/// bytes it has. There are 11 fixed lines.
pub fn boot_line(k: usize, buf: &mut [u8; 96]) -> Option<usize>
    ensures found { IsSome result ↔ (k < 11) }
    ensures line { IfSome result (λ n. slice_get boot_lines k ≡ Some (take n buf.new)) }
    ensures fits { IfSome result (λ n. n ≤ 96) }
{
    let line = fixed_line(k)?;
    buf[..line.len()].copy_from_slice(line);
    Some(line.len())
}
