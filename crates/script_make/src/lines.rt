ghost use Rattle.std.specs.Prelude.{◌≡◌, ◌+◌, ◌<◌, ◌≤◌, ◌%◌, ◌++◌, take};
ghost use Rattle.script_make.specs.Lines.{asked, made_line, next_state, process_name};

use crate::draws::{Draws, four_draws};
use crate::line_kind::{LineKind, forks_after, kind_of};
use crate::put::{put, put_number, put_two};
use crate::state::MakeState;

/// Writes the name of the process that asks to the front, and tells where it ends.
fn put_process(buf: &mut [u8; 64], number: u16) -> usize
    ensures written { take result buf.new ≡ process_name number }
    ensures end { result ≤ 6 }
{
    if number == 0 {
        put(buf, 0, b"zygote")
    } else {
        put_number(buf, 0, b"a", number - 1)
    }
}

/// Writes what a line asks behind the first `at` bytes, and tells where it ends.
fn put_asked(buf: &mut [u8; 64], at: usize, kind: LineKind, draws: &Draws, forks: u16) -> usize
    requires { at ≤ 6 }
    ensures written { take result buf.new ≡ take at buf.old ++ asked kind draws.now forks }
    ensures end { result ≤ 64 }
{
    let i = draws.c % 8;
    let j = draws.d % 8;
    match kind {
        LineKind::New => {
            let at = put_number(buf, at, b" new r", i);
            put(buf, at, b" Node")
        }
        LineKind::SetNext => put_two(buf, at, b" set r", i, b" next r", j),
        LineKind::Put => put_two(buf, at, b" put t ", draws.d % 64, b" r", i),
        LineKind::Copy => put_two(buf, at, b" copy r", i, b" r", j),
        LineKind::Array => put_number(buf, at, b" array b byte ", draws.d % 20_000),
        LineKind::Get => {
            let at = put_number(buf, at, b" get r", i);
            put(buf, at, b" id")
        }
        LineKind::Fork => put_number(buf, at, b" fork a", forks),
        LineKind::Gc => put(buf, at, b" gc"),
        LineKind::Show => put_number(buf, at, b" show r", i),
        LineKind::SetId => put_two(buf, at, b" set r", i, b" id ", draws.d),
    }
}

/// Writes the next line, without a line feed, into the front of `buf`. Gives how many bytes it has, and the next state.
pub fn line_of(state: MakeState, buf: &mut [u8; 64]) -> (usize, MakeState)
    requires small_x { state.x < 2147483648 }
    requires few_forks { state.forks ≤ 6 }
    ensures line { take result.0 buf.new ≡ made_line state }
    ensures fits { result.0 ≤ 64 }
    ensures next { result.1 ≡ next_state state }
    ensures next_x { result.1.x < 2147483648 }
    ensures next_forks { result.1.forks ≤ 6 }
{
    let MakeState { mut x, forks } = state;
    let draws = four_draws(&mut x);
    let kind = kind_of(&draws, forks);
    let forks_so_far = forks as u16;
    let at = put_process(buf, draws.b % (forks_so_far + 1));
    let end = put_asked(buf, at, kind, &draws, forks_so_far);
    let forks = forks_after(kind, forks);
    (end, MakeState { x, forks })
}
