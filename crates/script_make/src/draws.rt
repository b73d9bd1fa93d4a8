ghost use Rattle.std.specs.Prelude.{◌≡◌, ◌<◌};
ghost use Rattle.script_make.specs.Draws.{draws_of, drawn, next_x, x_after};

/// The four draws of a line, each below 32,768.
#[derive(Clone, Copy)]
pub(crate) struct Draws {
    pub(crate) a: u16,
    pub(crate) b: u16,
    pub(crate) c: u16,
    pub(crate) d: u16,
}

fn next_x(x: u32) -> u32
    ensures is { result ≡ next_x x }
    ensures small { result < 2147483648 }
{
    ((u64::from(x) * 1_103_515_245 + 12_345) % 2_147_483_648) as u32
}

/// Makes the next draw from `x`, which goes on.
fn draw(x: &mut u32) -> u16
    ensures value { result ≡ drawn x.new }
    ensures next { x.new ≡ next_x x.old }
    ensures small { x.new < 2147483648 }
{
    *x = next_x(*x);
    (*x / 65_536) as u16
}

/// Makes four draws in turn from `x`, which goes on.
pub(crate) fn four_draws(x: &mut u32) -> Draws
    ensures drawn { result ≡ draws_of x.old }
    ensures next { x.new ≡ x_after x.old }
    ensures small { x.new < 2147483648 }
{
    let a = draw(x);
    let b = draw(x);
    let c = draw(x);
    let d = draw(x);
    Draws { a, b, c, d }
}
