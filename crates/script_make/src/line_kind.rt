ghost use Rattle.std.specs.Prelude.{◌≡◌, ◌<◌, ◌%◌};
ghost use Rattle.script_make.specs.Lines.{forks_after, kind_by, rare_kind};

use crate::draws::Draws;

/// What a made line asks for.
#[derive(Clone, Copy)]
pub(crate) enum LineKind {
    New,
    SetNext,
    Put,
    Copy,
    Array,
    Get,
    Fork,
    Gc,
    Show,
    SetId,
}

/// The kinds that come seldom. No seventh fork is made.
fn rare_kind(rest: u16, forks: u32) -> LineKind
    ensures kind { result ≡ rare_kind rest forks }
    ensures room { result ≡ LineKind.Fork → forks < 6 }
{
    match rest {
        0 if forks < 6 => LineKind::Fork,
        0..=7 => LineKind::Gc,
        _ => LineKind::Show,
    }
}

/// The kind of the line of these draws.
pub(crate) fn kind_of(draws: &Draws, forks: u32) -> LineKind
    ensures kind { result ≡ kind_by (draws.now.a % 16) (draws.now.c % 64) forks }
    ensures room { result ≡ LineKind.Fork → forks < 6 }
{
    match draws.a % 16 {
        0..=4 => LineKind::New,
        5..=8 => LineKind::SetNext,
        9 | 10 => LineKind::Put,
        11 => LineKind::Copy,
        12 => LineKind::Array,
        13 => LineKind::Get,
        14 => rare_kind(draws.c % 64, forks),
        _ => LineKind::SetId,
    }
}

/// How many forks there were after a line of a kind.
pub(crate) fn forks_after(kind: LineKind, forks: u32) -> u32
    requires { kind ≡ LineKind.Fork → forks < 6 }
    ensures { result ≡ forks_after kind forks }
{
    match kind {
        LineKind::Fork => forks + 1,
        _ => forks,
    }
}
