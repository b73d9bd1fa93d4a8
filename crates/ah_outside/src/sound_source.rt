ghost use Rattle.std.specs.Prelude.{◌≡◌, ◌<◌, ◌≤◌, ◌↔◌, [], length, take, IfOk, IsOk};
ghost use Rattle.ah_outside.specs.Outside.{Gave};

use crate::{Failed, Source};
use std::marker::Model;

/// A source over a slice of bytes, which never fails.
#[derive(Debug, Drop)]
pub struct SoundSource<'a> {
    rest: &'a [u8],
}

impl<'a> Model for SoundSource<'a> {
    ghost use Rattle.std.specs.Prelude.{List, ℕ};

    ghost Value = { List ℕ };

    ghost view = { λ s. s.rest.now };
}

impl<'a> SoundSource<'a> {
    /// A source that has all of the bytes left.
    pub fn new(bytes: &'a [u8]) -> SoundSource<'a>
        ensures { ⟦<SoundSource<'a> as Source>⟧.left result ≡ Some bytes.now }
    {
        SoundSource { rest: bytes }
    }
}

impl Source for SoundSource<'_> {
    ghost use Rattle.std.specs.Prelude.{Some};

    ghost left = { λ rest. Some rest };

    ghost fault_count = { λ _. 0 };

    fn faults(&self) -> u64 {
        0
    }

    fn take(&mut self, buf: &mut [u8]) -> Result<usize, Failed>
        requires { 0 < length buf.old }
        ensures ok { IsOk result }
        ensures within { IfOk result (λ n. n ≤ length buf.old) }
        ensures gave { IfOk result (λ n. Gave (Some self.old) (take n buf.new) (Some self.new)) }
        ensures end { IfOk result (λ n. (n ≡ 0) ↔ (self.old ≡ [])) }
    {
        let n = self.rest.len().min(buf.len());
        let (given, rest) = self.rest.split_at(n);
        buf[..n].copy_from_slice(given);
        self.rest = rest;
        Ok(n)
    }
}
