use crate::words;
use std::alloc::{AllocError, Global};
use std::marker::Model;

/// A set of numbers below its room, which grows. The numbers are those of bits: the place of a
/// mark or of a card.
#[derive(Drop)]
pub struct BitSet {
    words: Vec<u64>,
}

impl Model for BitSet {
    ghost use Rattle.std.specs.Prelude.{◌^◌, ◌≤◌, vec_len};
    ghost use Rattle.bit_set.specs.Bits.{Bits};

    ghost Value = { Bits };

    ghost view = { λ s. record { words = s.words.items } };

    ghost invariant = { λ s. vec_len s.words ≤ 2 ^ 26 };
}

impl BitSet {
    ghost use Rattle.std.specs.Prelude.{◌≡◌, ℕ, ◌+◌, ◌^◌, ◌<◌, ◌≤◌, ◌↔◌, ◌==◌, ◌||◌, IsFalse, IsNone, IsOk, IfOk, IfSome, OnOk, OnErr};
    ghost use Rattle.bit_set.specs.Bits.{room, is_member};
    ghost use Rattle.bit_set.specs.Tests.{NoneFrom, NoneBelow, IsLeastFrom, IsGreatestBelow};

    /// A set with no room. It takes no memory.
    pub fn new(alloc: Global) -> BitSet
        ensures no_room { room result ≡ 0 }
        ensures empty { (q : ℕ) → IsFalse (is_member result q) }
    {
        BitSet {
            words: Vec::new(alloc),
        }
    }

    /// Makes room for the numbers below `at_least`, rounded up to whole words of 64. Takes no
    /// memory where the room is there. An error changes nothing.
    pub fn grow(&mut self, at_least: usize) -> Result<(), AllocError>
        requires { at_least ≤ 2 ^ 32 }
        ensures ok { OnOk result (at_least ≤ room self.new) }
        ensures no_more { (n : ℕ) → room self.old ≤ n → at_least ≤ n → room self.new < n + 64 }
        ensures keeps_room { room self.old ≤ room self.new }
        ensures keeps_members { (q : ℕ) → is_member self.new q ≡ is_member self.old q }
        ensures err { OnErr result (self.new ≡ self.old) }
        ensures there { at_least ≤ room self.old → IsOk result × (self.new ≡ self.old) }
    {
        let count = at_least.div_ceil(64);
        if count > self.words.len() {
            self.words.resize(count, 0)?;
        }
        Ok(())
    }

    /// Makes `n` a member.
    pub fn insert(&mut self, n: usize)
        requires { n < room self.old }
        ensures member { (q : ℕ) → is_member self.new q ≡ (q == n || is_member self.old q) }
        ensures same_room { room self.new ≡ room self.old }
    {
        self.words[n / 64] |= 1 << (n % 64);
    }

    /// Whether `n` is a member.
    pub fn contains(&self, n: usize) -> bool
        requires { n < room self.now }
        ensures { result ≡ is_member self.now n }
    {
        self.words[n / 64] >> (n % 64) & 1 == 1
    }

    /// Takes every member out.
    pub fn clear(&mut self)
        ensures empty { (q : ℕ) → IsFalse (is_member self.new q) }
        ensures same_room { room self.new ≡ room self.old }
    {
        self.words.fill(0);
    }

    /// The least member at or above `n`. It looks at 64 numbers at a time.
    pub fn next_from(&self, n: usize) -> Option<usize>
        ensures found { IfSome result (IsLeastFrom (is_member self.now) n) }
        ensures none { IsNone result ↔ NoneFrom (is_member self.now) n }
        ensures within { IfSome result (λ q. q < room self.now) }
    {
        words::next_from(&self.words, n)
    }

    /// The greatest member below `n`. It looks at 64 numbers at a time.
    pub fn last_before(&self, n: usize) -> Option<usize>
        ensures found { IfSome result (IsGreatestBelow (is_member self.now) n) }
        ensures none { IsNone result ↔ NoneBelow (is_member self.now) n }
        ensures within { IfSome result (λ q. q < room self.now) }
    {
        words::last_before(&self.words, n)
    }

    /// A set with the same room and members.
    pub fn copied(&self) -> Result<BitSet, AllocError>
        ensures { IfOk result (λ copy. copy ≡ self.now) }
    {
        let words = self.words.clone()?;
        Ok(BitSet { words })
    }
}
