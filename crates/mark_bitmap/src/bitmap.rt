use bit_set::BitSet;
use cow_pages::Addr;
use std::alloc::{AllocError, Global};
use std::marker::Model;

/// How many bytes a bit stands for: objects start at multiples of it.
const OBJECT_ALIGNMENT: usize = 8;

/// A mark bitmap: a set of addresses that are multiples of 8, in a span of at most 4 GiB that
/// ends within 32 bits.
#[derive(Drop)]
pub struct Bitmap {
    from: u32,
    bytes: u32,
    bits: BitSet,
}

impl Model for Bitmap {
    ghost use Rattle.mark_bitmap.specs.Marks.{Marks};
    ghost use Rattle.bit_set.specs.Spans.{AreOver};

    ghost Value = { Marks };

    ghost view = { λ b. record { start = b.from; span = b.bytes; bits = b.bits } };

    ghost invariant = { λ b. AreOver 8 b.from b.bytes b.bits };
}

impl Bitmap {
    ghost use Rattle.std.specs.Prelude.{◌≡◌, ℕ, ◌+◌, ◌%◌, ◌^◌, ◌≤◌, ◌↔◌, ◌==◌, ◌||◌, max, IsFalse, IsNone, IsOk, IfOk, IfSome, OnOk, OnErr};
    ghost use Rattle.mark_bitmap.specs.Marks.{is_marked, first_place, IsPlace, SameSpan, IsWellPlaced};
    ghost use Rattle.bit_set.specs.Tests.{NoneFrom, NoneBelow, IsLeastFrom, IsGreatestBelow};

    /// A bitmap with no member over the `bytes` bytes from `from` on.
    pub fn new(alloc: Global, from: Addr, bytes: u32) -> Result<Bitmap, AllocError>
        requires aligned { from.0 % 8 ≡ 0 }
        requires bounded { from.0 + bytes ≤ 2 ^ 32 }
        ensures span { IfOk result (λ b. (b.start ≡ from.0) × (b.span ≡ bytes)) }
        ensures empty { IfOk result (λ b. (q : ℕ) → IsFalse (is_marked b q)) }
    {
        let mut bits = BitSet::new(alloc);
        bits.grow((bytes as usize).div_ceil(OBJECT_ALIGNMENT))?;
        Ok(Bitmap {
            from: from.0,
            bytes,
            bits,
        })
    }

    /// Makes the span at least `bytes` bytes long. It takes no memory where the span is so long.
    pub fn grow(&mut self, bytes: u32) -> Result<(), AllocError>
        requires { self.old.start + bytes ≤ 2 ^ 32 }
        ensures ok { OnOk result (self.new.span ≡ max self.old.span bytes) }
        ensures same_start { self.new.start ≡ self.old.start }
        ensures same_members { (q : ℕ) → is_marked self.new q ≡ is_marked self.old q }
        ensures err { OnErr result (self.new ≡ self.old) }
        ensures there { bytes ≤ self.old.span → IsOk result × (self.new ≡ self.old) }
    {
        if bytes > self.bytes {
            self.bits.grow((bytes as usize).div_ceil(OBJECT_ALIGNMENT))?;
            self.bytes = bytes;
        }
        Ok(())
    }

    /// A bitmap with the same span and members.
    pub fn copied(&self) -> Result<Bitmap, AllocError>
        ensures { IfOk result (λ copy. copy ≡ self.now) }
    {
        let bits = self.bits.copied()?;
        Ok(Bitmap {
            from: self.from,
            bytes: self.bytes,
            bits,
        })
    }

    /// Makes `at` a member.
    pub fn set(&mut self, at: Addr)
        requires { IsPlace self.old at.0 }
        ensures member { (q : ℕ) → is_marked self.new q ≡ (q == at.0 || is_marked self.old q) }
        ensures same_span { SameSpan self.old self.new }
    {
        self.bits
            .insert((at.0 - self.from) as usize / OBJECT_ALIGNMENT);
    }

    /// Whether `at` is a member.
    pub fn test(&self, at: Addr) -> bool
        requires { IsPlace self.now at.0 }
        ensures { result ≡ is_marked self.now at.0 }
    {
        self.bits
            .contains((at.0 - self.from) as usize / OBJECT_ALIGNMENT)
    }

    /// Takes every member out.
    pub fn clear_all(&mut self)
        ensures empty { (q : ℕ) → IsFalse (is_marked self.new q) }
        ensures same_span { SameSpan self.old self.new }
    {
        self.bits.clear();
    }

    /// The least member that is at least `at`, which may be any address.
    pub fn next_from(&self, at: Addr) -> Option<Addr>
        ensures found { IfSome result (λ next. IsLeastFrom (is_marked self.now) at.0 next.0) }
        ensures none { IsNone result ↔ NoneFrom (is_marked self.now) at.0 }
        ensures well_placed { IsWellPlaced self.now }
    {
        let k = self.bits.next_from(self.first_place(at))?;
        Some(Addr(self.from + (OBJECT_ALIGNMENT * k) as u32))
    }

    /// The greatest member below `at`, which may be any address.
    pub fn last_before(&self, at: Addr) -> Option<Addr>
        ensures found { IfSome result (λ last. IsGreatestBelow (is_marked self.now) at.0 last.0) }
        ensures none { IsNone result ↔ NoneBelow (is_marked self.now) at.0 }
        ensures well_placed { IsWellPlaced self.now }
    {
        let k = self.bits.last_before(self.first_place(at))?;
        Some(Addr(self.from + (OBJECT_ALIGNMENT * k) as u32))
    }

    /// Which multiple of 8 of the span, counted from 0, is the first at or above `at`.
    fn first_place(&self, at: Addr) -> usize
        ensures { result ≡ first_place self.now at.0 }
    {
        (at.0.saturating_sub(self.from) as usize).div_ceil(OBJECT_ALIGNMENT)
    }
}
