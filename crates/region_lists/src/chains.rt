//! One list of regions, linked by index through a table.
ghost use Rattle.std.specs.Prelude.{◌≡◌, ◌≢◌, ℕ, ◌+◌, ◌<◌, ◌^◌, ◌++◌, ◌∷◌, [], All, length, nat_eq};
ghost use Rattle.std.specs.List.{IsDistinct};
ghost use Rattle.region_lists.specs.Chains.{EndsAt, Relinks, chain_of};

/// What the table has for a region: the next one of its list, if it isn't the last, and how many of its bytes hold objects.
#[derive(Clone, Copy)]
pub(crate) struct Entry {
    pub(crate) next: u32,
    pub(crate) fill: u32,
}

/// A list through the table: its first and last region, if it has any, and how many it has.
#[derive(Clone, Copy)]
pub(crate) struct Chain {
    pub(crate) first: u32,
    pub(crate) last: u32,
    pub(crate) count: u32,
}

impl Chain {
    /// A list without regions.
    pub(crate) fn empty() -> Chain
        ensures { result.count ≡ 0 }
    {
        Chain {
            first: 0,
            last: 0,
            count: 0,
        }
    }

    /// Takes the first region out, and answers it.
    pub(crate) fn pop(&mut self, entries: &[Entry]) -> u32
        requires some { 0 < self.old.count }
        requires within { All (λ n. n < length entries.now) (chain_of entries.now self.old) }
        ensures chain { chain_of entries.now self.old ≡ result ∷ chain_of entries.now self.new }
        ensures last { self.new.last ≡ self.old.last }
    {
        let region = self.first;
        self.first = entries[region as usize].next;
        self.count -= 1;
        region
    }

    /// Puts a region that is in no list before the others. What was said of the last one may not hold then.
    pub(crate) fn push(&mut self, entries: &mut [Entry], region: u32)
        requires within { region < length entries.old }
        requires apart { All (λ n. n ≢ region) (chain_of entries.old self.old) }
        requires few { self.old.count + 1 < 2 ^ 32 }
        ensures chain { chain_of entries.new self.new ≡ region ∷ chain_of entries.old self.old }
        ensures relinks { Relinks entries.old entries.new (region ∷ []) }
    {
        entries[region as usize].next = self.first;
        self.first = region;
        self.count += 1;
    }

    /// Puts a region that is in no list behind the others.
    pub(crate) fn append(&mut self, entries: &mut [Entry], region: u32)
        requires apart { IsDistinct nat_eq (chain_of entries.old self.old) }
        requires within { All (λ n. n < length entries.old) (chain_of entries.old self.old) }
        requires ends { EndsAt (chain_of entries.old self.old) self.old.last }
        requires few { self.old.count + 1 < 2 ^ 32 }
        ensures chain { chain_of entries.new self.new ≡ chain_of entries.old self.old ++ region ∷ [] }
        ensures last { self.new.last ≡ region }
        ensures relinks { Relinks entries.old entries.new (chain_of entries.old self.old) }
    {
        if self.count == 0 {
            self.first = region;
        } else {
            entries[self.last as usize].next = region;
        }
        self.last = region;
        self.count += 1;
    }
}
